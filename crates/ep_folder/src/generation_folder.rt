//! What the folder of a generation has.

/// What the folder of a generation has.
#[derive(Clone, Copy, Debug, PartialEq, Eq)]
pub struct GenerationFolder {
    /// The generation, from 1.
    pub number: u32,
    /// Whether its opening is there.
    pub has_opening: bool,
    /// Whether a reference is there, to the log of the generation before.
    pub has_reference: bool,
    /// Whether there is a binding, with the digests of both: it says that the opening is the one that the reference stood for.
    pub is_bound: bool,
    /// The later generation whose log its mark says was begun; 0 where it has no mark.
    pub left_for: u32,
}
