//! What a version is.

/// What a version is: one of the first two, or the third with a generation's number.
#[derive(Clone, Copy, Debug, PartialEq, Eq)]
pub enum VersionKind {
    /// Commands name one key at most, and a replica leads 1,000 instances.
    V1,
    /// There are swaps too, and a replica leads 2,000 instances.
    V2,
    /// There are comparisons, seals and commands of machines outside too, values of up to 65,535 bytes, and a replica leads 9,000 instances.
    /// The generation's number.
    V3(u32),
}
