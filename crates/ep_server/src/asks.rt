//! What is asked of a replica's folder.

/// What is asked of a replica's folder.
#[derive(Drop)]
pub enum Asks<'a> {
    /// To go on with what is there.
    GoOn,
    /// To begin generation 1 of a new replica.
    New,
    /// To take the opening that the file of this name has.
    Take(&'a str),
}
