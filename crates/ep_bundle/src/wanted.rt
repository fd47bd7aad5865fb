//! What may stand in a field.

use ep_base::Op;

/// What may stand in a field that is refused.
#[derive(Clone, Copy, Debug, PartialEq, Eq)]
pub enum Wanted {
    /// All of its bytes, of which the input has fewer.
    Whole,
    /// A number from the first one to the second one.
    Range(u64, u64),
    /// 3, 5 or 7.
    ClusterSize,
    /// A length that this part of a command may have which has this op.
    LengthFor(Op),
    /// Another replica than the journal's own, of a cluster of so many.
    OtherReplica(u8),
    /// Another key than the first one.
    OtherKey,
    /// One above those before it.
    Higher,
    /// A body that a command with this op may have.
    BodyFor(Op),
    /// No byte.
    Nothing,
    /// What the reader of another format says.
    Unsaid,
}
