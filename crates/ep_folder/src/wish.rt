//! What a start is asked for.

/// What a start is asked for. An opening that is handed over is the same where its bytes are those of the newest one here.
#[derive(Clone, Copy, Debug, PartialEq, Eq)]
pub enum Wish {
    /// To go on with what is there.
    GoOn,
    /// To begin generation 1, of a replica that is new.
    New { is_same: bool },
    /// To take the opening of this generation, which a peer has, or which this start made as it closed the one before.
    Take { generation: u32, is_same: bool },
}
