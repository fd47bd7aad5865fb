//! Whose command is proposed.

/// Whose command is proposed.
#[repr(C)]
pub struct Call {
    /// The greatest stamp of the receipts that the client has seen; 0 if it has seen none.
    pub seen: u64,
    /// The client, from 1.
    pub client: u32,
    /// Its request, from 1. A client's number and its request's name one command, over all starts: what is proposed twice is done twice.
    pub request: u32,
    /// 0: the replica just below this one is spared (the last one, if this is replica 0), and `spared` is ignored. Versions 1 and 2 have no other.
    pub has_spared: u8,
    /// The other replica that isn't asked at first: the slowest one, or one that can't be reached. All others have to answer before the command is committed
    /// in one round trip.
    pub spared: u8,
}
