//! What a replica is opened as.

/// What a replica is opened as.
#[repr(C)]
pub struct Setup<'a> {
    /// The file that its generation opens with, as ep_first_opening or ep_close gives it; of no bytes for a replica of version 2.
    pub opening: &'a [u8],
    /// All bytes of its log; none of a new replica.
    pub log: &'a [u8],
    /// How many replicas the cluster has: 3, 5 or 7.
    pub replicas: u8,
    /// Which of them this is, from 0.
    pub replica: u8,
    /// 0: the replica goes on from its log; else it is new. A replica whose log is lost must never be new again: it would have forgotten what it told.
    pub is_new: u8,
}
