//! How long is waited.

/// How long a replica waits, in the unit of the caller's times. Count in microseconds: numbers are rounded down.
#[repr(C)]
#[derive(Clone, Copy)]
pub struct Waits {
    /// From which the random waits are drawn. Replicas of a cluster have different ones.
    pub seed: u64,
    /// G of RFC 6298: a peer's time-out is SRTT + max (G, 4 RTTVAR). 100 ms are a good choice.
    pub granularity: u32,
    /// The time-out of a peer that was never measured, 1 s in RFC 6298.
    pub initial: u32,
    /// How long to wait for a Commit of which a peer has told. 1.5 s are a good choice.
    pub told: u32,
    /// Waits double up to this one. 20 s are a good choice.
    pub longest: u32,
    /// How many replicas the cluster has: 3, 5 or 7.
    pub replicas: u8,
    /// Which of them this is, from 0.
    pub replica: u8,
}
