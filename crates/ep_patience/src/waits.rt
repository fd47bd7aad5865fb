//! How long is waited.

/// How long is waited, in the unit in which the time is handed in. Numbers are rounded down, so count in microseconds.
#[derive(Clone, Copy, Debug, PartialEq, Eq)]
pub struct Waits {
    /// The granularity G of RFC 6298: a peer's time-out is at least so much longer than its round trips. A turn that comes later than it was due by less than
    /// this isn't late. 100 ms are a good choice.
    pub granularity: u32,
    /// The time-out of a peer that was never measured: 1 s in RFC 6298.
    pub initial: u32,
    /// For an instance of which a peer says that it is committed. Mostly its Commit is under way.
    pub reported: u32,
    /// Each further wait is twice the one before, up to this one. An instance has some 60,000 ballots, and each try takes one: 20 s make them last for weeks.
    pub longest: u32,
}
