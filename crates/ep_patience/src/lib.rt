//! When to wait no longer.
//!
//! Whether an instance is given up or recovered, and when, is a question of time, of which the protocol knows nothing: any answer is safe. `Patience`
//! is one that is wise: it is handed the time, how long peers take to answer, and what is open, and says what to ask for. It has no clock, no IO and no
//! source of chance but its seed.
//!
//! Start with `patience.rt` and specs/Turning.antt; then `trip.rt` and specs/Trips.antt (RFC 6298), `outlook.rt` and `choosing.rt`.
#![tactic(auto)]

mod at_last;
mod choosing;
mod hosted_patience;
mod in_time;
mod outlook;
mod patience;
mod peer;
mod peers;
mod reading;
mod remedy;
mod seen;
mod trip;
mod turn_fault;
mod waiting;
mod waits;
mod writing;

pub use at_last::asks_at_last;
pub use hosted_patience::HostedPatience;
pub use in_time::{begins_patient, stays_patient};
pub use patience::Patience;
pub use remedy::Remedy;
pub use seen::Seen;
pub use turn_fault::TurnFault;
pub use waits::Waits;
