//! Explicit prepare: the recovery of an instance whose leader may have failed (EPaxos, figure 3; Sutra, 2019).
//!
//! Each call takes one event of one instance and decides what it changes there, as the calls of `ep_phase` do: it looks at a
//! `Cell`, and answers a `Change`, or why the event is refused. Nothing has changed then.
//!
//! `ep_journal` calls it for Recover, Prepare, PrepareOK and Nack. Each call does what its rule in `ep_rules`,
//! specs/Recovery.antt, says.
//!
//! Start with `choosing.rt`, the five cases of the choice, on which safety turns: a case that is tested a little otherwise
//! breaks agreement, and docs/SAFETY.md says why. Then `recovering.rt`, `preparing.rt` and `counting.rt`.
#![tactic(auto)]

mod choice;
mod choosing;
mod counting;
mod own_vote;
mod preparing;
mod recovering;

pub use choice::Choice;
pub use choosing::{PrepareAnswer, choose};
pub use counting::on_prepare_ok;
pub use preparing::{on_nack, on_prepare};
pub use recovering::recover;
