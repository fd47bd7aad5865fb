//! One step of a replica, and journals: each entry is the step from what the earlier ones leave.
//!
//! `ep_replica` steps a `State` and appends to a `Journal`; `ep_bundle` steps one again as it reads a journal's bytes. The
//! step is `IsStep` of `ep_rules`, with every refusal in its order, and a refusal leaves the state as it was. Their codes
//! and words are in `step_fault.rt` and specs/Refusals.antt.
//!
//! Start with `event.rt`, `entry.rt` and `state.rt` (`State::step`), then specs/Standing.antt (`Advances`, `IsRefused`). A
//! `Journal` is a local run by its type, so whoever holds one knows it.
//!
//! A step (`replica_state.rt`) asks whether the replica's version has the event (`versioned.rt`), screens it (`screen.rt`), decides
//! (`deciding.rt`), writes the frames, and then makes the places that the change needs and puts it there: all that may fail
//! comes first, so nothing has to be put back. Most Commits are of what the replica voted for, which takes less (`settle`).
//! A handled message is read off its frame, and never made. Several executions are tried first, and kept or taken back
//! together. Nothing else is ever undone: keep it so.
#![tactic(auto)]

mod beginning;
mod blocked;
mod chosen;
mod deciding;
mod entry;
mod event;
mod execute;
mod executions;
mod frames;
mod input;
mod journal;
mod journals;
mod mark;
mod naming;
mod opening;
mod refusal;
mod remainder;
mod replica_state;
mod screen;
mod state;
mod step_fault;
mod taken;
mod versioned;

pub use beginning::Beginning;
pub use entry::Entry;
pub use event::Event;
pub use executions::Executions;
pub use frames::Frames;
pub use journal::Journal;
pub use journals::Journals;
pub use mark::Mark;
pub use opening::Opening;
pub use refusal::Refusal;
pub use remainder::Remainder;
pub use state::State;
pub use step_fault::StepFault;
pub use taken::Taken;
