//! A script's replay as it is played, in words, so that the next script can be written from it.
//!
//! `ep_viewer` prints it for `epaxos trace`: a line for each event that is tried, with the numbers of the messages
//! that it handles and sends, or why it is refused; then each message that was never given, and each instance that a replica
//! knows of and hasn't committed; and then what would end what is open, which `ep_ending` reports.
//!
//! Start with `traced.rt`, then specs/Traced.antt (which events are reported, in which order) and specs/Lines.antt (each line).
//! `ep_replay` plays the script, and keeps each event that it tries: what is reported here is what `epaxos replay`
//! plays.
#![tactic(auto)]

mod left;
mod lines;
mod numbers;
mod traced;

pub use traced::trace;
