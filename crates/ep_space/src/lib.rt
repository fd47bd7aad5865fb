//! The records of a replica, and the interference set of a command.
//!
//! `ep_phase`, `ep_prepare` and `ep_exec` keep what a replica knows of each instance in a `Space`, which contracts see as a
//! finite map. An instance's place, and room in the index for the keys of a vote, are made before its record is written, which takes no
//! memory; nor does what is read, but for copies and interference sets.
//!
//! Start with `space.rt`: `get`, `reserve_for`, `join_ballot`, `vote_pre`, `vote_accept`, `commit`, and `interference`; `open.rt` finds what isn't
//! committed. `table.rt` is the table below, which `ep_phase` uses too.
//!
//! How places, the index by key and the least free number are kept may change freely: no contract above names them.
#![tactic(auto)]

mod gathered;
mod index;
mod interference_fault;
mod keyed;
mod names;
mod open;
mod seqs;
mod space;
mod space_full;
mod table;
mod taken;

pub use interference_fault::InterferenceFault;
pub use space::Space;
pub use space_full::SpaceFull;
pub use table::Table;
