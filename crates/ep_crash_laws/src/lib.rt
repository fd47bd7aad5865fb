//! Laws of nodes that crash and come back: of reads that write nothing, whose looks are at what nodes have, on their disks or
//! not; and of progress.
//!
//! Start with specs/CrashReads.antt, with specs/CrashLifeReads.antt for generations, and with specs/CrashProgress.antt.
//! docs/SAFETY.md says how the proofs go. The laws of crashes alone are in `ep_node`.
#![tactic(auto)]

pub mod progress;
pub mod reads;
