//! Nodes: replicas with their logs on devices, which crash and come back.
//!
//! `Node` is a replica of which nothing gets out before it is on the disk. Start with `node.rt` and specs/Nodes.antt, then
//! `opening.rt`; what a crash may take, and what holds all the same, is in specs/Crashes.antt, and of many generations in
//! specs/CrashLives.antt.
#![tactic(auto)]

mod begin;
mod close_fault;
mod closing;
mod crash_law;
mod cut;
mod executing;
mod extent;
mod first_entries;
mod handled;
mod learning;
mod node;
mod node_fault;
mod notes;
mod open_fault;
mod open_instance;
mod open_laws;
mod opening;
mod ready;
mod ready_fault;
mod ready_laws;
mod records;
mod reporting;
mod resumed;
mod started;
mod taking;
mod whose;

pub use begin::Begin;
pub use close_fault::CloseFault;
pub use crash_law::{
    calls_are_moves, crashes_keep_agreement, crashes_keep_receipts, crashes_leave_no_trace,
    crashing_lives_are_chains, crashing_lives_are_linearizable, crashing_runs_are_linearizable,
    crashing_runs_are_runs, handed_out_stays, life_calls_are_moves, played_runs_are_moves,
};
pub use cut::Cut;
pub use handled::handled_from;
pub use node::Node;
pub use node_fault::NodeFault;
pub use open_fault::OpenFault;
pub use open_instance::OpenInstance;
pub use open_laws::cuts_are_opened;
pub use ready::Ready;
pub use ready_fault::ReadyFault;
pub use ready_laws::commits_are_reported;
pub use whose::Whose;
