//! What a replica executes: the order, the map that it keeps, and the set of what it has executed.
//!
//! `plan` gives the order of an execution, whatever was executed before. `ep_journal` asks `plan_left`, which takes a
//! closed set of executed instances and doesn't walk through it, tries the commands on the `Store`, and keeps them or
//! takes them all back. `ep_audit` counts first executions by `Executed`. The order is that of `ep_rules`,
//! specs/Order.antt, which says nothing of how it is found.
//!
//! Start with `planning.rt` and `store.rt`. The walk that finds components has a stack of its own, so that long chains
//! of dependencies don't recurse; specs/Walk.antt says what it keeps to.
//!
//! The walk and the map's table may be made anew freely, as long as `plan`, `plan_left` and `Store` keep their clauses.
#![tactic(auto)]

mod agreeing;
mod changes;
mod component;
mod contents;
mod contents_fault;
mod executed;
mod gathering;
mod graph;
mod ground;
mod layers;
mod level;
mod listing;
mod many;
mod marked;
mod marks;
mod merging;
mod plan_fault;
mod planning;
mod queue;
mod reach;
mod ready;
mod slices;
mod store;
mod table;
mod trial;
mod walk;

pub use contents::Contents;
pub use contents_fault::ContentsFault;
pub use executed::Executed;
pub use listing::Listing;
pub use plan_fault::PlanFault;
pub use planning::{plan, plan_left};
pub use reach::missing;
pub use store::Store;
pub use trial::Trial;
