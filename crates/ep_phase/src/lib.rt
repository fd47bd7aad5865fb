//! Phase 1, the accept phase and commit (EPaxos, figure 2), at the default ballot and at recovery ballots.
//!
//! Each call takes one event of one instance and decides what it changes there: it looks at a `InstanceView`, which is what the replica
//! knows of the instance, and answers a `Change`, or why the event is refused. Nothing has changed then. `Change::reserve` makes the
//! places that a change needs, and `Change::install` puts it in place; when out of memory, nothing has changed, so nothing ever has to be
//! undone. What a change sends is said of what it records, and isn't copied: `Change::said`.
//!
//! `ep_journal` calls it for each event that isn't a recovery's or an execution, and `ep_prepare` for the phases that a
//! recovery goes on to. Each call decides what its rule in `ep_rules`, specs/Phases.antt, says, test by test.
//!
//! Start with `instance_view.rt` and `change.rt`, then specs/Changes.antt, which says what a `Change` stands for; then `propose.rt`,
//! `accept.rt`, `commit.rt`. `progress.rt` shows a builder how far a lead is.
#![tactic(auto)]

mod accept;
mod change;
mod commit;
mod counting;
mod decision_fault;
mod instance_view;
mod lead;
mod lead_change;
mod progress;
mod propose;
mod receivers;
mod recorded;
mod sending;

pub use accept::{begin_accept, on_accept, on_accept_ok};
pub use change::Change;
pub use commit::{begin_commit, on_commit};
pub use decision_fault::DecisionFault;
pub use instance_view::InstanceView;
pub use lead::Lead;
pub use lead_change::LeadChange;
pub use progress::{LeadPhase, progress_of};
pub use propose::{
    give_up, is_usable, next_instance, on_pre_accept, on_pre_accept_ok, start, start_at,
};
pub use receivers::{Receivers, is_fast};
pub use recorded::Recorded;
pub use sending::{Sending, What};
