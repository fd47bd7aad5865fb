//! A replica: what it knows is what its journal leaves. It takes events, one entry each, by its clock, and gives receipts.
//!
//! This is the crate to build on: a program hands events to `Replica::take`, and what comes from outside to `Replica::handle`,
//! keeps the new entry, and sends its frames.
//! docs/EMBEDDING.md says how, and examples/three_replicas does it. `ep_world` holds replicas too.
//!
//! Start with `replica.rt`, then specs/Applied.antt (one event), specs/Receipts.antt (what callers are answered) and `clock.rt`. What a
//! program asks beside is in `asking.rt`; where instances were first executed, in `first_executions.rt`.
//!
//! It keeps to `ep_journal`'s step, with the number and the stamp of its own clock, and its state is what its journal leaves,
//! by its type. `Replica::new` makes one of version 2, and `Replica::opened` one of a generation, with an opening; both are one
//! type, and every clause is over both. No disk, no socket, no time and no thread is in here; leave those to the program.
#![tactic(auto)]

mod asking;
mod blockers;
mod clock;
mod due_numbers;
mod entry_receipts;
mod execution_place;
mod first_executions;
mod flags;
mod indexes;
mod pending;
mod proposal;
mod proposing;
mod reading;
mod receipt_view;
mod remembered;
mod replica;
mod replica_fault;
mod resume_fault;
mod slots;
mod span;

pub use ep_phase::LeadPhase;
pub use proposal::Proposal;
pub use reading::Reading;
pub use receipt_view::ReceiptView;
pub use replica::Replica;
pub use replica_fault::ReplicaFault;
pub use resume_fault::ResumeFault;
