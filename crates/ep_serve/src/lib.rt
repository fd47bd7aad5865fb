//! The loop of a node: requests in, answers out, and nothing out before it is on the disk.
//!
//! It keeps to docs/FORMATS.md, section 10.
//!
//! Start with `serving.rt` and specs/Serving.antt; then `acting.rt`, `advancing.rt` and `executing.rt` (what a request does), `queue.rt` (the
//! answers that wait), `durable.rt` (what is on the disk from then on), `answering.rt` and `reporting.rt` (what an answer reports).
//!
//! An answer that waits says what happened; its bytes are made when all that the node took is on the disk, from the replica
//! that the node then lends. A host that has no streams takes the parts: `act`, and `all_answers` once all is on the disk.
#![tactic(auto)]

mod acting;
mod advancing;
mod answer_fault;
mod answering;
mod asked;
mod durable;
mod executing;
mod making;
mod mode;
mod pending_answer;
mod queue;
mod readying;
mod reporting;
mod serve_fault;
mod serving;

pub use acting::{act, is_far_ahead};
pub use advancing::{advance_own, execute_own};
pub use answering::all_answers;
pub use mode::Mode;
pub use pending_answer::PendingAnswer;
pub use serve_fault::ServeFault;
pub use serving::{dialect_of, serve};
