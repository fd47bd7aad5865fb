//! The bytes of a node's requests and answers.
//!
//! `ep_serve` reads requests and writes answers by this crate. It keeps to docs/FORMATS.md, section 10: a request is read
//! exactly where its bytes are one, a malformed one is reported by its first wrong field, and an answer's bytes are those of specs/Answers.antt.
//!
//! Start with `request.rt`, `reading.rt` and specs/Requests.antt; then `answers.rt` and specs/Answers.antt.
//!
//! A request's length, kind and body are read before kind and body are judged; then a body is read by `ep_bundle`'s stages, of
//! which nothing may be left. So a malformed request is read to its end, and the next one can be read.
#![tactic(auto)]

mod answers;
mod bodies;
mod front;
mod instances;
mod lead_progress;
mod malformed;
mod node_state;
mod places;
mod reading;
mod reads;
mod reporting;
mod request;
mod request_fault;
mod request_field;

pub use answers::{
    put_entry, put_sent, sealed_code, taken_as, write_handled, write_instance, write_leading,
    write_malformed, write_no_value, write_refused, write_state, write_synced, write_taken,
    write_value,
};
pub use ep_bundle::JournalDialect;
pub use instances::Instances;
pub use lead_progress::LeadProgress;
pub use malformed::Malformed;
pub use node_state::NodeState;
pub use reading::read_request;
pub use reads::{write_interfering, write_reply, write_waits};
pub use reporting::{put_instances, put_open, put_reported_receipts, write_ready};
pub use request::Request;
pub use request_fault::RequestFault;
pub use request_field::RequestField;
