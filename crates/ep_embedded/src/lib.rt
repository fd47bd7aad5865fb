//! A node whose log is in its caller's hands.
//!
//! A `Hosted` takes what happens, lends the bytes that its caller is to write, and says nothing before the caller says that these are on the disk. Meanwhile it
//! takes what happens then. What it takes and reports is what `ep_serve` says of a node's requests and answers.
//!
//! Start with `hosted.rt` and specs/Hosting.antt; then `opening.rt` and `bound.rt` (how one begins), `taking.rt` (what it takes), `asking.rt` (requests in bytes),
//! `reporting.rt`, `preparing.rt` and `listing.rt` (what it lends and reports), with specs/Beginning.antt and specs/Taking.antt.
#![tactic(auto)]

mod arena;
mod ask_fault;
mod asking;
mod bound;
mod call;
mod following;
mod heir;
mod hosted;
mod hosted_checkpoint;
mod listing;
mod opening;
mod prepare_fault;
mod preparing;
mod report_fault;
mod reporting;
mod seat;
mod start_fault;
mod succeed_fault;
mod succeeding;
mod sync_fault;
mod taking;
mod taking_fault;

pub use ask_fault::AskFault;
pub use call::Call;
pub use heir::Heir;
pub use hosted::Hosted;
pub use hosted_checkpoint::HostedCheckpoint;
pub use prepare_fault::PrepareFault;
pub use report_fault::ReportFault;
pub use seat::Seat;
pub use start_fault::StartFault;
pub use succeed_fault::SucceedFault;
pub use sync_fault::SyncFault;
pub use taking_fault::TakingFault;
