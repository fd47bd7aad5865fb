//! The core as a C library: one replica behind a handle.
//!
//! Each export is a call that `tools/generate` writes into bindings/c/epaxos.h, with the comment that it has here. It answers a
//! status of `status.rt`; one of a replica is given the handle. Calls come in by arguments; answers go out as bytes of docs/FORMATS.md that lie in the
//! replica until its next call.
//!
//! Nothing here decides anything: a call makes what its arguments say (`making.rt`), has the `Hosted` do it, and reports its fault by a number
//! (`codes.rt`, specs/Statuses.antt). No call has a condition: what is wrong with a handle or an argument is a status.
//!
//! Start with `life.rt` and specs/Calls.antt.
#![tactic(auto)]

mod alone;
mod answering;
mod bound;
mod call;
mod closed_log;
mod codes;
mod copying;
mod events;
mod exchange;
mod executing;
mod frame_head;
mod framing;
mod fronts;
mod held_generation;
mod instance;
mod leading;
mod lent;
mod life;
mod log_head;
mod logs;
mod making;
mod opening_head;
mod opening_parts;
mod openings;
mod pair;
mod pairs;
mod patience;
mod place;
mod planning;
mod proposing;
mod reference_head;
mod references;
mod refusals;
mod setup;
mod start_plan;
mod start_wish;
mod status;
mod succeeding;
mod succession;
mod syncing;
mod touching;
mod waits;
