//! Runs of scripts: a script's sections are run in threads, over replicas behind locks or over nodes with rings.
//!
//! `ep_main` calls `run` and `run_rings`. In each section, first the weather is set: which frames are dropped, held or put twice. Then
//! the agendas are worked through: behind locks a replica has a thread that submits its lines, in the script's order, and one that pumps
//! it; over rings a node has one thread for both. Then the held frames are put, and there are rounds until all are idle. Requests are
//! numbered by client over all replicas, in the script's order; what a client has seen is the greatest stamp of its receipts before the
//! section. What the threads leave is audited: the verdict, or the first fault, is in the contract of `run`, and of what its threads do
//! nothing else is; `run_rings` reports besides what each section did to the nodes, which receipts were collected after it, what became of
//! each line, and that the audit accepts.
//!
//! Start with `runner.rt` or `rings.rt`, then specs/Asking.antt and `asking.rt` (what a line asks for), specs/Weathers.antt and `weather.rt`
//! (the weather of a section), and `lane.rt` (a replica's two threads) or specs/Sections.antt, specs/Rings.antt and `ring_run.rt` (a section
//! over rings).
//!
//! What a line means is reported by docs/CLI.md, section 4; the threads' calls are those of `ep_host`.
#![tactic(auto)]

mod asking;
mod collecting;
mod cursor;
mod lane;
mod limits;
mod ran;
mod refusals;
mod ring_run;
mod ring_weather;
mod rings;
mod run_fault;
mod runner;
mod submission;
mod weather;

pub use limits::Limits;
pub use ran::Ran;
pub use rings::run_rings;
pub use run_fault::RunFault;
pub use runner::run;
