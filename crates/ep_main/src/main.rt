//! `epaxos`: replays scripts of a replicated key-value core, runs them in threads, audits and upgrades bundles, and prints reports.
//!
//! `main` hands the words and the standard streams to `engine`, in `program.rt`, which is all of the program: over any source
//! and sinks, so that its contract can say what the bytes and the status mean.
//!
//! Start with `program.rt`, `command_line.rt` (the words, by `clap`) and specs/Runs.antt (what is done, by status).
//!
//! It does no more than call `ep_replay`, `ep_run`, `ep_audit` and `ep_bundle`, and `Journals::into_upgraded`. A fault has one
//! line on the fault output and one status (`engine_fault.rt`, `reporting.rt`, and `ep_cli`, which `ep_viewer` shares), as docs/CLI.md,
//! section 6, lists them.
#![tactic(auto)]

mod asked;
mod auditing;
mod chain_files;
mod chaining;
mod command_line;
mod engine_fault;
mod form;
mod forms;
mod gathering;
mod host;
mod job;
mod program;
mod replaying;
mod reporting;
mod run_options;
mod running;
mod target;
mod upgrading;

use crate::program::engine;
use ep_base::{Noted, Sink, Source};
use ep_cli::{Status, Streams, decline, read_ahead, words};
use std::marker::Sync;
use std::process::ExitCode;
use std::rt::{Env, Files};
use std::sync::Wait;
use std::thread::Threads;

fn main(rt: HostRuntime) -> ExitCode {
    let mut fault_writer = Noted::new(rt.stderr());
    let status = match read_ahead(rt.alloc(), rt.stdin()) {
        Ok(reader) => {
            let mut streams = Streams {
                reader,
                writer: Noted::new(rt.stdout()),
                fault_writer,
            };
            run(&rt, &mut streams)
        }
        Err(why) => decline(why, &mut fault_writer),
    };
    ExitCode::from(status.code())
}

/// Runs the program, unless its words can't be had.
fn run<R: Env + Files + AllocGlobal + Threads + Wait + Sync, S: Source, W: Sink, F: Sink>(
    rt: &R,
    streams: &mut Streams<S, W, F>,
) -> Status {
    match words(rt) {
        Ok(words) => engine(rt, rt.alloc(), words.as_slice(), streams),
        Err(why) => decline(why, &mut streams.fault_writer),
    }
}
