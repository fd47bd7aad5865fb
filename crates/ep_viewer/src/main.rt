//! `epaxos trace`, `show`, `explain`, `draw` and `trace-events`: runs in words and pictures, for people who look at them.
//!
//! `main` hands the words to `read_words`, in `command_line.rt` (the commands stand in `commands.rt`), and what they ask for with the standard
//! streams to `perform`, in `program.rt`, which is all of the program: over any source and sinks, so that its contract can say what the bytes and the
//! status mean. It does no more than read a bundle and call `ep_view` or `ep_explain`, or read a script and call `ep_trace`. The fixed parts of a
//! page stand in page.html, beside src/; `tools/generate` makes `parts.rt` of it.
//!
//! Start with `program.rt` and specs/Views.antt. A fault has one line on the fault output and one status (`viewer_fault.rt`,
//! `reporting.rt`, and `ep_cli`), as docs/CLI.md, section 6, lists them.
#![tactic(auto)]

mod command_line;
mod commands;
mod explaining;
mod parts;
mod program;
mod reporting;
mod tracing;
mod view;
mod viewer_asked;
mod viewer_fault;
mod viewing;

use crate::command_line::read_words;
use crate::program::perform;
use crate::viewer_asked::ViewerAsked;
use ep_base::{Noted, Sink, Source};
use ep_cli::{Status, Streams, WordsFault, decline, read_ahead, words};
use ep_explain::Kept;
use std::process::ExitCode;
use std::rt::Env;

fn main(rt: HostRuntime) -> ExitCode {
    let mut fault_writer = Noted::new(rt.stderr());
    let status = match read_ahead(rt.alloc(), rt.stdin()) {
        Ok(reader) => {
            let mut streams = Streams {
                reader: Kept::new(rt.alloc(), reader),
                writer: Noted::new(rt.stdout()),
                fault_writer,
            };
            run(&rt, &mut streams)
        }
        Err(why) => decline(why, &mut fault_writer),
    };
    ExitCode::from(status.code())
}

/// Does what the words of the command line ask for, and answers how the program ends.
fn run<R: Env + AllocGlobal, S: Source, W: Sink, F: Sink>(
    rt: &R,
    streams: &mut Streams<Kept<S>, W, F>,
) -> Status {
    match asked_for(rt) {
        Ok(asked) => perform(rt.alloc(), &asked, streams),
        Err(why) => decline(why, &mut streams.fault_writer),
    }
}

/// What the words of the command line ask for.
fn asked_for<R: Env + AllocGlobal>(rt: &R) -> Result<ViewerAsked, WordsFault> {
    let words = words(rt)?;
    read_words(rt.alloc(), words.as_slice())
}
