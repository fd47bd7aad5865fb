//! The program, over any source and sinks.

ghost use Rattle.std.specs.Prelude.{◌≡◌, ℕ, List, Some};
ghost use Rattle.ep_explain.specs.Kept.{known_left};
ghost use Rattle.ep_base.specs.Devices.{FailsAsReported};
ghost use Rattle.ep_cli.specs.Outputs.{became, input};
ghost use Rattle.ep_viewer.specs.Faults.{is_read, is_write};
ghost use Rattle.ep_viewer.specs.Views.{Concludes, Does, Performs};

use crate::explaining::explanation_of;
use crate::reporting::write_fault;
use crate::tracing::trace_of;
use crate::viewer_asked::ViewerAsked;
use crate::viewer_fault::ViewerFault;
use crate::viewing::view_of;
use ep_base::{Sink, Source};
use ep_cli::{Status, Streams, put_made, put_text};
use ep_explain::Kept;
use std::alloc::Global;

/// Does what is asked, and answers how the program ends. What stops it is reported by one line on the fault output; where reporting
/// fails, the status stays.
pub fn perform<S: Source, W: Sink, F: Sink>(
    alloc: Global,
    asked: &ViewerAsked,
    streams: &mut Streams<Kept<S>, W, F>,
) -> Status
    ensures { (zs : List ℕ) → known_left S.left streams.old.reader ≡ Some zs → Performs asked.now result zs (input (S.has_failed streams.old.reader.source) (S.has_failed streams.new.reader.source))
        (became W.held W.has_failed streams.old.writer streams.new.writer) (became F.held F.has_failed streams.old.fault_writer streams.new.fault_writer) }
{
    let outcome = attempt(alloc, asked, streams);
    concluded(outcome, &mut streams.fault_writer)
}

/// Does what is asked, as far as no fault stops it.
fn attempt<S: Source, W: Sink, F>(
    alloc: Global,
    asked: &ViewerAsked,
    streams: &mut Streams<Kept<S>, W, F>,
) -> Result<Status, ViewerFault>
    ensures done { (zs : List ℕ) → known_left S.left streams.old.reader ≡ Some zs → Does asked.now result zs (became W.held W.has_failed streams.old.writer streams.new.writer) }
    ensures read { FailsAsReported is_read result (S.has_failed streams.old.reader.source) (S.has_failed streams.new.reader.source) }
    ensures written { FailsAsReported is_write result (W.has_failed streams.old.writer) (W.has_failed streams.new.writer) }
    ensures unreported { streams.new.fault_writer ≡ streams.old.fault_writer }
{
    match asked {
        ViewerAsked::View(view) => {
            let made = view_of(alloc, view, &mut streams.reader);
            put_made(made, ViewerFault::Write, &mut streams.writer)
        }
        ViewerAsked::Trace => {
            let made = trace_of(alloc, &mut streams.reader);
            put_made(made, ViewerFault::Write, &mut streams.writer)
        }
        ViewerAsked::Explain => {
            let made = explanation_of(alloc, &mut streams.reader);
            put_made(made, ViewerFault::Write, &mut streams.writer)
        }
        ViewerAsked::Version => put_text(
            b"epaxos 1.0.0\n",
            Status::Done,
            ViewerFault::Write,
            &mut streams.writer,
        ),
        ViewerAsked::Help(text) => put_text(
            text.as_bytes(),
            Status::Done,
            ViewerFault::Write,
            &mut streams.writer,
        ),
    }
}

/// How the program ends. A fault is reported on the fault output; where that fails, the status stays.
fn concluded<F: Sink>(outcome: Result<Status, ViewerFault>, fault_writer: &mut F) -> Status
    ensures { Concludes outcome result (became F.held F.has_failed fault_writer.old fault_writer.new) }
{
    match outcome {
        Ok(status) => status,
        Err(fault) => {
            let status = fault.status();
            let _ = write_fault(&fault, fault_writer);
            status
        }
    }
}
