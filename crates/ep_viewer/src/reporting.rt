//! Faults on the fault output.

ghost use Rattle.ep_base.specs.Devices.{Puts};
ghost use Rattle.ep_viewer.specs.Faults.{line_of};

use crate::viewer_fault::ViewerFault;
use ep_base::{Sink, WriteFailed};
use ep_cli::{write_bad_bundle, write_not_a_run, write_script_refused};

/// Writes the line of a fault. It takes no memory.
pub(crate) fn write_fault<F: Sink>(fault: &ViewerFault, sink: &mut F) -> Result<(), WriteFailed>
    ensures { Puts (F.held sink.old) (F.held sink.new) (F.has_failed sink.old) (F.has_failed sink.new) result (line_of fault.now) }
{
    match fault {
        ViewerFault::Script(line) => write_script_refused(*line, sink),
        ViewerFault::BadBundle(field) => write_bad_bundle(field.at, sink),
        ViewerFault::NotARun(replica, entry) => write_not_a_run(*replica, *entry, sink),
        ViewerFault::Memory => sink.put(b"out of memory\n"),
        ViewerFault::Read => sink.put(b"reading failed\n"),
        ViewerFault::Write => sink.put(b"writing failed\n"),
    }
}
