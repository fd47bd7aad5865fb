//! Faults on the fault output.

ghost use Rattle.ep_base.specs.Devices.{Puts};
ghost use Rattle.ep_main.specs.Faults.{line_of};

use crate::engine_fault::EngineFault;
use ep_base::{Sink, WriteFailed};
use ep_cli::{write_bad_bundle, write_not_a_run, write_script_refused};

/// Writes the line of a fault. It takes no memory.
pub(crate) fn write_fault<F: Sink>(fault: EngineFault, sink: &mut F) -> Result<(), WriteFailed>
    ensures { Puts (F.held sink.old) (F.held sink.new) (F.has_failed sink.old) (F.has_failed sink.new) result (line_of fault) }
{
    match fault {
        EngineFault::Script(line) => write_script_refused(line, sink),
        EngineFault::BadBundle(field) => write_bad_bundle(field.at, sink),
        EngineFault::NotARun(replica, entry) => write_not_a_run(replica, entry, sink),
        EngineFault::Memory => sink.put(b"out of memory\n"),
        EngineFault::Read => sink.put(b"reading failed\n"),
        EngineFault::Write => sink.put(b"writing failed\n"),
    }
}
