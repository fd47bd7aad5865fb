//! Traces of scripts.

ghost use Rattle.std.specs.Prelude.{◌≡◌, ℕ, List, Some, IfErr, false};
ghost use Rattle.ep_base.specs.Devices.{FailsAsReported};
ghost use Rattle.ep_cli.specs.Printed.{Makes};
ghost use Rattle.ep_viewer.specs.Faults.{is_read, is_write};
ghost use Rattle.ep_viewer.specs.Views.{Does};
ghost use Rattle.ep_viewer.specs.declared.viewer_asked.ViewerAsked.TheVariants.{Trace};

use crate::viewer_fault::ViewerFault;
use ep_base::Source;
use ep_cli::{Made, Status};
use ep_script::read_script;
use ep_trace::trace;
use std::alloc::Global;
use std::mem::forget;

/// Reads a script to its end, plays it, and makes its trace.
pub(crate) fn trace_of<S: Source>(alloc: Global, reader: &mut S) -> Result<Made, ViewerFault>
    ensures made { (zs : List ℕ) → S.left reader.old ≡ Some zs → Makes (Does Trace) result zs }
    ensures read { FailsAsReported is_read result (S.has_failed reader.old) (S.has_failed reader.new) }
    ensures unwritten { IfErr result (λ e. is_write e ≡ false) }
{
    let script = read_script(alloc, reader)?;
    let text = trace(alloc, &script);
    // The system takes memory back at the process's end, all at once.
    forget(script);
    match text {
        Ok(text) => Ok(Made {
            text,
            status: Status::Done,
        }),
        Err(_) => Err(ViewerFault::Memory),
    }
}
