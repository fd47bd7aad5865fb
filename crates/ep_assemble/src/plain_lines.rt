//! The lines that are reported of logs that are to be of version 2.

ghost use Rattle.std.specs.Prelude.{◌≡◌, ◌++◌, map, string_bytes, OnOk};
ghost use Rattle.ep_assemble.specs.Lines.{is_of_generation, late_line, plain_line, plain_log_line};

use crate::assemble_fault::AssembleFault;
use crate::lines::{name_of, push_log_line, push_refusal};
use ep_log::LogFault;
use std::alloc::AllocError;

/// Appends the line of a fault of logs and of files of receipts with these names.
pub(crate) fn push_plain(
    logs: &[String],
    receipts: &[String],
    fault: AssembleFault,
    out: &mut Vec<u8>,
) -> Result<(), AllocError>
    ensures { OnOk result (out.new.items ≡ out.old.items ++ plain_line (map string_bytes logs.now) (map string_bytes receipts.now) fault) }
{
    match fault {
        AssembleFault::Memory => push_refusal(logs, receipts, AssembleFault::Memory, out),
        AssembleFault::Log(place, why) => push_plain_log(name_of(logs, place), why, out),
        AssembleFault::Collect(why) => {
            push_refusal(logs, receipts, AssembleFault::Collect(why), out)
        }
        AssembleFault::Receipts(place, at) => {
            push_refusal(logs, receipts, AssembleFault::Receipts(place, at), out)
        }
        AssembleFault::TooManyReceipts => {
            push_refusal(logs, receipts, AssembleFault::TooManyReceipts, out)
        }
    }
}

/// Whether the log is of version 3.
fn is_of_generation(fault: LogFault) -> bool
    ensures { result ≡ is_of_generation fault }
{
    matches!(fault, LogFault::OtherGeneration)
}

/// Appends the line of a log that is refused.
fn push_plain_log(name: &str, fault: LogFault, out: &mut Vec<u8>) -> Result<(), AllocError>
    ensures { OnOk result (out.new.items ≡ out.old.items ++ plain_log_line name.now fault) }
{
    if is_of_generation(fault) {
        push_late(name, out)
    } else {
        push_log_line(name, fault, out)
    }
}

fn push_late(name: &str, out: &mut Vec<u8>) -> Result<(), AllocError>
    ensures { OnOk result (out.new.items ≡ out.old.items ++ late_line name.now) }
{
    out.extend_from_slice(b"log refused ")?;
    out.extend_from_slice(name.as_bytes())?;
    out.extend_from_slice(b": a log of version 3; name its node's folder, with --generation G\n")
}
