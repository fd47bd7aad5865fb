//! Files of logs and receipts, collected.

ghost use Rattle.std.specs.Prelude.{◌≡◌, length, map, string_bytes, IfOk, IfErr, IsErr};
ghost use Rattle.ep_assemble.specs.Files.{IsCollected, IsNotCollected};
ghost use Rattle.ep_assemble.specs.Lines.{plain_line};
ghost use Rattle.ep_assemble.specs.Logs.{contents};
ghost use Rattle.ep_cli.specs.Files.{IsReason};

use crate::assemble_fault::AssembleFault;
use crate::assembling::assemble;
use crate::lines::push_torn;
use crate::plain_lines::push_plain;
use ep_cli::{FilesFault, Printout};
use std::alloc::Global;

/// The bundle of what these bytes hold, which the files of these names gave: logs, each of which is a replica's, and files of
/// receipts.
pub fn collect_files(
    alloc: Global,
    logs: &[String],
    receipts: &[String],
    log_bytes: &[Vec<u8>],
    receipt_bytes: &[Vec<u8>],
) -> Result<Printout, FilesFault>
    requires logs { length log_bytes.now ≡ length logs.now }
    requires receipts { length receipt_bytes.now ≡ length receipts.now }
    ensures ok { IfOk result (λ c. IsCollected (map string_bytes logs.now) (map string_bytes receipts.now) (contents log_bytes.now) (contents receipt_bytes.now) c.text.items c.lines.items) }
    ensures err { IfErr result (IsReason (IsNotCollected (map string_bytes logs.now) (map string_bytes receipts.now) (contents log_bytes.now) (contents receipt_bytes.now))) }
{
    match assemble(alloc, log_bytes, receipt_bytes) {
        Ok(assembled) => {
            let mut lines = Vec::new(alloc);
            push_torn(logs, &assembled.ends, &mut lines)?;
            push_torn(receipts, &assembled.receipt_ends, &mut lines)?;
            Ok(Printout {
                text: assembled.bundle,
                lines,
            })
        }
        Err(AssembleFault::Memory) => Err(FilesFault::Memory),
        Err(fault) => refused(alloc, logs, receipts, fault),
    }
}

/// The fault, with its line.
fn refused(
    alloc: Global,
    logs: &[String],
    receipts: &[String],
    fault: AssembleFault,
) -> Result<Printout, FilesFault>
    ensures line { IfErr result (IsReason (λ line. line ≡ plain_line (map string_bytes logs.now) (map string_bytes receipts.now) fault)) }
    ensures never { IsErr result }
{
    let mut line = Vec::new(alloc);
    push_plain(logs, receipts, fault, &mut line)?;
    Err(FilesFault::Refused(line))
}
