//! The map of two files, shown.

ghost use Rattle.std.specs.Prelude.{◌≡◌, ◌++◌, string_bytes, IfOk, IfErr, IsErr, OnOk};
ghost use Rattle.ep_cli.specs.Files.{IsReason};
ghost use Rattle.ep_assemble.specs.ShownFiles.{fault_line, AreNotShown, AreShown};

use crate::generation_lines::{push_named, push_opening_line};
use crate::lines::{push_end, push_log_line};
use crate::opened_log::OpenedLog;
use crate::opened_names::OpenedNames;
use crate::show_fault::ShowFault;
use crate::showing::show_map;
use ep_base::Generation;
use ep_cli::{FilesFault, Printout};
use std::alloc::{AllocError, Global};

/// The map of a replica in a generation, of what these bytes hold, which an opening file and a log of these names gave.
pub fn show_files(
    alloc: Global,
    generation: Generation,
    names: &OpenedNames,
    kept: &OpenedLog,
) -> Result<Printout, FilesFault>
    ensures ok { IfOk result (λ s. AreShown generation (string_bytes names.now.log) kept.now.opening.items kept.now.digest kept.now.log.items s.text.items s.lines.items) }
    ensures err { IfErr result (IsReason (AreNotShown generation (string_bytes names.now.opening) (string_bytes names.now.log) kept.now.opening.items kept.now.digest kept.now.log.items)) }
{
    match show_map(alloc, generation, kept) {
        Ok(shown) => {
            let mut lines = Vec::new(alloc);
            push_end(names.log.as_str(), &shown.end, &mut lines)?;
            Ok(Printout {
                text: shown.text,
                lines,
            })
        }
        Err(ShowFault::Memory) => Err(FilesFault::Memory),
        Err(fault) => refused(alloc, names, fault),
    }
}

/// The fault, with its line.
fn refused(alloc: Global, names: &OpenedNames, fault: ShowFault) -> Result<Printout, FilesFault>
    ensures line { IfErr result (IsReason (λ line. line ≡ fault_line (string_bytes names.now.opening) (string_bytes names.now.log) fault)) }
    ensures never { IsErr result }
{
    let mut line = Vec::new(alloc);
    push_fault(names, fault, &mut line)?;
    Err(FilesFault::Refused(line))
}

/// Appends the line of a fault.
fn push_fault(names: &OpenedNames, fault: ShowFault, out: &mut Vec<u8>) -> Result<(), AllocError>
    ensures { OnOk result (out.new.items ≡ out.old.items ++ fault_line (string_bytes names.now.opening) (string_bytes names.now.log) fault) }
{
    match fault {
        ShowFault::Memory => out.extend_from_slice(b"out of memory\n"),
        ShowFault::Opening(fault) => push_opening_line(names.opening.as_str(), fault, out),
        ShowFault::OtherGeneration => push_named(
            names.opening.as_str(),
            b" is of another generation\n",
            out,
        ),
        ShowFault::Log(fault) => push_log_line(names.log.as_str(), fault, out),
    }
}
