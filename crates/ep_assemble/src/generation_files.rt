//! The files of a generation, collected.

ghost use Rattle.std.specs.Prelude.{◌≡◌, ◌⊎◌, length, map, string_bytes, IfOk, IfErr, IsErr};
ghost use Rattle.ep_assemble.specs.GenerationFiles.{IsCollectedOf, IsNotCollectedOf, IsOfLacking};
ghost use Rattle.ep_assemble.specs.GenerationLines.{generation_line};
ghost use Rattle.ep_assemble.specs.Generations.{NamesItsFile};
ghost use Rattle.ep_assemble.specs.Logs.{contents};
ghost use Rattle.ep_cli.specs.Files.{IsReason};
ghost use Rattle.ep_cli.specs.declared.files_fault.FilesFault.TheVariants.{Memory};

use crate::assemble_fault::AssembleFault;
use crate::firsts::first_opening;
use crate::generation::assemble_generation;
use crate::generation_fault::GenerationFault;
use crate::generation_lines::{push_generation_refusal, push_missing};
use crate::generation_names::GenerationNames;
use crate::lines::push_torn;
use crate::opened_log::OpenedLog;
use ep_base::Generation;
use ep_cli::{FilesFault, Printout, unread};
use ep_device::fault_of;
use std::alloc::Global;
use std::io::ErrorKind;
use std::rt::Files;
use std::{fs, io};

/// The bytes of the files of these names, of which none is missing: of the opening file of a generation, and of the log beside it, which names it by its own
/// digest. Where the opening file is missing, and it is generation 1, its bytes are what each of that generation is.
pub fn read_opened_log<R: Files + AllocGlobal>(
    rt: &R,
    generation: Generation,
    opening: &str,
    log: &str,
) -> Result<OpenedLog, FilesFault>
    ensures ok { IfOk result NamesItsFile }
    ensures err { IfErr result (λ e. IsOfLacking opening.now e ⊎ IsOfLacking log.now e) }
{
    let opening = read_opening_file(rt, generation, opening)?;
    let log = read_present(rt, log)?;
    opened_log(rt.alloc(), opening, log)
}

/// Both, or the log with what generation 1 opens with.
fn opened_log(
    alloc: Global,
    opening: Option<Vec<u8>>,
    log: Vec<u8>,
) -> Result<OpenedLog, FilesFault>
    ensures ok { IfOk result NamesItsFile }
    ensures err { IfErr result (λ e. e ≡ Memory) }
{
    match opening {
        Some(opening) => Ok(OpenedLog::of(opening, log)),
        None => match first_opening(alloc, &log) {
            Ok(opening) => Ok(OpenedLog::of(opening, log)),
            Err(_) => Err(FilesFault::Memory),
        },
    }
}

/// The bytes of an opening file. None where there is no such file, and it is of generation 1.
fn read_opening_file<R: Files + AllocGlobal>(
    rt: &R,
    generation: Generation,
    name: &str,
) -> Result<Option<Vec<u8>>, FilesFault>
    ensures { IfErr result (IsOfLacking name.now) }
{
    match fs::read(rt, name) {
        Ok(bytes) => Ok(Some(bytes)),
        Err(error) => {
            if generation == Generation::first() && error.kind() == ErrorKind::NotFound {
                return Ok(None);
            }
            Err(lacking(rt.alloc(), name, &error))
        }
    }
}

/// The bytes of a file, where it isn't missing.
pub fn read_present<R: Files + AllocGlobal>(rt: &R, name: &str) -> Result<Vec<u8>, FilesFault>
    ensures { IfErr result (IsOfLacking name.now) }
{
    match fs::read(rt, name) {
        Ok(bytes) => Ok(bytes),
        Err(error) => Err(lacking(rt.alloc(), name, &error)),
    }
}

/// The fault of a file that is missing or can't be read, with its line.
fn lacking(alloc: Global, name: &str, error: &io::Error) -> FilesFault
    ensures { IsOfLacking name.now result }
{
    if error.kind() == ErrorKind::NotFound {
        return missing(alloc, name);
    }
    unread(alloc, name, fault_of(error))
}

/// The fault of a file that is missing, with its line.
fn missing(alloc: Global, name: &str) -> FilesFault
    ensures { IsOfLacking name.now result }
{
    let mut line = Vec::new(alloc);
    match push_missing(name, &mut line) {
        Ok(()) => FilesFault::Refused(line),
        Err(_) => FilesFault::Memory,
    }
}

/// The bundle of a generation, of what these bytes hold, which the files of these names gave: opening files and logs, each of which is a
/// replica's, and files of receipts.
pub fn collect_generation(
    alloc: Global,
    generation: Generation,
    names: &GenerationNames,
    kept: &[OpenedLog],
    receipts: &[Vec<u8>],
) -> Result<Printout, FilesFault>
    requires kept { length kept.now ≡ length names.now.logs.items }
    requires receipts { length receipts.now ≡ length names.now.receipts.items }
    ensures ok { IfOk result (λ c. IsCollectedOf generation (map string_bytes names.now.logs.items) (map string_bytes names.now.receipts.items) kept.now (contents receipts.now) c.text.items c.lines.items) }
    ensures err { IfErr result (IsReason (IsNotCollectedOf generation (map string_bytes names.now.openings.items) (map string_bytes names.now.logs.items) (map string_bytes names.now.receipts.items) kept.now (contents receipts.now))) }
{
    match assemble_generation(alloc, generation, kept, receipts) {
        Ok(assembled) => {
            let mut lines = Vec::new(alloc);
            push_torn(&names.logs, &assembled.ends, &mut lines)?;
            push_torn(&names.receipts, &assembled.receipt_ends, &mut lines)?;
            Ok(Printout {
                text: assembled.bundle,
                lines,
            })
        }
        Err(GenerationFault::Assemble(AssembleFault::Memory)) => Err(FilesFault::Memory),
        Err(fault) => refused(alloc, names, fault),
    }
}

/// The fault, with its line.
fn refused(
    alloc: Global,
    names: &GenerationNames,
    fault: GenerationFault,
) -> Result<Printout, FilesFault>
    ensures line { IfErr result (IsReason (λ line. line ≡ generation_line (map string_bytes names.now.openings.items) (map string_bytes names.now.logs.items) (map string_bytes names.now.receipts.items) fault)) }
    ensures never { IsErr result }
{
    let mut line = Vec::new(alloc);
    push_generation_refusal(names, fault, &mut line)?;
    Err(FilesFault::Refused(line))
}
