//! The map of the newest generation in a folder, shown.

ghost use Rattle.std.specs.Prelude.{◌≡◌, ◌⊎◌, string_bytes, IfErr, IfOk};
ghost use Rattle.ep_cli.specs.Files.{IsOfFile};
ghost use Rattle.ep_cli.specs.Outputs.{became};
ghost use Rattle.ep_assemble.specs.Generations.{NamesItsFile};
ghost use Rattle.ep_server.specs.NamedFiles.{IsNamedLog, IsUnopened, ShowsFiles};

use crate::absent::{empty, held_in};
use crate::opened_logs::read_opened;
use ep_assemble::{OpenedLog, OpenedNames, show_files};
use ep_base::{Generation, Sink};
use ep_cli::{FilesFault, Status, Streams, put_printout, read_file, turned_away};
use ep_folder::{GenerationFolder, is_referred, log_path, newest_in, opening_path};
use std::alloc::{AllocError, Global};
use std::fs;
use std::fs::File;
use std::io::ErrorKind;
use std::rt::Files;

/// Shows the map of the newest generation in the folder.
pub(crate) fn show_contents<R: Files<File = File> + AllocGlobal, S, W: Sink, F: Sink>(
    rt: &R,
    folder: &str,
    streams: &mut Streams<S, W, F>,
) -> Status {
    match newest_of(rt, folder) {
        Ok((generation, names)) => show_named(rt, folder, generation, &names, streams),
        Err(fault) => turned_away(fault, &mut streams.fault_writer),
    }
}

/// The newest generation in the folder, and its files; or why there is none.
fn newest_of<R: Files<File = File> + AllocGlobal>(
    rt: &R,
    folder: &str,
) -> Result<(Generation, OpenedNames), FilesFault> {
    let held = held_in(rt, folder)?;
    match Generation::new(newest_in(&held)) {
        Ok(generation) => Ok((generation, names_of(rt.alloc(), folder, generation)?)),
        Err(_) => Err(empty(rt, folder)),
    }
}

/// The names of its two files of the generation.
fn names_of(
    alloc: Global,
    folder: &str,
    generation: Generation,
) -> Result<OpenedNames, AllocError> {
    let opening = opening_path(alloc, folder, generation)?;
    let log = log_path(alloc, folder, generation)?;
    Ok(OpenedNames { opening, log })
}

/// Reads the files, and shows the map of the generation of what they hold, in one go. A torn end has a line on the fault output, or what stops it
/// has one; where reporting fails, the status stays.
pub fn show_named<R: Files<File = File> + AllocGlobal, S, W: Sink, F: Sink>(
    rt: &R,
    folder: &str,
    generation: Generation,
    names: &OpenedNames,
    streams: &mut Streams<S, W, F>,
) -> Status
    ensures { ShowsFiles generation folder.now (string_bytes names.now.opening) (string_bytes names.now.log) result
        (became W.held W.has_failed streams.old.writer streams.new.writer) (became F.held F.has_failed streams.old.fault_writer streams.new.fault_writer) }
{
    match gather_shown(rt, folder, generation, names) {
        Ok(kept) => {
            let shown = show_files(rt.alloc(), generation, names, &kept);
            put_printout(shown, streams)
        }
        Err(fault) => turned_away(fault, &mut streams.fault_writer),
    }
}

/// What the folder has of the generation, by the names of its files. A log that isn't begun has no byte.
#[tactic(auto, using(crate::proofs::Gathered::shown_of_files, crate::proofs::Gathered::shown_of_log, crate::proofs::Gathered::named_file))]
fn gather_shown<R: Files<File = File> + AllocGlobal>(
    rt: &R,
    folder: &str,
    generation: Generation,
    names: &OpenedNames,
) -> Result<OpenedLog, FilesFault>
    ensures named { IfOk result IsNamedLog }
    ensures err { IfErr result (λ e. IsOfFile (string_bytes names.now.opening) e ⊎ IsOfFile (string_bytes names.now.log) e ⊎ IsUnopened folder.now e) }
{
    match held_in(rt, folder) {
        Ok(held) => {
            if is_referred(generation.number(), &held) {
                gather_referred(rt, folder, &held, generation, names.log.as_str())
            } else {
                gather_files(rt, names)
            }
        }
        Err(why) => Err(why),
    }
}

/// What the folder has of the generation, which has a reference, by the name of its log.
#[tactic(auto, using(crate::proofs::Gathered::from_log_file, crate::proofs::Gathered::from_folder_file))]
fn gather_referred<R: Files + AllocGlobal>(
    rt: &R,
    folder: &str,
    held: &[GenerationFolder],
    generation: Generation,
    log: &str,
) -> Result<OpenedLog, FilesFault>
    ensures named { IfOk result IsNamedLog }
    ensures err { IfErr result (λ e. IsOfFile log.now e ⊎ IsUnopened folder.now e) }
{
    match read_log_file(rt, log) {
        Ok(bytes) => read_opened(rt, folder, held, generation, bytes),
        Err(why) => Err(why),
    }
}

/// The bytes of the files with these names.
fn gather_files<R: Files + AllocGlobal>(
    rt: &R,
    names: &OpenedNames,
) -> Result<OpenedLog, FilesFault>
    ensures named { IfOk result NamesItsFile }
    ensures err { IfErr result (λ e. IsOfFile (string_bytes names.now.opening) e ⊎ IsOfFile (string_bytes names.now.log) e) }
{
    let opening = read_file(rt, names.opening.as_str())?;
    let log = read_log_file(rt, names.log.as_str())?;
    Ok(OpenedLog::of(opening, log))
}

/// The bytes of a log, none where there is no such file.
fn read_log_file<R: Files + AllocGlobal>(rt: &R, name: &str) -> Result<Vec<u8>, FilesFault>
    ensures { IfErr result (IsOfFile name.now) }
{
    if is_missing(rt, name) {
        return Ok(Vec::new(rt.alloc()));
    }
    read_file(rt, name)
}

/// Whether there is no such file.
fn is_missing<R: Files>(rt: &R, name: &str) -> bool {
    match fs::metadata(rt, name) {
        Ok(_) => false,
        Err(error) => error.kind() == ErrorKind::NotFound,
    }
}
