//! What folders have of a generation, in bytes.

ghost use Rattle.std.specs.Prelude.{◌≡◌, ◌⊎◌, ◌++◌, ◌∷◌, [], length, map, string_bytes, All, IfOk, IfErr, OnOk};
ghost use Rattle.ep_assemble.specs.GenerationFiles.{IsLacking, IsOfLacking};
ghost use Rattle.ep_server.specs.NamedFiles.{AreUnopened, IsNamedLog, IsUnopened};
ghost use Rattle.ep_server.specs.Replays.{HasOpened};

use crate::absent::held_in;
use crate::folder_fault::FolderFault;
use crate::named_file::NamedFile;
use crate::replaying::opened;
use crate::unopened::unopened;
use ep_assemble::{OpenedLog, read_opened_log, read_present};
use ep_base::Generation;
use ep_cli::FilesFault;
use ep_folder::{GenerationFolder, is_referred};
use ep_opening::write_opening;
use std::alloc::{AllocError, Global};
use std::fs::File;
use std::rt::Files;

/// What each of the folders has of the generation, by the names of its files, where none is missing.
pub(crate) fn read_folders<R: Files<File = File> + AllocGlobal>(
    rt: &R,
    generation: Generation,
    folders: &[String],
    openings: &[String],
    logs: &[String],
) -> Result<Vec<OpenedLog>, FilesFault>
    requires openings { length openings.now ≡ length folders.now }
    requires logs { length logs.now ≡ length folders.now }
    ensures count { IfOk result (λ kept. length kept.items ≡ length folders.now) }
    ensures named { IfOk result (λ kept. All IsNamedLog kept.items) }
    ensures err { IfErr result (λ e. IsLacking (map string_bytes openings.now) e ⊎ IsLacking (map string_bytes logs.now) e ⊎ AreUnopened (map string_bytes folders.now) e) }
{
    let mut kept = Vec::new(rt.alloc());
    for (place, folder) in folders.iter().enumerate() {
        let one = read_folder(rt, generation, folder, &openings[place], &logs[place])?;
        keep(&mut kept, one)?;
    }
    Ok(kept)
}

fn keep(kept: &mut Vec<OpenedLog>, one: OpenedLog) -> Result<(), AllocError>
    ensures { OnOk result (kept.new.items ≡ kept.old.items ++ one ∷ []) }
{
    kept.push(one)?;
    Ok(())
}

/// What a folder has of the generation, by the names of its opening file and of its log.
#[tactic(auto, using(crate::proofs::Gathered::of_folder, crate::proofs::Gathered::of_log, crate::proofs::Gathered::of_files, crate::proofs::Gathered::named_file))]
fn read_folder<R: Files<File = File> + AllocGlobal>(
    rt: &R,
    generation: Generation,
    folder: &str,
    opening: &str,
    log: &str,
) -> Result<OpenedLog, FilesFault>
    ensures named { IfOk result IsNamedLog }
    ensures err { IfErr result (λ e. IsOfLacking opening.now e ⊎ IsOfLacking log.now e ⊎ IsUnopened folder.now e) }
{
    match held_in(rt, folder) {
        Ok(held) => {
            if is_referred(generation.number(), &held) {
                read_referred(rt, folder, &held, generation, log)
            } else {
                read_opened_log(rt, generation, opening, log)
            }
        }
        Err(why) => Err(why),
    }
}

/// What a folder has of the generation, which has a reference, by the name of its log.
#[tactic(auto, using(crate::proofs::Gathered::from_log, crate::proofs::Gathered::from_folder))]
fn read_referred<R: Files + AllocGlobal>(
    rt: &R,
    folder: &str,
    held: &[GenerationFolder],
    generation: Generation,
    log: &str,
) -> Result<OpenedLog, FilesFault>
    ensures named { IfOk result IsNamedLog }
    ensures err { IfErr result (λ e. IsOfLacking log.now e ⊎ IsUnopened folder.now e) }
{
    match read_present(rt, log) {
        Ok(bytes) => read_opened(rt, folder, held, generation, bytes),
        Err(why) => Err(why),
    }
}

/// The log of a generation that has a reference here, and the bytes of what it opens with.
pub(crate) fn read_opened<R: Files + AllocGlobal>(
    rt: &R,
    folder: &str,
    held: &[GenerationFolder],
    generation: Generation,
    log: Vec<u8>,
) -> Result<OpenedLog, FilesFault>
    ensures named { IfOk result IsNamedLog }
    ensures err { IfErr result (IsUnopened folder.now) }
{
    match opened(rt, folder, held, generation) {
        Ok(named) => spelled(rt.alloc(), folder, &named, log),
        Err(why) => Err(unopened(rt.alloc(), folder, why)),
    }
}

/// The log, and the bytes of what its generation opens with.
fn spelled(
    alloc: Global,
    folder: &str,
    named: &NamedFile,
    log: Vec<u8>,
) -> Result<OpenedLog, FilesFault>
    requires { HasOpened named.now }
    ensures named { IfOk result IsNamedLog }
    ensures err { IfErr result (IsUnopened folder.now) }
{
    let digest = named.digest;
    match write_opening(alloc, &named.file) {
        Ok(opening) => Ok(OpenedLog {
            opening,
            digest,
            log,
        }),
        // (out of memory, which has no name)
        Err(_) => Err(unopened(alloc, folder, FolderFault::Memory)),
    }
}
