//! The folders of a generation, and receipts, collected.

ghost use Rattle.std.specs.Prelude.{◌≡◌, ◌⊎◌, codes, length, map, string_bytes, All, IfOk, IfErr};
ghost use Rattle.ep_assemble.specs.GenerationFiles.{IsLacking};
ghost use Rattle.ep_cli.specs.Files.{IsUnread};
ghost use Rattle.ep_cli.specs.Outputs.{became};
ghost use Rattle.ep_server.specs.NamedFiles.{paths_in, AreUnopened, CollectsGeneration, IsNamedLog};

use crate::absent::check_all;
use crate::generation_asked::GenerationAsked;
use crate::generation_gathered::GenerationGathered;
use crate::opened_logs::read_folders;
use ep_assemble::{GenerationNames, collect_generation};
use ep_base::{Generation, Sink};
use ep_cli::{
    FilesFault, Status, Streams, WordsFault, decline, put_printout, read_files, turned_away,
};
use ep_folder::file_path;
use std::alloc::{AllocError, Global};
use std::fs::File;
use std::rt::Files;

/// Reads the files of a generation in these folders, and writes the bundle of what they hold. What a generation opens with that has a reference is what logs leave.
pub(crate) fn collect_folders<R: Files<File = File> + AllocGlobal, S, W: Sink, F: Sink>(
    rt: &R,
    asked: GenerationAsked,
    streams: &mut Streams<S, W, F>,
) -> Status {
    let generation = asked.generation;
    if let Err(fault) = check_all(rt, &asked.folders, generation) {
        return turned_away(fault, &mut streams.fault_writer);
    }
    let GenerationAsked {
        generation: _,
        folders,
        receipts,
    } = asked;
    match names_in(rt.alloc(), generation, &folders, receipts) {
        Ok(names) => collect_of(rt, generation, &folders, &names, streams),
        Err(fault) => decline(WordsFault::from(fault), &mut streams.fault_writer),
    }
}

/// The names of the files that are asked for.
fn names_in(
    alloc: Global,
    generation: Generation,
    folders: &[String],
    receipts: Vec<String>,
) -> Result<GenerationNames, AllocError>
    ensures openings { IfOk result (λ n. map string_bytes n.openings.items ≡ paths_in generation (codes "opening") (map string_bytes folders.now)) }
    ensures logs { IfOk result (λ n. map string_bytes n.logs.items ≡ paths_in generation (codes "log") (map string_bytes folders.now)) }
    ensures receipts { IfOk result (λ n. n.receipts ≡ receipts) }
    ensures count { IfOk result (λ n. length n.logs.items ≡ length n.openings.items) }
    ensures folders { IfOk result (λ n. length folders.now ≡ length n.openings.items) }
{
    let openings = paths_of(alloc, generation, folders, "opening")?;
    let logs = paths_of(alloc, generation, folders, "log")?;
    Ok(GenerationNames {
        openings,
        logs,
        receipts,
    })
}

/// The name of the file that each folder has under this name, of the generation.
fn paths_of(
    alloc: Global,
    generation: Generation,
    folders: &[String],
    name: &str,
) -> Result<Vec<String>, AllocError>
    ensures paths { IfOk result (λ paths. map string_bytes paths.items ≡ paths_in generation name.now (map string_bytes folders.now)) }
    ensures count { IfOk result (λ paths. length paths.items ≡ length folders.now) }
{
    let mut paths = Vec::new(alloc);
    for folder in folders {
        let path = file_path(alloc, folder, generation, name)?;
        paths.push(path)?;
    }
    Ok(paths)
}

/// Reads what the folders have, by the names of their files, and writes the bundle of the generation of what they hold, in one go. Each torn end has a line on the fault output, or what
/// stops it has one; where reporting fails, the status stays.
pub fn collect_of<R: Files<File = File> + AllocGlobal, S, W: Sink, F: Sink>(
    rt: &R,
    generation: Generation,
    folders: &[String],
    names: &GenerationNames,
    streams: &mut Streams<S, W, F>,
) -> Status
    requires logs { length names.now.logs.items ≡ length names.now.openings.items }
    requires folders { length folders.now ≡ length names.now.openings.items }
    ensures { CollectsGeneration generation (map string_bytes folders.now) (map string_bytes names.now.openings.items) (map string_bytes names.now.logs.items) (map string_bytes names.now.receipts.items) result
        (became W.held W.has_failed streams.old.writer streams.new.writer) (became F.held F.has_failed streams.old.fault_writer streams.new.fault_writer) }
{
    match gather_generation(rt, generation, folders, names) {
        Ok(gathered) => {
            let collected = collect_generation(
                rt.alloc(),
                generation,
                names,
                &gathered.kept,
                &gathered.receipts,
            );
            put_printout(collected, streams)
        }
        Err(fault) => turned_away(fault, &mut streams.fault_writer),
    }
}

/// What the folders have of the generation, and the bytes of receipts.
#[tactic(auto, using(crate::proofs::Gathered::gathered, crate::proofs::Gathered::no_receipts))]
fn gather_generation<R: Files<File = File> + AllocGlobal>(
    rt: &R,
    generation: Generation,
    folders: &[String],
    names: &GenerationNames,
) -> Result<GenerationGathered, FilesFault>
    requires logs { length names.now.logs.items ≡ length names.now.openings.items }
    requires folders { length folders.now ≡ length names.now.openings.items }
    ensures kept { IfOk result (λ g. length g.kept.items ≡ length names.now.logs.items) }
    ensures receipts { IfOk result (λ g. length g.receipts.items ≡ length names.now.receipts.items) }
    ensures named { IfOk result (λ g. All IsNamedLog g.kept.items) }
    ensures err { IfErr result (λ e. IsLacking (map string_bytes names.now.openings.items) e ⊎ IsLacking (map string_bytes names.now.logs.items) e ⊎ AreUnopened (map string_bytes folders.now) e ⊎ IsUnread (map string_bytes names.now.receipts.items) e) }
{
    let kept = read_folders(rt, generation, folders, &names.openings, &names.logs)?;
    let receipts = read_files(rt, &names.receipts)?;
    Ok(GenerationGathered { kept, receipts })
}
