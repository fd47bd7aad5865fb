//! Which generation is opened, and with what.

ghost use Rattle.std.specs.Prelude.{◌≡◌, ◌↔◌, cond, IfErr, IfOk, IsOk};
ghost use Rattle.ep_assemble.specs.Firsts.{first_file};
ghost use Rattle.ep_base.specs.Quorums.{size as count_of};
ghost use Rattle.ep_folder.specs.declared.wish.Wish.TheVariants as wish;
ghost use Rattle.ep_node.specs.declared.begin.Begin.TheVariants.{New};
ghost use Rattle.ep_opening.specs.Bytes.{file_digest, opening_bytes};
ghost use Rattle.ep_server.specs.Replays.{HasOpened};
ghost use Rattle.ep_server.specs.declared.folder_fault.FolderFault.TheVariants.{OtherSize};

use crate::asks::Asks;
use crate::folder_fault::FolderFault;
use crate::folder_options::FolderOptions;
use crate::generation_start::GenerationStart;
use crate::named_file::NamedFile;
use crate::replaying::{generation_of, opened};
use ep_assemble::first_file;
use ep_base::{Generation, Size};
use ep_device::DeviceFault;
use ep_folder::{
    GenerationFolder, Plan, Wish, has_log, is_referred, look, make_folder, newest_in, opening_path,
    plan_for, read_bytes, reference_path, write_whole,
};
use ep_node::Begin;
use ep_opening::{OpeningFault, SpelledFile};
use std::alloc::Global;
use std::fs::File;
use std::rt::Files;

/// What a new replica begins with.
fn first_opening(alloc: Global, size: Size) -> Result<SpelledFile, FolderFault>
    ensures { IfOk result (λ f. f ≡ first_file size) }
{
    let file = first_file(alloc, size)?;
    Ok(SpelledFile::write(alloc, file)?)
}

/// The bytes of the file that is to be taken.
fn read_taken<R: Files + AllocGlobal>(rt: &R, name: &str) -> Result<Vec<u8>, FolderFault> {
    match read_bytes(rt, name) {
        Ok(bytes) => Ok(bytes),
        Err(DeviceFault::Memory) => Err(FolderFault::Memory),
        Err(DeviceFault::Failed(cause)) => Err(FolderFault::Unread(cause)),
    }
}

/// The opening that is to be taken, by its bytes: they are one, digest and all, for a cluster of this size.
fn taken_file(alloc: Global, bytes: Vec<u8>, size: Size) -> Result<SpelledFile, FolderFault>
    ensures bytes { IfOk result (λ f. bytes.items ≡ opening_bytes f) }
    ensures size { IfOk result (λ f. f.faults ≡ size) }
{
    match SpelledFile::read(alloc, bytes) {
        Ok(file) => of_size(size, file),
        Err(OpeningFault::Memory) => Err(FolderFault::Memory),
        Err(fault) => Err(FolderFault::NoOpening(fault)),
    }
}

/// The file, where it is for a cluster of this size.
fn of_size(size: Size, file: SpelledFile) -> Result<SpelledFile, FolderFault>
    ensures same { IfOk result (λ f. f ≡ file) }
    ensures size { IfOk result (λ f. f.faults ≡ size) }
{
    let found = file.file().size();
    if found == size {
        Ok(file)
    } else {
        drop(file);
        Err(FolderFault::OtherCluster(u32::from(found.count())))
    }
}

/// The opening that the file of this name has.
fn taken<R: Files + AllocGlobal>(rt: &R, name: &str, size: Size) -> Result<SpelledFile, FolderFault>
    ensures { IfOk result (λ f. f.faults ≡ size) }
{
    let bytes = read_taken(rt, name)?;
    taken_file(rt.alloc(), bytes, size)
}

/// Whether the newest generation here opens with a file of these bytes. One that has a reference opens with what the log before it leaves.
fn is_newest<R: Files + AllocGlobal>(
    rt: &R,
    folder: &str,
    held: &[GenerationFolder],
    file: &SpelledFile,
) -> Result<bool, FolderFault> {
    let generation = file.file().generation();
    if newest_in(held) != generation.number() || is_referred(generation.number(), held) {
        return Ok(false);
    }
    let path = opening_path(rt.alloc(), folder, generation)?;
    let bytes = read_bytes(rt, path.as_str())?;
    Ok(bytes.as_slice() == file.bytes())
}

/// Writes the opening into its place, in a folder that is there.
fn write_file<R: Files<File = File> + AllocGlobal>(
    rt: &R,
    folder: &str,
    file: &SpelledFile,
) -> Result<(), FolderFault> {
    let path = opening_path(rt.alloc(), folder, file.file().generation())?;
    write_whole(rt, path.as_str(), file.bytes())?;
    Ok(())
}

/// Writes the opening into its place.
fn put_file<R: Files<File = File> + AllocGlobal>(
    rt: &R,
    folder: &str,
    file: &SpelledFile,
) -> Result<(), FolderFault> {
    make_folder(rt, folder, file.file().generation())?;
    write_file(rt, folder, file)
}

/// Whether the log of the plan's generation is begun; there must be one where it may not be.
fn begin_of<R: Files + AllocGlobal>(
    rt: &R,
    folder: &str,
    plan: Plan,
    generation: Generation,
) -> Result<Begin, FolderFault> {
    let has_log = has_log(rt, folder, generation)?;
    if plan.log.begins(has_log) {
        return Ok(Begin::New);
    }
    if has_log {
        Ok(Begin::Existing)
    } else {
        Err(FolderFault::NoLog(generation.number()))
    }
}

/// Has the opening on the disk where the log is to be begun: what was read of it may not be there, and the log must not be there without it. It is
/// written anew, unless this process has written it.
fn settle<R: Files<File = File> + AllocGlobal>(
    rt: &R,
    folder: &str,
    file: &SpelledFile,
    begin: Begin,
    is_written: bool,
) -> Result<(), FolderFault> {
    if begin == Begin::New && !is_written {
        write_file(rt, folder, file)?;
    }
    Ok(())
}

/// Writes a file anew, whole.
fn write_again<R: Files<File = File> + AllocGlobal>(rt: &R, path: &str) -> Result<(), FolderFault> {
    let bytes = read_bytes(rt, path)?;
    write_whole(rt, path, &bytes)?;
    Ok(())
}

/// Has on the disk what the log of a generation names, where that is to be begun: the reference where there is one, and else the opening.
fn settle_kept<R: Files<File = File> + AllocGlobal>(
    rt: &R,
    folder: &str,
    held: &[GenerationFolder],
    generation: Generation,
    begin: Begin,
) -> Result<(), FolderFault> {
    if begin != Begin::New {
        return Ok(());
    }
    let path = if is_referred(generation.number(), held) {
        reference_path(rt.alloc(), folder, generation)?
    } else {
        opening_path(rt.alloc(), folder, generation)?
    };
    write_again(rt, path.as_str())
}

/// The generation of a plan, which is here.
fn kept_stage<R: Files<File = File> + AllocGlobal>(
    rt: &R,
    folder: &str,
    plan: Plan,
    held: Vec<GenerationFolder>,
) -> Result<GenerationStart, FolderFault>
    ensures { IfOk result (λ s. HasOpened s.named) }
{
    let generation = generation_of(plan.generation)?;
    let begin = begin_of(rt, folder, plan, generation)?;
    let named = opened(rt, folder, &held, generation)?;
    match settle_kept(rt, folder, &held, generation, begin) {
        Ok(()) => Ok(GenerationStart { named, begin, held }),
        Err(fault) => {
            drop(named);
            Err(fault)
        }
    }
}

/// The generation that the replica goes on with, of those that are here.
fn next_stage<R: Files<File = File> + AllocGlobal>(
    rt: &R,
    folder: &str,
) -> Result<GenerationStart, FolderFault>
    ensures { IfOk result (λ s. HasOpened s.named) }
{
    let held = look(rt, folder)?;
    let plan = plan_for(&held, Wish::GoOn)?;
    kept_stage(rt, folder, plan, held)
}

/// Has the opening that is handed over in its place, and says whether its log is begun.
fn placed<R: Files<File = File> + AllocGlobal>(
    rt: &R,
    folder: &str,
    plan: Plan,
    file: &SpelledFile,
) -> Result<Begin, FolderFault> {
    if plan.writes {
        put_file(rt, folder, file)?;
    }
    let begin = begin_of(rt, folder, plan, file.file().generation())?;
    settle(rt, folder, file, begin, plan.writes)?;
    Ok(begin)
}

/// What is asked for with an opening that is handed over.
fn wish_of(file: &SpelledFile, is_new: bool, is_same: bool) -> Wish
    ensures { result ≡ cond is_new (wish.New is_same) (wish.Take file.now.generation is_same) }
{
    if is_new {
        Wish::New { is_same }
    } else {
        Wish::Take {
            generation: file.file().generation().number(),
            is_same,
        }
    }
}

/// How a replica that is new or not starts with an opening that is handed over.
fn plan_with<R: Files + AllocGlobal>(
    rt: &R,
    folder: &str,
    held: &[GenerationFolder],
    file: &SpelledFile,
    is_new: bool,
) -> Result<Plan, FolderFault> {
    let is_same = is_newest(rt, folder, held, file)?;
    Ok(plan_for(held, wish_of(file, is_new, is_same))?)
}

/// The generation of an opening that is handed over, to a replica that is new or not: from a peer, or by this process, which has closed the
/// generation before. Its file isn't read again.
pub(crate) fn handed_stage<R: Files<File = File> + AllocGlobal>(
    rt: &R,
    folder: &str,
    file: SpelledFile,
    is_new: bool,
) -> Result<GenerationStart, FolderFault>
    ensures file { IfOk result (λ s. s.named.file ≡ file) }
    ensures digest { IfOk result (λ s. s.named.digest ≡ file_digest file) }
    ensures opened { IfOk result (λ s. HasOpened s.named) }
{
    let held = look(rt, folder)?;
    let plan = plan_with(rt, folder, &held, &file, is_new)?;
    let begin = placed(rt, folder, plan, &file)?;
    Ok(GenerationStart {
        named: NamedFile::of(file),
        begin,
        held,
    })
}

/// The generation that a start begins with.
pub(crate) fn first_stage<R: Files<File = File> + AllocGlobal>(
    rt: &R,
    options: &FolderOptions<'_>,
) -> Result<GenerationStart, FolderFault>
    ensures { IfOk result (λ s. HasOpened s.named) }
{
    let folder = options.folder;
    match &options.asks {
        Asks::GoOn => next_stage(rt, folder),
        Asks::New => {
            let file = first_opening(rt.alloc(), options.size)?;
            handed_stage(rt, folder, file, true)
        }
        Asks::Take(name) => {
            let file = taken(rt, name, options.size)?;
            handed_stage(rt, folder, file, false)
        }
    }
}

/// Whether the opening is for a cluster of this size, where its log is begun: it can't be closed then.
pub(crate) fn check_stage(size: Size, stage: &GenerationStart) -> Result<(), FolderFault>
    ensures ok { IsOk result ↔ (stage.now.begin ≡ New → stage.now.named.file.faults ≡ size) }
    ensures err { let file = stage.now.named.file in
        IfErr result (λ fault. fault ≡ OtherSize file.generation (count_of file.faults)) }
{
    let file = &stage.named.file;
    let found = file.size();
    if stage.begin == Begin::New && found != size {
        return Err(FolderFault::OtherSize(file.generation().number(), u32::from(found.count())));
    }
    Ok(())
}
