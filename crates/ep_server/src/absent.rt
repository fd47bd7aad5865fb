//! Folders that lack a generation.

ghost use Rattle.std.specs.Prelude.{◌≡◌, ◌++◌, IfErr, IfOk, OnOk, max, min, option_map};
ghost use Rattle.std.specs.List.{reduce};
ghost use Rattle.ep_server.specs.Absent.{absent_line, beside_text, empty_line, numbers_of};
ghost use Rattle.ep_server.specs.NamedFiles.{IsUnopened};

use ep_base::Generation;
use ep_cli::{FilesFault, push_number, unread};
use ep_folder::{GenerationFolder, has_generations, look};
use std::alloc::{AllocError, Global};
use std::fs::File;
use std::rt::Files;

/// What the folder has of each generation; or why it isn't read.
#[tactic(auto, using(crate::proofs::Gathered::unread_folder))]
pub(crate) fn held_in<R: Files<File = File> + AllocGlobal>(
    rt: &R,
    folder: &str,
) -> Result<Vec<GenerationFolder>, FilesFault>
    ensures { IfErr result (IsUnopened folder.now) }
{
    match look(rt, folder) {
        Ok(held) => Ok(held),
        Err(why) => Err(unread(rt.alloc(), folder, why)),
    }
}

/// Passes where each of the folders has the generation; the first that lacks it is reported.
pub(crate) fn check_all<R: Files<File = File> + AllocGlobal>(
    rt: &R,
    folders: &[String],
    generation: Generation,
) -> Result<(), FilesFault> {
    for folder in folders {
        check(rt, folder, generation)?;
    }
    Ok(())
}

fn check<R: Files<File = File> + AllocGlobal>(
    rt: &R,
    folder: &str,
    generation: Generation,
) -> Result<(), FilesFault> {
    let held = held_in(rt, folder)?;
    let number = generation.number();
    if held.iter().any(|one| one.number == number) {
        return Ok(());
    }
    match ends_of(&held) {
        Some((oldest, newest)) => {
            let line = absent_line(rt.alloc(), folder, generation, oldest, newest)?;
            Err(FilesFault::Refused(line))
        }
        None => Err(empty(rt, folder)),
    }
}

/// The fault of a folder that has no generation, with its line.
pub(crate) fn empty<R: Files + AllocGlobal>(rt: &R, folder: &str) -> FilesFault {
    let has = has_generations(rt, folder).unwrap_or(false);
    match empty_line(rt.alloc(), folder, has) {
        Ok(line) => FilesFault::Refused(line),
        Err(_) => FilesFault::Memory,
    }
}

/// The least and the greatest number, if there are some.
fn ends_of(held: &[GenerationFolder]) -> Option<(u32, u32)>
    ensures oldest { option_map (λ ends. ends.0) result ≡ reduce min (numbers_of held.now) }
    ensures newest { option_map (λ ends. ends.1) result ≡ reduce max (numbers_of held.now) }
{
    let mut oldest = held.first()?.number;
    let mut newest = oldest;
    for one in held {
        oldest = oldest.min(one.number);
        newest = newest.max(one.number);
    }
    Some((oldest, newest))
}

fn absent_line(
    alloc: Global,
    folder: &str,
    generation: Generation,
    oldest: u32,
    newest: u32,
) -> Result<Vec<u8>, AllocError>
    ensures { IfOk result (λ line. line.items ≡ absent_line folder.now generation oldest newest) }
{
    let mut line = Vec::from_slice(alloc, folder.as_bytes())?;
    push_number(
        b" has no generation ",
        u64::from(generation.number()),
        &mut line,
    )?;
    push_number(b": its oldest is ", u64::from(oldest), &mut line)?;
    push_number(b", its newest ", u64::from(newest), &mut line)?;
    line.extend_from_slice(b"\n")?;
    Ok(line)
}

fn empty_line(alloc: Global, folder: &str, has: bool) -> Result<Vec<u8>, AllocError>
    ensures { IfOk result (λ line. line.items ≡ empty_line folder.now has) }
{
    let mut line = Vec::from_slice(alloc, folder.as_bytes())?;
    line.extend_from_slice(b" has no generation")?;
    push_beside(folder, has, &mut line)?;
    line.extend_from_slice(b"\n")?;
    Ok(line)
}

fn push_beside(folder: &str, has: bool, line: &mut Vec<u8>) -> Result<(), AllocError>
    ensures { OnOk result (line.new.items ≡ line.old.items ++ beside_text folder.now has) }
{
    if has {
        line.extend_from_slice(b"; look into ")?;
        line.extend_from_slice(folder.as_bytes())?;
        return line.extend_from_slice(b"/generations");
    }
    Ok(())
}
