//! The map of a log, shown.

ghost use Rattle.std.specs.Prelude.{◌≡◌, ◌↔◌, true, ltb, length, IfOk, IfErr};
ghost use Rattle.ep_journal.specs.Leaving.{standing};
ghost use Rattle.ep_opening.specs.Bytes.{opening_bytes};
ghost use Rattle.ep_assemble.specs.Shown.{IsNotLogged, IsNotOpened, IsNotShown, IsShown, IsTextOf, map_text, no_end, of_log, of_opening, origin_of};
ghost use Rattle.ep_assemble.specs.declared.show_fault.ShowFault.TheVariants.{Memory};

use crate::assembled::End;
use crate::map_lines::text_of;
use crate::opened_log::OpenedLog;
use crate::show_fault::ShowFault;
use crate::shown::Shown;
use ep_base::Generation;
use ep_journal::{Journal, Opening};
use ep_log::{LogFault, Origin, ReadLog, read_log};
use ep_opening::{OpeningFault, OpeningFile, read_opening};
use std::alloc::{AllocError, Global};

/// The map of a replica in a generation, of what its folder has: of the bytes of its opening file and of the log beside it, as far as its records are whole; of a log
/// without a byte, which isn't begun yet, the map of the file.
#[tactic(auto, using(crate::proofs::MapsOfLogs::not_logged, crate::proofs::MapsOfLogs::not_opened))]
pub fn show_map(alloc: Global, generation: Generation, kept: &OpenedLog) -> Result<Shown, ShowFault>
    ensures ok { IfOk result (λ s. IsShown generation kept.now.opening.items kept.now.digest kept.now.log.items s.text.items s.end) }
    ensures err { IfErr result (IsNotShown generation kept.now.opening.items kept.now.digest kept.now.log.items) }
{
    match read_file(alloc, generation, &kept.opening) {
        Ok(file) => match show_log(alloc, &file, kept.digest, &kept.log) {
            Ok(shown) => Ok(shown),
            Err(fault) => Err(fault),
        },
        Err(fault) => Err(fault),
    }
}

/// Reads the opening file of a generation.
fn read_file(
    alloc: Global,
    generation: Generation,
    opening: &[u8],
) -> Result<OpeningFile, ShowFault>
    ensures ok { IfOk result (λ file. (opening.now ≡ opening_bytes file) × (file.generation ≡ generation)) }
    ensures err { IfErr result (IsNotOpened generation opening.now) }
{
    match read_opening(alloc, opening) {
        Ok(file) => checked(generation, opening, file),
        Err(fault) => Err(opening_fault(fault)),
    }
}

/// The file with these bytes, where it is of the generation.
fn checked(
    generation: Generation,
    opening: &[u8],
    file: OpeningFile,
) -> Result<OpeningFile, ShowFault>
    requires { opening.now ≡ opening_bytes file }
    ensures ok { IfOk result (λ f. (opening.now ≡ opening_bytes f) × (f.generation ≡ generation)) }
    ensures err { IfErr result (IsNotOpened generation opening.now) }
{
    if is_of(generation, &file) {
        Ok(file)
    } else {
        Err(ShowFault::OtherGeneration)
    }
}

/// Whether the file is of the generation.
fn is_of(generation: Generation, file: &OpeningFile) -> bool
    ensures { (result ≡ true) ↔ (file.now.generation ≡ generation) }
{
    file.generation() == generation
}

fn opening_fault(fault: OpeningFault) -> ShowFault
    ensures { result ≡ of_opening fault }
{
    match fault {
        OpeningFault::Memory => ShowFault::Memory,
        _ => ShowFault::Opening(fault),
    }
}

/// The map of the log beside this file, which it names by this digest.
#[tactic(auto, using(crate::proofs::MapsOfLogs::empty_shown, crate::proofs::MapsOfLogs::memory_alone))]
fn show_log(
    alloc: Global,
    file: &OpeningFile,
    digest: [u8; 32],
    log: &[u8],
) -> Result<Shown, ShowFault>
    ensures ok { IfOk result (λ s. IsTextOf file.now digest log.now s.text.items s.end) }
    ensures err { IfErr result (IsNotLogged file.now digest log.now) }
{
    let Some(first) = log.first() else {
        return show_file(alloc, file);
    };
    let _ = first;
    let origin = origin_with(alloc, file, digest)?;
    match read_log(alloc, log, &origin) {
        Ok(read) => show_read(alloc, file.generation(), &read),
        Err(fault) => Err(log_fault(fault)),
    }
}

fn log_fault(fault: LogFault) -> ShowFault
    ensures { result ≡ of_log fault }
{
    match fault {
        LogFault::Memory => ShowFault::Memory,
        _ => ShowFault::Log(fault),
    }
}

/// What the replica with this file, which its log names by this digest, began with.
fn origin_with(alloc: Global, file: &OpeningFile, digest: [u8; 32]) -> Result<Origin, AllocError>
    ensures { IfOk result (λ o. o ≡ origin_of file.now digest) }
{
    let opening = file.opening().copy(alloc)?;
    Origin::of(alloc, file.generation(), opening, digest)
}

/// The map of the file.
fn show_file(alloc: Global, file: &OpeningFile) -> Result<Shown, ShowFault>
    ensures ok { IfOk result (λ s. (s.text.items ≡ map_text file.now.generation 0 file.now.opening.contents) × (s.end ≡ no_end)) }
    ensures err { IfErr result (λ e. e ≡ Memory) }
{
    let text = text_of(alloc, file.generation(), 0, file.opening().contents())?;
    Ok(Shown {
        text,
        end: End {
            whole: 0,
            is_torn: false,
        },
    })
}

/// The map that the log leaves.
fn show_read(alloc: Global, generation: Generation, read: &ReadLog) -> Result<Shown, ShowFault>
    ensures text { IfOk result (λ s. s.text.items ≡ map_text generation (length read.now.journal.entries) (standing read.now.journal).state.store.contents) }
    ensures end { IfOk result (λ s. s.end ≡ record { whole = read.now.whole; is_torn = ltb 0 read.now.behind }) }
    ensures err { IfErr result (λ e. e ≡ Memory) }
{
    let map = map_of(&read.journal)?;
    let text = text_of(
        alloc,
        generation,
        read.journal.entries().len(),
        map.contents(),
    )?;
    Ok(Shown {
        text,
        end: End {
            whole: read.whole,
            is_torn: read.behind > 0,
        },
    })
}

/// The map that the journal leaves, as an opening, which says that its keys can be counted; so many that they can't take more memory than there is.
fn map_of(journal: &Journal) -> Result<Opening, AllocError>
    ensures { IfOk result (λ o. o.contents ≡ (standing journal.now).state.store.contents) }
{
    let Ok(contents) = journal.contents() else {
        return Err(AllocError);
    };
    match Opening::new(contents, 0) {
        Ok(opening) => Ok(opening),
        Err(_) => Err(AllocError),
    }
}
