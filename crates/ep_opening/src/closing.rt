//! The file that the next generation opens with.

ghost use Rattle.std.specs.Prelude.{◌≡◌, ◌≢◌, ◌≤◌, ◌↔◌, ℕ, suc, true, None, IfSome, IfOk, IfErr};
ghost use Rattle.ep_base.specs.Places.{Has};
ghost use Rattle.ep_base.specs.Versions.{generation_of, version_number};
ghost use Rattle.ep_base.specs.declared.version_kind.VersionKind.TheVariants.{V3};
ghost use Rattle.ep_journal.specs.Entries.{entries_of};
ghost use Rattle.ep_opening.specs.Closing.{store_of, IsClosing, IsLeft, IsNext, IsUnclosed, WasAnswered};
ghost use Rattle.ep_opening.specs.declared.closing_fault.ClosingFault.TheVariants.{Memory as NoMemory};
ghost use Rattle.ep_opening.specs.Files.{HasItsSeal};
ghost use Rattle.ep_rules.specs.OneMap.{is_closed};

use crate::answered::answered;
use crate::closing_fault::ClosingFault;
use crate::opening_file::OpeningFile;
use crate::past::Past;
use ep_base::{Generation, Size, Value, Version};
use ep_exec::Contents;
use ep_journal::{Journal, Opening, Remainder};
use std::alloc::{AllocError, Global};

/// No seal closes a map of versions 1 and 2. A law, which costs nothing.
fn learn_closed(journal: &Journal)
    ensures { is_closed (store_of journal.now) ≡ true → version_number journal.now.version ≡ 3 }
{
    let _opening = journal.opening();
    let _entries = journal.entries();
}

/// The generation after the version's, where there is one.
fn next_of(version: Version) -> Option<Generation>
    ensures next { IfSome result (λ g. g ≡ suc (generation_of version)) }
    ensures later { version_number version ≡ 3 → IfSome result (λ g. 2 ≤ g) }
    ensures none { result ≡ None → version ≡ V3 4294967295 }
{
    let _kind = version.kind();
    let number = version.generation();
    if number == u32::MAX {
        return None;
    }
    Some(Generation::new(number + 1).unwrap())
}

/// The generation after the journal's, which a seal has closed.
fn next_after(journal: &Journal) -> Result<Generation, ClosingFault>
    requires { is_closed (store_of journal.now) ≡ true }
    ensures ok { IfOk result (λ g. IsNext journal.now g) }
    ensures err { IfErr result (λ fault. IsUnclosed journal.now fault) }
    ensures known { IfErr result (λ fault. fault ≢ NoMemory) }
{
    learn_closed(journal);
    match next_of(journal.version()) {
        Some(generation) => Ok(generation),
        None => Err(ClosingFault::LastGeneration),
    }
}

/// The generation after the journal's, where a seal was executed. It isn't refused because memory ran out.
#[tactic(auto, using(crate::proofs::FileParts::open_now, crate::proofs::FileParts::closed_now))]
pub fn next_generation(journal: &Journal) -> Result<Generation, ClosingFault>
    ensures ok { IfOk result (λ g. IsNext journal.now g) }
    ensures err { IfErr result (λ fault. IsUnclosed journal.now fault) }
    ensures known { IfErr result (λ fault. fault ≢ NoMemory) }
{
    match journal.seal() {
        None => Err(ClosingFault::NotSealed),
        Some(_) => next_after(journal),
    }
}

/// The value of the seal that closed the map.
fn seal_of(alloc: Global, journal: &Journal) -> Result<Option<Value>, AllocError>
    ensures { IfOk result (λ seal. seal ≡ (store_of journal.now).seal) }
{
    match journal.seal() {
        None => Ok(None),
        Some(value) => Ok(Some(value.copy(alloc)?)),
    }
}

/// What began the generation after the journal's, where this one has executed a seal.
fn past_of(alloc: Global, journal: &Journal) -> Result<Past, ClosingFault>
    ensures next { IfOk result (λ p. IsNext journal.now p.generation) }
    ensures seal { IfOk result (λ p. p.seal ≡ (store_of journal.now).seal) }
    ensures executed { IfOk result (λ p. (i : ℕ) → Has p.executed i ↔ WasAnswered (entries_of journal.now.entries) i) }
    ensures err { IfErr result (λ fault. IsUnclosed journal.now fault) }
{
    let generation = next_generation(journal)?;
    let executed = answered(alloc, journal.entries())?;
    let seal = seal_of(alloc, journal)?;
    Ok(Past {
        generation,
        seal,
        executed,
    })
}

/// These contents, with clocks that go on from this stamp. Where more than 4,000,000,000 keys have a value, it is refused.
fn opening_with(contents: Contents, base_stamp: u64) -> Result<Opening, AllocError>
    ensures { IfOk result (λ o. o ≡ record { contents = contents; base_stamp = base_stamp }) }
{
    match Opening::new(contents, base_stamp) {
        Ok(opening) => Ok(opening),
        Err(_) => Err(AllocError),
    }
}

/// The map that the journal leaves, with clocks that go on from its last stamp.
fn opening_of(journal: &Journal) -> Result<Opening, AllocError>
    ensures { IfOk result (IsLeft journal.now) }
{
    match journal.contents() {
        Ok(contents) => opening_with(contents, journal.last_stamp()),
        Err(_) => Err(AllocError),
    }
}

/// The same, and what is left of the journal.
fn opening_from(journal: Journal) -> Result<(Opening, Remainder), AllocError>
    ensures { IfOk result (λ o. IsLeft journal o.0) }
{
    let base_stamp = journal.last_stamp();
    let (contents, left) = journal.into_contents();
    let Ok(contents) = contents else {
        drop(left);
        return Err(AllocError);
    };
    match opening_with(contents, base_stamp) {
        Ok(opening) => Ok((opening, left)),
        Err(fault) => {
            drop(left);
            Err(fault)
        }
    }
}

/// The file of these parts.
fn file_of(size: Size, past: Past, opening: Opening) -> OpeningFile
    requires later { 2 ≤ past.generation }
    requires seal { HasItsSeal past.generation past.seal }
    ensures { result ≡ record { faults = size; generation = past.generation; opening = opening; seal = past.seal; executed = past.executed } }
{
    let Past {
        generation,
        seal,
        executed,
    } = past;
    OpeningFile::new(size, generation, opening, seal, executed).unwrap()
}

/// The file that the generation after the journal's opens with, in a cluster of this size, once the journal has executed a seal.
///
/// Its map and its seal are those that the journal leaves. Its clocks go on from the journal's last stamp, so they differ from replica to replica,
/// each of which closes by itself. Its executed instances are those that the journal answers with a reply other than `Closed`: each command that the
/// generation did, up to the seal and with it. It takes one pass over the entries, and a copy of the map.
pub fn closing_of(alloc: Global, journal: &Journal, next: Size) -> Result<OpeningFile, ClosingFault>
    ensures ok { IfOk result (λ file. IsClosing journal.now next file) }
    ensures err { IfErr result (λ fault. IsUnclosed journal.now fault) }
{
    let past = past_of(alloc, journal)?;
    let opening = opening_of(journal)?;
    Ok(file_of(next, past, opening))
}

/// The same file, and no longer the journal, whose map becomes a part of it, with nothing copied of what the journal
/// opened with. The file keeps what is left of the journal (see `OpeningFile::let_go`).
pub fn closing_from(
    alloc: Global,
    journal: Journal,
    next: Size,
) -> Result<OpeningFile, ClosingFault>
    ensures ok { IfOk result (λ file. IsClosing journal next file) }
    ensures err { IfErr result (λ fault. IsUnclosed journal fault) }
{
    match past_of(alloc, &journal) {
        Ok(past) => closed_with(journal, next, past),
        Err(fault) => {
            drop(journal);
            Err(fault)
        }
    }
}

/// The file of the journal's map, and of what began the generation after the journal's.
fn closed_with(journal: Journal, next: Size, past: Past) -> Result<OpeningFile, ClosingFault>
    requires next { IsNext journal past.generation }
    requires seal { past.seal ≡ (store_of journal).seal }
    requires executed { (i : ℕ) → Has past.executed i ↔ WasAnswered (entries_of journal.entries) i }
    ensures ok { IfOk result (λ file. IsClosing journal next file) }
    ensures err { IfErr result (λ fault. fault ≡ NoMemory) }
{
    match opening_from(journal) {
        Ok((opening, left)) => Ok(file_of(next, past, opening).with(left)),
        Err(_) => {
            drop(past);
            Err(ClosingFault::Memory)
        }
    }
}
