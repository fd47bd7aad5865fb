//! The opening files of a generation, and the cluster that they are of.

ghost use Rattle.std.specs.Prelude.{◌≡◌, ◌↔◌, All, IfOk, IfErr, IsTrue, MatchOption};
ghost use Rattle.ep_opening.specs.Bytes.{opening_bytes};
ghost use Rattle.ep_assemble.specs.Generations.{AreFiles, AreNoFiles, AreOfNone, AreUnopened, Differs, HaveOpened, IsClusterOf, IsFirstOther, IsLike, IsNotOpened, common, least_since, of_opening};

use crate::assemble_fault::AssembleFault;
use crate::differing::Differing;
use crate::generation_fault::GenerationFault;
use crate::opened_cluster::OpenedCluster;
use crate::opened_log::OpenedLog;
use ep_base::Generation;
use ep_journal::Opening;
use ep_opening::{OpeningFault, OpeningFile, read_opening};
use std::alloc::{AllocError, Global};

/// The cluster whose opening files of the generation these are.
#[tactic(auto, using(crate::proofs::Opened::have_opened, crate::proofs::Opened::no_files, crate::proofs::Opened::of_none))]
pub(crate) fn opened(
    alloc: Global,
    generation: Generation,
    kept: &[OpenedLog],
) -> Result<OpenedCluster, GenerationFault>
    ensures ok { IfOk result (HaveOpened generation kept.now) }
    ensures err { IfErr result (AreUnopened generation kept.now) }
{
    match read_openings(alloc, kept) {
        Ok(files) => match cluster_of(alloc, generation, &files) {
            Ok(cluster) => Ok(cluster),
            Err(fault) => Err(fault),
        },
        Err(fault) => Err(fault),
    }
}

/// Reads the opening files.
fn read_openings(alloc: Global, kept: &[OpenedLog]) -> Result<Vec<OpeningFile>, GenerationFault>
    ensures ok { IfOk result (λ files. AreFiles kept.now files.items) }
    ensures err { IfErr result (AreNoFiles kept.now) }
{
    let mut files = Vec::new(alloc);
    for (place, one) in kept.iter().enumerate() {
        let file = read_file(alloc, place, &one.opening)?;
        files.push(file)?;
    }
    Ok(files)
}

/// Reads the opening file at this place.
fn read_file(alloc: Global, place: usize, bytes: &[u8]) -> Result<OpeningFile, GenerationFault>
    ensures ok { IfOk result (λ file. bytes.now ≡ opening_bytes file) }
    ensures err { IfErr result (IsNotOpened place bytes.now) }
{
    match read_opening(alloc, bytes) {
        Ok(file) => Ok(file),
        Err(fault) => Err(fault_of(place, fault)),
    }
}

/// The fault of the opening file at this place.
fn fault_of(place: usize, fault: OpeningFault) -> GenerationFault
    ensures { result ≡ of_opening place fault }
{
    match fault {
        OpeningFault::Memory => GenerationFault::Assemble(AssembleFault::Memory),
        _ => GenerationFault::Opening(place, fault),
    }
}

/// The cluster whose files of the generation these are.
fn cluster_of(
    alloc: Global,
    generation: Generation,
    files: &[OpeningFile],
) -> Result<OpenedCluster, GenerationFault>
    ensures ok { IfOk result (IsClusterOf generation files.now) }
    ensures err { IfErr result (AreOfNone generation files.now) }
{
    let Some(first) = files.first() else {
        return Err(GenerationFault::NoLog);
    };
    if let Some(other) = first_other(generation, first, files) {
        return Err(GenerationFault::Other(other.0, other.1));
    }
    let opening = common_of(alloc, first, files)?;
    Ok(OpenedCluster {
        generation,
        size: first.size(),
        opening,
    })
}

/// The place of the first file that isn't of the generation or not like the first one, and in what it differs.
fn first_other(
    generation: Generation,
    first: &OpeningFile,
    files: &[OpeningFile],
) -> Option<(usize, Differing)>
    ensures { MatchOption result (All (IsLike generation first.now) files.now) (λ other. IsFirstOther generation first.now other.0 other.1 files.now) }
{
    for (place, file) in files.iter().enumerate() {
        if let Some(how) = differing(generation, first, file) {
            return Some((place, how));
        }
    }
    None
}

/// In what the file differs from one of the generation that is like the first one.
fn differing(generation: Generation, first: &OpeningFile, file: &OpeningFile) -> Option<Differing>
    ensures { MatchOption result (IsLike generation first.now file.now) (λ how. Differs how generation first.now file.now) }
{
    if file.generation() != generation {
        return Some(Differing::Generation);
    }
    if file.size() != first.size() {
        return Some(Differing::Size);
    }
    if !has_map_of(first, file) {
        return Some(Differing::Map);
    }
    None
}

/// Whether the file has the map of the first one.
fn has_map_of(first: &OpeningFile, file: &OpeningFile) -> bool
    ensures { IsTrue result ↔ (file.now.opening.contents ≡ first.now.opening.contents) }
{
    file.opening()
        .contents()
        .is_same(first.opening().contents())
}

/// What the journals of replicas with these files open with. As each file is read, so is this: its stamp is one of theirs, and so is its map.
fn common_of(
    alloc: Global,
    first: &OpeningFile,
    files: &[OpeningFile],
) -> Result<Opening, AllocError>
    ensures { IfOk result (λ o. o ≡ common first.now files.now) }
{
    let contents = first.opening().contents().copy(alloc)?;
    match Opening::new(contents, least_of(first.opening().base_stamp(), files)) {
        Ok(opening) => Ok(opening),
        Err(_) => Err(AllocError),
    }
}

/// The least of this stamp and of those that the files go on from.
fn least_of(base_stamp: u64, files: &[OpeningFile]) -> u64
    ensures { result ≡ least_since base_stamp files.now }
{
    let mut least = base_stamp;
    for file in files {
        least = least.min(file.opening().base_stamp());
    }
    least
}
