//! What generation 1 opens with.

ghost use Rattle.std.specs.Prelude.{◌≡◌, IfOk};
ghost use Rattle.ep_assemble.specs.Firsts.{faults_in, first_file};
ghost use Rattle.ep_opening.specs.Bytes.{opening_bytes};

use ep_base::{Deps, Generation, Size};
use ep_journal::Opening;
use ep_opening::{OpeningFile, write_opening};
use std::alloc::{AllocError, Global};

/// Where the header of a log has the number of replicas.
const COUNT_AT: usize = 5;

/// The file that generation 1 opens with, in a cluster of this size.
pub fn first_file(alloc: Global, size: Size) -> Result<OpeningFile, AllocError>
    ensures { IfOk result (λ f. f ≡ first_file size) }
{
    let opening = Opening::none(alloc);
    match OpeningFile::new(size, Generation::first(), opening, None, Deps::new(alloc)) {
        Ok(file) => Ok(file),
        Err(_) => Err(AllocError),
    }
}

/// Its bytes, in the cluster of which this log is: a log names the digest of the file that it opened with.
pub(crate) fn first_opening(alloc: Global, log: &[u8]) -> Result<Vec<u8>, AllocError>
    ensures { IfOk result (λ bytes. bytes.items ≡ opening_bytes (first_file (faults_in log.now))) }
{
    written(alloc, size_in(log))
}

fn written(alloc: Global, size: Size) -> Result<Vec<u8>, AllocError>
    ensures { IfOk result (λ bytes. bytes.items ≡ opening_bytes (first_file size)) }
{
    let file = first_file(alloc, size)?;
    write_opening(alloc, &file)
}

/// The size of the log's cluster, by its header; three replicas where it has none.
fn size_in(log: &[u8]) -> Size
    ensures { result ≡ faults_in log.now }
{
    let count = log.get(COUNT_AT).copied().unwrap_or(3);
    match Size::new(count) {
        Ok(size) => size,
        Err(_) => Size::new(3).unwrap(),
    }
}
