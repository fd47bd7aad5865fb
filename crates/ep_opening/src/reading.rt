//! Reading a file.

ghost use Rattle.std.specs.Prelude.{◌≡◌, ℕ, List, Some, IfOk, IfErr};
ghost use Rattle.ep_base.specs.Attributes.{same_list};
ghost use Rattle.ep_frame.specs.Spelling.{AreBytes};
ghost use Rattle.sha2.specs.Sha256.{sha256};
ghost use Rattle.ep_opening.specs.Bytes.{opening_bytes};
ghost use Rattle.ep_opening.specs.Reading.{body_in, file, file_of, parts, IsRefused, IsReadAs, ReadsAs};
ghost use Rattle.ep_opening.specs.declared.opening_fault.OpeningFault.TheVariants.{Memory};

use crate::digest::{DIGEST_LEN, digest_of};
use crate::front::Front;
use crate::opening_fault::OpeningFault;
use crate::opening_file::OpeningFile;
use crate::parts::{report_end, report_executed, report_front, report_lead, report_map};
use ep_base::{Deps, Noted, Source};
use ep_exec::Contents;
use ep_journal::Opening;
use std::alloc::Global;

/// How many bytes the shortest file has.
const LEAST_LEN: usize = 59;

/// What is known of bytes: a law, which costs nothing to call.
pub(crate) fn are_bytes(bytes: &[u8])
    ensures { AreBytes bytes.now }
{}

/// The file of these parts, which is one by what was read of them.
fn made(front: Front, contents: Contents, executed: Deps) -> Result<OpeningFile, OpeningFault>
    ensures ok { IfOk result (λ f. f ≡ file_of front contents executed) }
    ensures err { IfErr result (λ fault. fault ≡ Memory) }
{
    let Front {
        size,
        generation,
        base_stamp,
        seal,
    } = front;
    let Ok(opening) = Opening::new(contents, base_stamp) else {
        return Err(OpeningFault::Memory);
    };
    match OpeningFile::new(size, generation, opening, seal, executed) {
        Ok(file) => Ok(file),
        Err(_) => Err(OpeningFault::Memory),
    }
}

/// All that stands behind the version, up to the digest.
fn read_parts<S: Source>(
    alloc: Global,
    source: &mut S,
    place: &mut u64,
) -> Result<OpeningFile, OpeningFault>
    ensures { (zs : List ℕ) → S.left source.old ≡ Some zs → ReadsAs (parts (record { at = place.old; bytes = zs })) result place.new (S.left source.new) }
{
    let front = report_front(alloc, source, place)?;
    let contents = report_map(alloc, source, place, front.generation)?;
    let executed = report_executed(alloc, source, place, front.generation)?;
    report_end(source, place)?;
    made(front, contents, executed)
}

/// Whether this is the digest of the bytes.
pub(crate) fn is_sealed(body: &[u8], digest: &[u8]) -> bool
    ensures { result ≡ same_list (sha256 body.now) digest.now }
{
    digest_of(body).as_slice() == digest
}

/// The file whose bytes these are, with this digest behind them.
fn read_body(alloc: Global, body: &[u8], digest: &[u8]) -> Result<OpeningFile, OpeningFault>
    ensures { IsReadAs (body_in body.now digest.now) result }
{
    let mut source = Noted::new(body);
    let mut place = 0;
    report_lead(&mut source, &mut place)?;
    if !is_sealed(body, digest) {
        return Err(OpeningFault::Damaged(body.len() as u64));
    }
    read_parts(alloc, &mut source, &mut place)
}

/// Reads a file, exactly: what is read has these bytes, and what is refused no file has. A fault is the first one in the order of length, magic,
/// version, digest, and then the other fields as they stand in the file.
pub fn read_opening(alloc: Global, bytes: &[u8]) -> Result<OpeningFile, OpeningFault>
    ensures ok { IfOk result (λ f. bytes.now ≡ opening_bytes f) }
    ensures err { IfErr result (λ fault. IsRefused fault bytes.now) }
{
    are_bytes(bytes);
    read_reported(alloc, bytes)
}

/// Reads a file.
fn read_reported(alloc: Global, bytes: &[u8]) -> Result<OpeningFile, OpeningFault>
    ensures { IsReadAs (file bytes.now) result }
{
    if bytes.len() < LEAST_LEN {
        return Err(OpeningFault::CutShort(bytes.len() as u64));
    }
    let end = bytes.len() - DIGEST_LEN;
    read_body(alloc, &bytes[..end], &bytes[end..])
}
