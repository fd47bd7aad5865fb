//! Calls that need no replica.

ghost use Rattle.std.specs.Prelude.{◌≡◌, ◌++◌, ◌∷◌, [], IfOk};
ghost use Rattle.ep_bundle.specs.Reading.{map_ok};
ghost use Rattle.ep_bundle.specs.Contents.{contents_of};
ghost use Rattle.ep_bundle.specs.Texts.{fault_text};
ghost use Rattle.ep_opening.specs.Bytes.{opening_bytes};
ghost use Rattle.ep_library.specs.Alone.{first_file, verdict_status, Audits, Copies, IsFound, IsOfBytes, IsRead, IsVerdict, OpensFirst};
ghost use Rattle.ep_library.specs.Statuses.{bundle_status, done};
ghost use Rattle.sha2.specs.Sha256.{sha256};

use crate::codes::bundle_status;
use crate::copying::copy_out;
use crate::status::{DONE, MEMORY, OUT_OF_RANGE, REFUSED, TOO_SHORT};
use ep_base::{Deps, Generation, Noted, Size};
use ep_bundle::{Bundle, BundleFault, read_bundle};
use ep_journal::Opening;
use ep_opening::{OpeningFile, write_opening};
use ep_report::{Judgement, judge};
use sha2::{Digest, Sha256};
use std::alloc::{AllocError, Global};

/// Which library this is: EP_VERSION of the header that it was built with. Another number is another set of calls.
#[unsafe(no_mangle)]
pub extern "C" fn ep_version() -> u32
    ensures { result ≡ 9 }
{
    9
}

/// Copies the text, if there is room, with this status.
fn copies(well: u8, text: &[u8], out: &mut [u8], len: &mut usize) -> u8
    ensures { Copies result well text.now out.old out.new len.new }
{
    if copy_out(text, out, len) {
        well
    } else {
        TOO_SHORT
    }
}

/// The bytes of the file that generation 1 opens with, in a cluster of this size.
fn first_opening(alloc: Global, size: Size) -> Result<Vec<u8>, AllocError>
    ensures { IfOk result (λ bytes. bytes.items ≡ opening_bytes (first_file size)) }
{
    let file = OpeningFile::new(
        size,
        Generation::first(),
        Opening::none(alloc),
        None,
        Deps::new(alloc),
    );
    match file {
        Ok(file) => write_opening(alloc, &file),
        Err(_) => Err(AllocError),
    }
}

/// Copies the file that generation 1 opens with, in a cluster of this many replicas; its map is empty. `len` becomes how many bytes it has. EP_TOO_SHORT: nothing was
/// copied; EP_MEMORY; EP_OUT_OF_RANGE: a cluster has 3, 5 or 7 replicas.
#[unsafe(no_mangle)]
pub extern "C" fn ep_first_opening(
    alloc: Global,
    replicas: u8,
    out: &mut [u8],
    len: &mut usize,
) -> u8
    ensures { OpensFirst result replicas out.old len.old out.new len.new }
{
    let Ok(size) = Size::new(replicas) else {
        return OUT_OF_RANGE;
    };
    match first_opening(alloc, size) {
        Ok(bytes) => copies(DONE, &bytes, out, len),
        Err(_) => MEMORY,
    }
}

/// Copies the SHA-256 of the bytes, which has 32, such as that of a log that is closed (ep_reference). `len` becomes 32. A megabyte takes some milliseconds: a host that can, adds what it
/// writes to a sum of its own, and has it at once. EP_TOO_SHORT: nothing was copied.
#[unsafe(no_mangle)]
pub extern "C" fn ep_sum(bytes: &[u8], out: &mut [u8], len: &mut usize) -> u8
    ensures { Copies result done (sha256 bytes.now) out.old out.new len.new }
{
    let mut hasher = Sha256::new();
    hasher.update(bytes);
    copies(DONE, &hasher.finalize(), out, len)
}

/// What an audit reports, and its status.
#[derive(Drop)]
struct Finding {
    status: u8,
    text: Vec<u8>,
}

/// The status of what an audit says.
fn verdict_status(is_accepted: bool) -> u8
    ensures { result ≡ verdict_status is_accepted }
{
    if is_accepted { DONE } else { REFUSED }
}

/// What an audit of the bundle says.
fn judged(alloc: Global, bundle: &Bundle) -> Result<Finding, AllocError>
    ensures { IfOk result (λ f. IsVerdict bundle.now.journals bundle.now.receipts.items f.status f.text.items) }
{
    let said = judge(alloc, &bundle.journals, bundle.receipts.as_slice())?;
    let Judgement { is_accepted, text } = said;
    Ok(Finding {
        status: verdict_status(is_accepted),
        text,
    })
}

/// Why the bytes are no bundle, as a line.
fn unread(alloc: Global, fault: BundleFault) -> Result<Finding, AllocError>
    ensures { IfOk result (λ f. (f.status ≡ bundle_status fault) × (f.text.items ≡ fault_text fault ++ 10 ∷ [])) }
{
    let mut text = Vec::from_slice(alloc, fault.to_string(alloc)?.as_bytes())?;
    text.push(b'\n')?;
    Ok(Finding {
        status: bundle_status(fault),
        text,
    })
}

/// The bundle that the bytes are.
fn read(alloc: Global, bytes: &[u8]) -> Result<Bundle, BundleFault>
    ensures { IsRead bytes.now (map_ok contents_of result) }
{
    let mut source = Noted::new(bytes);
    read_bundle(alloc, &mut source)
}

/// What is reported of bytes that are no bundle.
fn refused(alloc: Global, fault: BundleFault) -> Result<Finding, AllocError>
    ensures { IfOk result (λ f. IsOfBytes fault × (f.status ≡ bundle_status fault) × (f.text.items ≡ fault_text fault ++ 10 ∷ [])) }
{
    match fault {
        // (a slice never fails)
        BundleFault::Memory | BundleFault::ReadFailed => Err(AllocError),
        BundleFault::BadBundle(field) => unread(alloc, BundleFault::BadBundle(field)),
        BundleFault::NotARun(replica, entry) => unread(alloc, BundleFault::NotARun(replica, entry)),
    }
}

/// What an audit of the bytes reports.
fn found(alloc: Global, bytes: &[u8]) -> Result<Finding, AllocError>
    ensures { IfOk result (λ f. IsFound bytes.now f.status f.text.items) }
{
    match read(alloc, bytes) {
        Ok(bundle) => judged(alloc, &bundle),
        Err(fault) => refused(alloc, fault),
    }
}

/// Audits a bundle, of any version, and copies the report of what it finds; of bytes that are no bundle the line that says why. `len` becomes how many bytes that has.
/// EP_DONE: the audit accepts; EP_REFUSED: it refuses; EP_NOT_A_RUN, EP_BAD_BUNDLE; EP_TOO_SHORT: nothing was copied; EP_MEMORY.
#[unsafe(no_mangle)]
pub extern "C" fn ep_audit(alloc: Global, bundle: &[u8], out: &mut [u8], len: &mut usize) -> u8
    ensures { Audits result bundle.now out.old len.old out.new len.new }
{
    match found(alloc, bundle) {
        Ok(finding) => copies(finding.status, &finding.text, out, len),
        Err(_) => MEMORY,
    }
}
