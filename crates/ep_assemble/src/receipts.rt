//! Files of receipts.

ghost use Rattle.std.specs.Prelude.{◌≡◌, ◌≤◌, ◌++◌, ◌∷◌, List, [], IfOk, IfErr};
ghost use Rattle.ep_base.specs.Quorums.{size};
ghost use Rattle.ep_bundle.specs.Bytes.{length_width};
ghost use Rattle.ep_rules.specs.declared.receipt.Receipt.{Receipt as Reported};
ghost use Rattle.ep_assemble.specs.Logs.{contents};
ghost use Rattle.ep_assemble.specs.Receipts.{AreHeld, AreUnheld, Hold, IsNotHeld, IsUnheld, byte_at, is_cut, most_reported, of_receipts, receipt_length, reported_length, two_at, value_length};

use crate::assemble_fault::AssembleFault;
use crate::assembled::End;
use ep_base::{Noted, Size, Version, VersionKind};
use ep_bundle::{BundleFault, read_receipt};
use ep_rules::Receipt;
use std::alloc::Global;

/// What files of receipts hold: the receipts, and where the whole ones of each file end.
#[derive(Drop)]
pub(crate) struct Receipts {
    pub receipts: Vec<Receipt>,
    pub ends: Vec<End>,
}

/// Reads the files of receipts of a cluster of this version and size.
pub(crate) fn read_receipts(
    alloc: Global,
    version: Version,
    cluster: Size,
    files: &[Vec<u8>],
) -> Result<Receipts, AssembleFault>
    ensures ok { IfOk result (λ r. AreHeld version (size cluster) (contents files.now) r.receipts.items r.ends.items) }
    ensures err { IfErr result (AreUnheld version (size cluster) (contents files.now)) }
{
    let mut receipts = Vec::new(alloc);
    let mut ends = Vec::new(alloc);
    for (place, bytes) in files.iter().enumerate() {
        let end = read_one(version, cluster, place, bytes, &mut receipts)?;
        ends.push(end)?;
    }
    Ok(Receipts { receipts, ends })
}

/// Appends the receipts of the file at this place.
fn read_one(
    version: Version,
    cluster: Size,
    place: usize,
    bytes: &[u8],
    receipts: &mut Vec<Receipt>,
) -> Result<End, AssembleFault>
    ensures ok { IfOk result (λ end. (more : List Reported) × Hold version (size cluster) bytes.now more end × (receipts.new.items ≡ receipts.old.items ++ more)) }
    ensures err { IfErr result (IsNotHeld version (size cluster) place bytes.now) }
{
    match push_receipts(version, cluster, bytes, receipts) {
        Ok(end) => Ok(end),
        Err(fault) => Err(fault_of(place, fault)),
    }
}

/// The fault of the file at this place. Its bytes are there, so reading them never fails, and a receipt is no entry.
fn fault_of(place: usize, fault: BundleFault) -> AssembleFault
    ensures { result ≡ of_receipts place fault }
{
    match fault {
        BundleFault::BadBundle(field) => AssembleFault::Receipts(place, field.at),
        BundleFault::Memory | BundleFault::ReadFailed | BundleFault::NotARun(_, _) => {
            AssembleFault::Memory
        }
    }
}

/// Appends the receipts that these bytes hold, up to a cut one.
fn push_receipts(
    version: Version,
    cluster: Size,
    bytes: &[u8],
    receipts: &mut Vec<Receipt>,
) -> Result<End, BundleFault>
    ensures ok { IfOk result (λ end. (more : List Reported) × Hold version (size cluster) bytes.now more end × (receipts.new.items ≡ receipts.old.items ++ more)) }
    ensures err { IfErr result (IsUnheld version (size cluster) bytes.now) }
{
    let alloc = *receipts.allocator();
    let mut source = Noted::new(bytes);
    let mut place = 0;
    while !is_cut(version, source.inner()) {
        let receipt = read_receipt(alloc, &mut source, &mut place, version, cluster)?;
        receipts.push(receipt)?;
    }
    let tail = source.into_inner();
    Ok(End {
        whole: bytes.len() - tail.len(),
        is_torn: !tail.is_empty(),
    })
}

/// Whether these are fewer bytes than the receipt has that begins so.
fn is_cut(version: Version, bytes: &[u8]) -> bool
    ensures { result ≡ is_cut version bytes.now }
{
    bytes.len() < receipt_len(version, bytes)
}

/// How many bytes the receipt has that begins so, as far as these bytes show.
fn receipt_len(version: Version, bytes: &[u8]) -> usize
    ensures { result ≡ receipt_length version bytes.now }
{
    if byte_at(bytes, 32) == 1 {
        33 + length_len(version) + value_len(version, reported_len(version, bytes))
    } else {
        33
    }
}

/// How many bytes the length of a value takes.
fn length_len(version: Version) -> usize
    ensures value { result ≡ length_width version }
    ensures most { result ≤ 4 }
{
    match version.kind() {
        VersionKind::V1 | VersionKind::V2 => 2,
        VersionKind::V3(_) => 4,
    }
}

/// The length of a value that a receipt has, behind the code of its answer.
fn reported_len(version: Version, bytes: &[u8]) -> usize
    ensures { result ≡ reported_length version bytes.now }
{
    match version.kind() {
        VersionKind::V1 | VersionKind::V2 => two_at(bytes, 33),
        VersionKind::V3(_) => 65_536 * two_at(bytes, 33) + two_at(bytes, 35),
    }
}

/// This length, 0 where no value is so long.
fn value_len(version: Version, len: usize) -> usize
    ensures value { result ≡ value_length version len }
    ensures most { result ≤ 65535 }
{
    if len <= most_reported(version) {
        len
    } else {
        0
    }
}

/// How long a value may be that is answered.
fn most_reported(version: Version) -> usize
    ensures value { result ≡ most_reported version }
    ensures most { result ≤ 65535 }
{
    match version.kind() {
        VersionKind::V1 | VersionKind::V2 => 1024,
        VersionKind::V3(_) => 65_535,
    }
}

/// The number of the two bytes from this place on.
fn two_at(bytes: &[u8], place: usize) -> usize
    requires { place ≤ 35 }
    ensures value { result ≡ two_at bytes.now place }
    ensures most { result ≤ 65535 }
{
    256 * byte_at(bytes, place) as usize + byte_at(bytes, place + 1) as usize
}

/// The byte at the place, 0 where there is none.
fn byte_at(bytes: &[u8], place: usize) -> u8
    ensures { result ≡ byte_at bytes.now place }
{
    match bytes.get(place) {
        Some(byte) => *byte,
        None => 0,
    }
}
