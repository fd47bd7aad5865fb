//! Reading requests.

ghost use Rattle.std.specs.Prelude.{◌≡◌, ◌≤◌, ℕ, List, Some, true, IfOk, IfSome};
ghost use Rattle.ep_base.specs.Devices.{FailsAsReported};
ghost use Rattle.ep_bundle.specs.Reading.{is_read_failed as has_read_failed, Reads};
ghost use Rattle.ep_wire.specs.Requests.{is_length, is_read_failed, most_length, next_request, request_of, size_field, sized, unless_over, ReadsRequest};

use crate::bodies::request_in;
use crate::front::gather;
use crate::request::Request;
use crate::request_fault::RequestFault;
use byteorder::{BigEndian, ByteOrder};
use ep_base::{Source, Version, VersionKind};
use ep_bundle::{BadField, BundleFault, BundleField, JournalDialect, Wanted, field_u8, read_run};
use std::alloc::Global;

/// How many bytes a request of the version has at most: in version 3 its kind, and the longest frame.
fn most_length(version: Version) -> u32
    ensures { result ≡ most_length version }
{
    match version.kind() {
        VersionKind::V1 | VersionKind::V2 => 66_000,
        VersionKind::V3(_) => version.most_frame() + 1,
    }
}

/// Whether a request of the version may have so many bytes.
fn is_length(version: Version, length: u32) -> bool
    ensures test { result ≡ is_length version length }
    ensures low { result ≡ true → 1 ≤ length }
{
    1 <= length && length <= most_length(version)
}

/// The length of the next request of the version; none where the input is over.
fn read_length<S: Source>(
    source: &mut S,
    place: &mut u64,
    version: Version,
) -> Result<Option<u32>, BundleFault>
    ensures bytes { (zs : List ℕ) → S.left source.old ≡ Some zs → Reads (unless_over (record { at = place.old; bytes = zs }) (size_field version (record { at = place.old; bytes = zs }))) result place.new (S.left source.new) }
    ensures range { IfOk result (λ o. IfSome o (λ n. 1 ≤ n)) }
    ensures reported { FailsAsReported has_read_failed result (S.has_failed source.old) (S.has_failed source.new) }
{
    let mut bytes = [0; 4];
    let count = gather(source, &mut bytes)?;
    if count == 0 {
        return Ok(None);
    }
    if count < 4 {
        return Err(BundleFault::BadBundle(BadField {
            at: *place,
            name: BundleField::Other,
            len: 4,
            wanted: Wanted::Whole,
        }));
    }
    let length = BigEndian::read_u32(&bytes);
    if !is_length(version, length) {
        return Err(BundleFault::BadBundle(BadField {
            at: *place,
            name: BundleField::Other,
            len: 4,
            wanted: Wanted::Unsaid,
        }));
    }
    *place = place.saturating_add(4);
    Ok(Some(length))
}

/// The kind and the body, in so many bytes.
fn read_sized<S: Source>(
    alloc: Global,
    source: &mut S,
    place: &mut u64,
    dialect: &JournalDialect,
    length: u32,
) -> Result<Request, BundleFault>
    requires { 1 ≤ length }
    ensures bytes { (zs : List ℕ) → S.left source.old ≡ Some zs → Reads (sized dialect.now length (record { at = place.old; bytes = zs })) result place.new (S.left source.new) }
    ensures reported { FailsAsReported has_read_failed result (S.has_failed source.old) (S.has_failed source.new) }
{
    let kind = field_u8(source, place, BundleField::Other, 0, 255)?;
    let body = read_run(
        alloc,
        source,
        place,
        BundleField::Other,
        length as usize - 1,
    )?;
    let request = request_in(alloc, kind, body, dialect)?;
    Ok(request)
}

/// The next request; none where the input is over. A fault may be reported at any byte of it.
fn read_next<S: Source>(
    alloc: Global,
    source: &mut S,
    place: &mut u64,
    dialect: &JournalDialect,
) -> Result<Option<Request>, BundleFault>
    ensures bytes { (zs : List ℕ) → S.left source.old ≡ Some zs → Reads (next_request dialect.now (record { at = place.old; bytes = zs })) result place.new (S.left source.new) }
    ensures reported { FailsAsReported has_read_failed result (S.has_failed source.old) (S.has_failed source.new) }
{
    let next = read_length(source, place, dialect.version)?;
    let Some(length) = next else {
        return Ok(None);
    };
    let request = read_sized(alloc, source, place, dialect, length)?;
    Ok(Some(request))
}

/// Reads the next request to a node, in its dialect; none where the input is over. `place` is the offset of its
/// first byte, and then of the first byte after it, also where it is malformed. After a fault the source may have been read on,
/// and is of no use.
pub fn read_request<S: Source>(
    alloc: Global,
    source: &mut S,
    place: &mut u64,
    dialect: &JournalDialect,
) -> Result<Option<Request>, RequestFault>
    ensures bytes { (zs : List ℕ) → S.left source.old ≡ Some zs → ReadsRequest dialect.now (record { at = place.old; bytes = zs }) result place.new (S.left source.new) }
    ensures reported { FailsAsReported is_read_failed result (S.has_failed source.old) (S.has_failed source.new) }
{
    let at = *place;
    match read_next(alloc, source, place, dialect) {
        Ok(request) => Ok(request),
        Err(BundleFault::Memory) => Err(RequestFault::Memory),
        Err(BundleFault::ReadFailed) => Err(RequestFault::ReadFailed),
        Err(BundleFault::BadBundle(_)) => Err(RequestFault::BadRequest(at)),
        Err(BundleFault::NotARun(_, _)) => Err(RequestFault::BadRequest(at)),
    }
}
