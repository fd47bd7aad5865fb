//! Opening files, whole.

ghost use Rattle.std.specs.Prelude.{◌≡◌, ◌<◌, ◌++◌, ◌^◌, IfOk, IfErr, OnOk, length};
ghost use Rattle.ep_frame.specs.Fields.{number_bytes};
ghost use Rattle.ep_library.specs.Openings.{body_of, file_bytes, seal_of, Checks, CopiesFile, Makes, Spells};
ghost use Rattle.ep_opening.specs.Bytes.{opening_bytes};
ghost use Rattle.ep_opening.specs.Files.{File};
ghost use Rattle.ep_opening.specs.Reading.{IsRefused};

use crate::codes::opening_status;
use crate::copying::copy_out;
use crate::opening_parts::OpeningParts;
use crate::place::Place;
use crate::refusals::opening_place;
use crate::status::{DONE, MEMORY, OUT_OF_RANGE, TOO_SHORT};
use ep_opening::{OpeningFault, digest_of, read_opening};
use std::alloc::{AllocError, Global};

/// The most bytes that a seal's value has.
const MOST_VALUE: usize = 65_535;

/// A number in four bytes.
#[tactic(auto, unfolding(ep_frame::specs::Fields::number_bytes))]
fn four(number: u32) -> [u8; 4]
    ensures { result ≡ number_bytes 4 number }
{
    number.to_be_bytes()
}

/// A number in eight bytes.
#[tactic(auto, unfolding(ep_frame::specs::Fields::number_bytes))]
fn eight(number: u64) -> [u8; 8]
    ensures { result ≡ number_bytes 8 number }
{
    number.to_be_bytes()
}

/// Whether the bytes are an opening file's; else the first fault.
fn judged(alloc: Global, bytes: &[u8]) -> Result<(), OpeningFault>
    ensures ok { OnOk result ((f : File) × (bytes.now ≡ opening_bytes f)) }
    ensures err { IfErr result (λ fault. IsRefused fault bytes.now) }
{
    match read_opening(alloc, bytes) {
        Ok(file) => {
            drop(file);
            Ok(())
        }
        Err(fault) => Err(fault),
    }
}

/// Reads an opening file, exactly: what is refused is none. Of what is wrong the first is reported, in the order of length,
/// format, digest, and then the other fields as they stand in the file. EP_MEMORY; EP_OPENING_SHORT,
/// EP_OPENING_DAMAGED, EP_OPENING_WRONG, where `place` becomes the numbers that the status names.
#[unsafe(no_mangle)]
pub extern "C" fn ep_check_opening(alloc: Global, opening: &[u8], place: &mut Place) -> u8
    ensures { Checks result opening.now place.old place.new }
{
    match judged(alloc, opening) {
        Ok(()) => DONE,
        Err(fault) => {
            *place = opening_place(fault);
            opening_status(fault)
        }
    }
}

/// Appends the seal.
fn push_seal(seal: &[u8], out: &mut Vec<u8>) -> Result<(), AllocError>
    requires { length seal.now < 2 ^ 32 }
    ensures { OnOk result (out.new.items ≡ out.old.items ++ seal_of seal.now) }
{
    out.push(1)?;
    out.extend_from_slice(&four(seal.len() as u32))?;
    out.extend_from_slice(seal)
}

/// What stands before the digest.
fn body_of(alloc: Global, parts: &OpeningParts<'_>) -> Result<Vec<u8>, AllocError>
    requires { length parts.now.seal.now < 2 ^ 32 }
    ensures { IfOk result (λ body. body.items ≡ body_of parts.now) }
{
    let mut body = Vec::new(alloc);
    body.extend_from_slice(&[0x45, 0x50, 0x4f, 0x50, 3, parts.replicas])?;
    body.extend_from_slice(&four(parts.generation))?;
    body.extend_from_slice(&eight(parts.base_stamp))?;
    push_seal(parts.seal, &mut body)?;
    body.extend_from_slice(parts.map)?;
    body.extend_from_slice(&four(0))?;
    Ok(body)
}

/// The bytes of the file.
fn file_bytes(alloc: Global, parts: &OpeningParts<'_>) -> Result<Vec<u8>, AllocError>
    requires { length parts.now.seal.now < 2 ^ 32 }
    ensures { IfOk result (λ bytes. bytes.items ≡ file_bytes parts.now) }
{
    let mut bytes = body_of(alloc, parts)?;
    let digest = digest_of(&bytes);
    bytes.extend_from_slice(&digest)?;
    Ok(bytes)
}

/// Copies the bytes, where they are an opening file's; else says where they are wrong.
fn copy_file(alloc: Global, bytes: &[u8], out: &mut [u8], len: &mut usize, place: &mut Place) -> u8
    ensures { CopiesFile result bytes.now (out.old, (len.old, place.old)) (out.new, (len.new, place.new)) }
{
    match judged(alloc, bytes) {
        Ok(()) => {
            if copy_out(bytes, out, len) {
                DONE
            } else {
                TOO_SHORT
            }
        }
        Err(fault) => {
            *place = opening_place(fault);
            opening_status(fault)
        }
    }
}

/// Copies the opening file that these parts make, where they make one.
fn copy_made(
    alloc: Global,
    parts: &OpeningParts<'_>,
    out: &mut [u8],
    len: &mut usize,
    place: &mut Place,
) -> u8
    requires { length parts.now.seal.now < 2 ^ 32 }
    ensures { Spells result parts.now (out.old, (len.old, place.old)) (out.new, (len.new, place.new)) }
{
    match file_bytes(alloc, parts) {
        Ok(bytes) => copy_file(alloc, &bytes, out, len, place),
        Err(_) => MEMORY,
    }
}

/// Copies the opening file that these parts make, before which nothing was executed: for a cluster that begins anew
/// with a map that is left, as after the loss of a majority. `len` becomes how many bytes it has: 59, and those of seal
/// and map. EP_TOO_SHORT: nothing was copied; EP_MEMORY; EP_OUT_OF_RANGE: the seal has more than 65,535 bytes;
/// EP_OPENING_WRONG: the parts make none, and `place` becomes the numbers that the status names.
#[unsafe(no_mangle)]
pub extern "C" fn ep_opening(
    alloc: Global,
    parts: &OpeningParts<'_>,
    out: &mut [u8],
    len: &mut usize,
    place: &mut Place,
) -> u8
    ensures { Makes result parts.now (out.old, (len.old, place.old)) (out.new, (len.new, place.new)) }
{
    if parts.seal.len() > MOST_VALUE {
        return OUT_OF_RANGE;
    }
    copy_made(alloc, parts, out, len, place)
}
