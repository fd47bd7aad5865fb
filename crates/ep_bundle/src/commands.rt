//! Commands: an op, the lengths of its parts, and these, one after the other. The versions write the lengths differently, and nothing else.

ghost use Rattle.std.specs.Prelude.{◌≡◌, ◌≤◌, not, ℕ, List, Some, IfOk, OnOk, true, false, length};
ghost use Rattle.ep_base.specs.Devices.{FailsAsReported};
ghost use Rattle.ep_base.specs.Ops.{first_fits, second_fits, body_fits};
ghost use Rattle.ep_base.specs.CommandParts.{command_of, is_twice};
ghost use Rattle.ep_frame.specs.Faults.{highest_op, op_of};
ghost use Rattle.ep_bundle.specs.Reading.{field, is_read_failed, map_ok, Reads};
ghost use Rattle.ep_bundle.specs.Stages.{AreLengths, allowed, allowed_run, body_in, command, early_fits, early_lengths, lengths, op as op_of_command, other_lengths, parts, second_in};

use crate::bad_field::BadField;
use crate::bundle_fault::BundleFault;
use crate::bundle_field::BundleField;
use crate::fields::{field_u8, read_over, read_u8, read_u16, read_u32};
use crate::lengths::Lengths;
use crate::part_room::PartRoom;
use crate::wanted::Wanted;
use ep_base::{Command, CommandFault, Op, Source, Version, VersionKind};
use std::alloc::{AllocError, Global};

/// The highest op: version 1 has no swap, which is 5, and versions 1 and 2 have none of those from 6 on.
fn highest_op(version: Version) -> u8
    ensures { result ≡ highest_op version }
{
    match version.kind() {
        VersionKind::V1 => 4,
        VersionKind::V2 => 5,
        VersionKind::V3(_) => 10,
    }
}

/// The number of an op of a command of the version; a no-op, which is 1, isn't proposed.
#[tactic(auto, using(ep_frame::proofs::Saying::op_low))]
fn read_op_number<S: Source>(
    source: &mut S,
    place: &mut u64,
    version: Version,
) -> Result<u8, BundleFault>
    ensures bytes { (zs : List ℕ) → S.left source.old ≡ Some zs → Reads (field BundleField.Op 1 2 (highest_op version) (record { at = place.old; bytes = zs })) result place.new (S.left source.new) }
    ensures range { IfOk result (λ n. (1 ≤ n) × (n ≤ 10)) }
    ensures reported { FailsAsReported is_read_failed result (S.has_failed source.old) (S.has_failed source.new) }
{
    field_u8(source, place, BundleField::Op, 2, highest_op(version))
}

/// The op of this number.
#[tactic(auto, using(crate::proofs::ReadCommands::op_is))]
fn known_op(number: u8) -> Op
    requires { (1 ≤ number) × (number ≤ 10) }
    ensures { result ≡ op_of number }
{
    match Op::of_number(number) {
        Some(op) => op,
        None => Op::Noop,
    }
}

/// The op of a command of the version.
fn read_op<S: Source>(source: &mut S, place: &mut u64, version: Version) -> Result<Op, BundleFault>
    ensures bytes { (zs : List ℕ) → S.left source.old ≡ Some zs → Reads (op_of_command version (record { at = place.old; bytes = zs })) result place.new (S.left source.new) }
    ensures reported { FailsAsReported is_read_failed result (S.has_failed source.old) (S.has_failed source.new) }
{
    let number = read_op_number(source, place, version)?;
    Ok(known_op(number))
}

/// How many bytes the op's first key has.
fn read_first_len<S: Source>(source: &mut S, place: &mut u64, op: Op) -> Result<u8, BundleFault>
    ensures bytes { (zs : List ℕ) → S.left source.old ≡ Some zs → Reads (allowed BundleField.KeyLength (Wanted.LengthFor op) 1 (first_fits op) (record { at = place.old; bytes = zs })) result place.new (S.left source.new) }
    ensures reported { FailsAsReported is_read_failed result (S.has_failed source.old) (S.has_failed source.new) }
    ensures fits { IfOk result (λ n. first_fits op n ≡ true) }
{
    let at = *place;
    let len = read_u8(source, place, BundleField::KeyLength)?;
    if !op.first_fits(len as usize) {
        return Err(BundleFault::BadBundle(BadField {
            at,
            name: BundleField::KeyLength,
            len: 1,
            wanted: Wanted::LengthFor(op),
        }));
    }
    Ok(len)
}

/// How many bytes its second key has.
fn read_second_len<S: Source>(source: &mut S, place: &mut u64, op: Op) -> Result<u8, BundleFault>
    ensures bytes { (zs : List ℕ) → S.left source.old ≡ Some zs → Reads (allowed BundleField.SecondLength (Wanted.LengthFor op) 1 (second_fits op) (record { at = place.old; bytes = zs })) result place.new (S.left source.new) }
    ensures reported { FailsAsReported is_read_failed result (S.has_failed source.old) (S.has_failed source.new) }
    ensures fits { IfOk result (λ n. second_fits op n ≡ true) }
{
    let at = *place;
    let len = read_u8(source, place, BundleField::SecondLength)?;
    if !op.second_fits(len as usize) {
        return Err(BundleFault::BadBundle(BadField {
            at,
            name: BundleField::SecondLength,
            len: 1,
            wanted: Wanted::LengthFor(op),
        }));
    }
    Ok(len)
}

/// How many bytes its body has.
fn read_body_len<S: Source>(source: &mut S, place: &mut u64, op: Op) -> Result<u32, BundleFault>
    ensures bytes { (zs : List ℕ) → S.left source.old ≡ Some zs → Reads (allowed BundleField.BodyLength (Wanted.LengthFor op) 4 (body_fits op) (record { at = place.old; bytes = zs })) result place.new (S.left source.new) }
    ensures reported { FailsAsReported is_read_failed result (S.has_failed source.old) (S.has_failed source.new) }
    ensures fits { IfOk result (λ n. body_fits op n ≡ true) }
{
    let at = *place;
    let len = read_u32(source, place, BundleField::BodyLength)?;
    if !op.body_fits(len as usize) {
        return Err(BundleFault::BadBundle(BadField {
            at,
            name: BundleField::BodyLength,
            len: 4,
            wanted: Wanted::LengthFor(op),
        }));
    }
    Ok(len)
}

/// How much of what follows the first key in version 1 or 2 is the second key.
fn second_in(op: Op, len: u16) -> u16
    ensures { result ≡ second_in op len }
{
    if op.second_fits(0) { 0 } else { len }
}

/// How much of it is the body.
fn body_in(op: Op, len: u16) -> u16
    ensures { result ≡ body_in op len }
{
    if op.second_fits(0) { len } else { 0 }
}

/// Whether so many bytes may follow the first key in version 1 or 2.
fn early_fits(op: Op, len: u16) -> bool
    ensures { result ≡ early_fits op len }
{
    let second = second_in(op, len);
    let body = body_in(op, len);
    op.second_fits(second as usize) && (body <= 1024 && op.body_fits(body as usize))
}

/// The same lengths, of which a second key has at most 255 bytes.
#[tactic(auto, using(crate::proofs::ReadCommands::early_lengths_are, crate::proofs::ReadCommands::early_second))]
fn early_of(op: Op, first: u8, len: u16) -> Lengths
    requires first { first_fits op first ≡ true }
    requires others { early_fits op len ≡ true }
    ensures value { result ≡ record { op = op; first = first; second = second_in op len; body = body_in op len } }
    ensures fit { AreLengths result }
{
    Lengths {
        op,
        first,
        second: second_in(op, len) as u8,
        body: body_in(op, len) as u32,
    }
}

/// How many bytes follow the first key in version 1 or 2.
fn read_early_len<S: Source>(source: &mut S, place: &mut u64, op: Op) -> Result<u16, BundleFault>
    ensures bytes { (zs : List ℕ) → S.left source.old ≡ Some zs → Reads (allowed BundleField.TextLength (Wanted.LengthFor op) 2 (early_fits op) (record { at = place.old; bytes = zs })) result place.new (S.left source.new) }
    ensures reported { FailsAsReported is_read_failed result (S.has_failed source.old) (S.has_failed source.new) }
    ensures fits { IfOk result (λ n. early_fits op n ≡ true) }
{
    let at = *place;
    let len = read_u16(source, place, BundleField::TextLength)?;
    if !early_fits(op, len) {
        return Err(BundleFault::BadBundle(BadField {
            at,
            name: BundleField::TextLength,
            len: 2,
            wanted: Wanted::LengthFor(op),
        }));
    }
    Ok(len)
}

/// The lengths of a command of version 1 or 2, after that of its first key.
fn read_early_lengths<S: Source>(
    source: &mut S,
    place: &mut u64,
    op: Op,
    first: u8,
) -> Result<Lengths, BundleFault>
    requires { first_fits op first ≡ true }
    ensures bytes { (zs : List ℕ) → S.left source.old ≡ Some zs → Reads (early_lengths op first (record { at = place.old; bytes = zs })) result place.new (S.left source.new) }
    ensures reported { FailsAsReported is_read_failed result (S.has_failed source.old) (S.has_failed source.new) }
    ensures fit { IfOk result (λ s. AreLengths s) }
{
    let len = read_early_len(source, place, op)?;
    Ok(early_of(op, first, len))
}

/// The lengths of a command of version 3, after that of its first key.
fn read_late_lengths<S: Source>(
    source: &mut S,
    place: &mut u64,
    op: Op,
    first: u8,
) -> Result<Lengths, BundleFault>
    requires { first_fits op first ≡ true }
    ensures bytes { (zs : List ℕ) (g : ℕ) → S.left source.old ≡ Some zs → Reads (other_lengths (VersionKind.V3 g) op first (record { at = place.old; bytes = zs })) result place.new (S.left source.new) }
    ensures reported { FailsAsReported is_read_failed result (S.has_failed source.old) (S.has_failed source.new) }
    ensures fit { IfOk result (λ s. AreLengths s) }
{
    let second = read_second_len(source, place, op)?;
    let body = read_body_len(source, place, op)?;
    Ok(Lengths {
        op,
        first,
        second,
        body,
    })
}

/// The lengths of a command of this version, after that of its first key.
fn read_other_lengths<S: Source>(
    source: &mut S,
    place: &mut u64,
    version: Version,
    op: Op,
    first: u8,
) -> Result<Lengths, BundleFault>
    requires { first_fits op first ≡ true }
    ensures bytes { (zs : List ℕ) → S.left source.old ≡ Some zs → Reads (other_lengths version op first (record { at = place.old; bytes = zs })) result place.new (S.left source.new) }
    ensures reported { FailsAsReported is_read_failed result (S.has_failed source.old) (S.has_failed source.new) }
    ensures fit { IfOk result (λ s. AreLengths s) }
{
    match version.kind() {
        VersionKind::V1 | VersionKind::V2 => read_early_lengths(source, place, op, first),
        VersionKind::V3(_) => read_late_lengths(source, place, op, first),
    }
}

/// The op and the lengths of a command of the version.
fn read_lengths<S: Source>(
    source: &mut S,
    place: &mut u64,
    version: Version,
) -> Result<Lengths, BundleFault>
    ensures bytes { (zs : List ℕ) → S.left source.old ≡ Some zs → Reads (lengths version (record { at = place.old; bytes = zs })) result place.new (S.left source.new) }
    ensures reported { FailsAsReported is_read_failed result (S.has_failed source.old) (S.has_failed source.new) }
    ensures fit { IfOk result (λ s. AreLengths s) }
{
    let op = read_op(source, place, version)?;
    let first = read_first_len(source, place, op)?;
    read_other_lengths(source, place, version, op, first)
}

/// Whether there is a second key, and it is the first one once more.
fn is_twice(first: &[u8], second: &[u8]) -> bool
    ensures { result ≡ is_twice first.now second.now }
{
    !second.is_empty() && second == first
}

/// The second key of a command, of this many bytes, in place of what the list had; at fault where it is the first one.
fn read_second<S: Source>(
    source: &mut S,
    place: &mut u64,
    first: &[u8],
    len: u8,
    second: &mut Vec<u8>,
) -> Result<(), BundleFault>
    ensures bytes { (zs : List ℕ) → S.left source.old ≡ Some zs → Reads (allowed_run BundleField.SecondKey Wanted.OtherKey len (λ m. not (is_twice first.now m)) (record { at = place.old; bytes = zs })) (map_ok (λ _. second.new.items) result) place.new (S.left source.new) }
    ensures reported { FailsAsReported is_read_failed result (S.has_failed source.old) (S.has_failed source.new) }
    ensures other { OnOk result ((length second.new.items ≡ len) × (is_twice first.now second.new.items ≡ false)) }
{
    let at = *place;
    read_over(source, place, BundleField::SecondKey, len as usize, second)?;
    let twice = is_twice(first, second);
    if twice {
        return Err(BundleFault::BadBundle(BadField {
            at,
            name: BundleField::SecondKey,
            len: len as u64,
            wanted: Wanted::OtherKey,
        }));
    }
    Ok(())
}

/// The command of these parts, if they are one's.
fn command_made(
    alloc: Global,
    op: Op,
    first: &[u8],
    second: &[u8],
    body: &[u8],
) -> Result<Option<Command>, AllocError>
    ensures { IfOk result (λ c. c ≡ command_of (record { op = op; first = first.now; second = second.now; body = body.now })) }
{
    match Command::of_parts(alloc, op, first, second, body) {
        Ok(command) => Ok(Some(command)),
        Err(CommandFault::OutOfRange) => Ok(None),
        Err(CommandFault::Memory) => Err(AllocError),
    }
}

/// The parts of a command, of these lengths. They are read over what the room had.
fn read_parts<S: Source>(
    alloc: Global,
    source: &mut S,
    place: &mut u64,
    lengths: Lengths,
    room: &mut PartRoom,
) -> Result<Command, BundleFault>
    requires { AreLengths lengths }
    ensures bytes { (zs : List ℕ) → S.left source.old ≡ Some zs → Reads (parts lengths (record { at = place.old; bytes = zs })) result place.new (S.left source.new) }
    ensures reported { FailsAsReported is_read_failed result (S.has_failed source.old) (S.has_failed source.new) }
{
    read_over(
        source,
        place,
        BundleField::Key,
        lengths.first as usize,
        &mut room.first,
    )?;
    let first_key = room.first.as_slice();
    read_second(source, place, first_key, lengths.second, &mut room.second)?;
    let second_key = room.second.as_slice();
    let at = *place;
    read_over(
        source,
        place,
        BundleField::Body,
        lengths.body as usize,
        &mut room.body,
    )?;
    let bytes = room.body.as_slice();
    let made = command_made(alloc, lengths.op, first_key, second_key, bytes)?;
    match made {
        Some(command) => Ok(command),
        None => Err(BundleFault::BadBundle(BadField {
            at,
            name: BundleField::Body,
            len: lengths.body as u64,
            wanted: Wanted::BodyFor(lengths.op),
        })),
    }
}

/// A command of the version, by way of this room.
#[inline(always)]
pub(crate) fn read_command_in<S: Source>(
    alloc: Global,
    source: &mut S,
    place: &mut u64,
    version: Version,
    room: &mut PartRoom,
) -> Result<Command, BundleFault>
    ensures bytes { (zs : List ℕ) → S.left source.old ≡ Some zs → Reads (command version (record { at = place.old; bytes = zs })) result place.new (S.left source.new) }
    ensures reported { FailsAsReported is_read_failed result (S.has_failed source.old) (S.has_failed source.new) }
{
    let lengths = read_lengths(source, place, version)?;
    read_parts(alloc, source, place, lengths, room)
}

/// A command of the version.
pub fn read_command<S: Source>(
    alloc: Global,
    source: &mut S,
    place: &mut u64,
    version: Version,
) -> Result<Command, BundleFault>
    ensures bytes { (zs : List ℕ) → S.left source.old ≡ Some zs → Reads (command version (record { at = place.old; bytes = zs })) result place.new (S.left source.new) }
    ensures reported { FailsAsReported is_read_failed result (S.has_failed source.old) (S.has_failed source.new) }
{
    let mut room = PartRoom::new(alloc);
    read_command_in(alloc, source, place, version, &mut room)
}
