//! Bodies of comparisons.

ghost use Rattle.std.specs.Prelude.{◌≡◌, ◌≤◌, ◌++◌, IsTrue, IfOk, OnOk, Some, None, length, take};
ghost use Rattle.std.specs.Option.{option_copied};
ghost use Rattle.ep_base.specs.CommandParts.{part_bytes, part_at, expected_in, new_in, is_comparison, is_short, IsShort, IsPartLen};
ghost use Rattle.ep_base.specs.Values.{most_value};

use crate::value::Value;
use bytes::Bytes;
use std::alloc::{AllocError, Global};

/// Whether the bytes are what is expected and then what is new, each a value of at most 65,535 bytes or none, with nothing
/// left over.
pub fn is_comparison(body: &[u8]) -> bool
    ensures { result ≡ is_comparison body.now }
{
    match part_len(body) {
        None => false,
        Some(first) => match part_len(&body[first..]) {
            None => false,
            Some(second) => first + second == body.len(),
        },
    }
}

/// What a comparison's body expects, and what is new.
pub(crate) fn expected_and_new(body: &[u8]) -> (Option<&[u8]>, Option<&[u8]>)
    requires { IsTrue (is_comparison body.now) }
    ensures expected { option_copied result.0 ≡ expected_in body.now }
    ensures new { option_copied result.1 ≡ new_in body.now }
{
    match part_len(body) {
        None => (None, None),
        Some(first) => {
            let rest = &body[first..];
            match part_len(rest) {
                None => (None, None),
                Some(second) => (value_in(body, first), value_in(rest, second)),
            }
        }
    }
}

/// The key, and then what is expected and what is new as a comparison's body.
pub(crate) fn comparison_run(
    alloc: Global,
    key: &[u8],
    expected: Option<&[u8]>,
    new: Option<&[u8]>,
) -> Result<Bytes, AllocError>
    requires key { length key.now ≤ 255 }
    requires expected { IsShort (option_copied expected) }
    requires new { IsShort (option_copied new) }
    ensures { IfOk result (λ b. b ≡ key.now ++ (part_bytes (option_copied expected.entry) ++ part_bytes (option_copied new.entry))) }
{
    let size = key.len() + part_size(expected) + part_size(new);
    let mut run = Vec::with_capacity(alloc, size)?;
    run.extend_from_slice(key)?;
    push_part(&mut run, expected)?;
    push_part(&mut run, new)?;
    Ok(Bytes::from_vec(run)?)
}

/// Whether it is none, or a value of at most 65,535 bytes.
pub(crate) fn is_short(part: Option<&[u8]>) -> bool
    ensures { result ≡ is_short (option_copied part.entry) }
{
    match part {
        None => true,
        Some(value) => value.len() <= Value::LONGEST,
    }
}

fn part_size(part: Option<&[u8]>) -> usize
    requires { IsShort (option_copied part) }
    ensures { result ≤ 65540 }
{
    match part {
        None => 1,
        Some(value) => 5 + value.len(),
    }
}

fn push_part(run: &mut Vec<u8>, part: Option<&[u8]>) -> Result<(), AllocError>
    requires { IsShort (option_copied part) }
    ensures { OnOk result (run.new.items ≡ run.old.items ++ part_bytes (option_copied part.entry)) }
{
    match part {
        None => run.extend_from_slice(&[0]),
        Some(value) => push_value(run, value),
    }
}

fn push_value(run: &mut Vec<u8>, value: &[u8]) -> Result<(), AllocError>
    requires { length value.now ≤ most_value }
    ensures { OnOk result (run.new.items ≡ run.old.items ++ part_bytes (Some value.now)) }
{
    let len = value.len();
    let head = [1, 0, 0, (len / 256) as u8, (len % 256) as u8];
    run.extend_from_slice(&head)?;
    run.extend_from_slice(value)
}

/// The value of the part that the bytes begin with, which takes so many of them.
pub(crate) fn value_in(bytes: &[u8], len: usize) -> Option<&[u8]>
    requires len { len ≤ length bytes.now }
    requires spelled { take len bytes.now ≡ part_bytes (part_at bytes.now) }
    ensures { option_copied result ≡ part_at bytes.now }
{
    if len < 5 { None } else { Some(&bytes[5..len]) }
}

/// How many bytes the value or none takes that the bytes begin with, if they do.
pub(crate) fn part_len(bytes: &[u8]) -> Option<usize>
    ensures { IsPartLen bytes.now result }
{
    if bytes.is_empty() {
        return None;
    }
    if bytes[0] == 0 {
        return Some(1);
    }
    if bytes.len() < 5 || bytes[0] != 1 || bytes[1] != 0 || bytes[2] != 0 {
        return None;
    }
    let len = bytes[3] as usize * 256 + bytes[4] as usize;
    if bytes.len() - 5 < len {
        return None;
    }
    Some(5 + len)
}
