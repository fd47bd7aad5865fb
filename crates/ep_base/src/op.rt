//! Ops of commands.

ghost use Rattle.std.specs.Prelude.{◌≡◌, ◌≤◌, ◌↔◌, IsTrue, IfSome, IsSome};
ghost use Rattle.ep_base.specs.Ops.{op_number, reads, first_fits, second_fits, body_fits, is_key_len, is_comparison_len, is_items_len};

use crate::key::Key;
use crate::value::Value;

/// What a command does. Its number is 1 to 10, in the order that they stand in here.
#[derive(Clone, Copy, Debug, PartialEq, Eq)]
pub enum Op {
    /// Changes nothing.
    Noop,
    /// Asks for a key's value.
    Get,
    /// Sets a key's value.
    Put,
    /// Removes a key.
    Del,
    /// Exchanges what two keys have.
    Swap,
    /// Compares what a key has, and then sets it.
    Cas,
    /// Asks a machine outside.
    Ask,
    /// Has a machine outside act.
    Act,
    /// Closes the map.
    Seal,
    /// Does what its items say of many keys, if all their guards hold.
    Tx,
}

impl Op {
    /// The op of this number, 1 to 10; there is no other.
    pub fn of_number(number: u8) -> Option<Op>
        ensures found { IfSome result (λ o. number ≡ op_number o) }
        ensures only { IsSome result ↔ ((1 ≤ number) × (number ≤ 10)) }
    {
        match number {
            1 => Some(Op::Noop),
            2 => Some(Op::Get),
            3 => Some(Op::Put),
            4 => Some(Op::Del),
            5 => Some(Op::Swap),
            6 => Some(Op::Cas),
            7 => Some(Op::Ask),
            8 => Some(Op::Act),
            9 => Some(Op::Seal),
            10 => Some(Op::Tx),
            _ => None,
        }
    }

    /// The op's number, 1 to 10.
    #[inline(always)]
    pub fn number(self) -> u8
        ensures value { result ≡ op_number self }
        ensures in_range { (1 ≤ result) × (result ≤ 10) }
    {
        match self {
            Op::Noop => 1,
            Op::Get => 2,
            Op::Put => 3,
            Op::Del => 4,
            Op::Swap => 5,
            Op::Cas => 6,
            Op::Ask => 7,
            Op::Act => 8,
            Op::Seal => 9,
            Op::Tx => 10,
        }
    }

    /// Whether a command of this op only reads: a get or an ask. One over many keys may, too: its items say that.
    #[inline(always)]
    pub fn reads(self) -> bool
        ensures { result ≡ reads self }
    {
        matches!(self, Op::Get | Op::Ask)
    }

    /// Whether the first key may have this many bytes: 1 to 255, or none of a no-op, a seal or a command over many keys.
    #[inline(always)]
    pub fn first_fits(self, len: usize) -> bool
        ensures { result ≡ first_fits self len }
    {
        match self {
            Op::Noop | Op::Seal | Op::Tx => len == 0,
            Op::Get | Op::Put | Op::Del | Op::Swap | Op::Cas | Op::Ask | Op::Act => is_key_len(len),
        }
    }

    /// Whether the second key may have this many bytes: 1 to 255 of a swap, at most 255 of a machine's command, else none.
    #[inline(always)]
    pub fn second_fits(self, len: usize) -> bool
        ensures { result ≡ second_fits self len }
    {
        match self {
            Op::Swap => is_key_len(len),
            Op::Ask | Op::Act => len <= Key::LONGEST,
            Op::Noop | Op::Get | Op::Put | Op::Del | Op::Cas | Op::Seal | Op::Tx => len == 0,
        }
    }

    /// Whether the body may have this many bytes: at most 65,535 of a put, a seal or a machine's command, 2 to 131,080 of
    /// a comparison, 5 to 131,080 of a command over many keys, else none.
    #[inline(always)]
    pub fn body_fits(self, len: usize) -> bool
        ensures { result ≡ body_fits self len }
    {
        match self {
            Op::Put | Op::Ask | Op::Act | Op::Seal => len <= Value::LONGEST,
            Op::Cas => is_comparison_len(len),
            Op::Tx => is_items_len(len),
            Op::Noop | Op::Get | Op::Del | Op::Swap => len == 0,
        }
    }
}

/// Whether a key may have this many bytes: 1 to 255.
#[inline(always)]
pub(crate) fn is_key_len(len: usize) -> bool
    ensures { result ≡ is_key_len len }
{
    1 <= len && len <= Key::LONGEST
}

fn is_comparison_len(len: usize) -> bool
    ensures { result ≡ is_comparison_len len }
{
    2 <= len && len <= 131080
}

fn is_items_len(len: usize) -> bool
    ensures { result ≡ is_items_len len }
{
    5 <= len && len <= 131080
}

/// Whether both are one op.
#[inline(always)]
pub(crate) fn is_same_op(a: Op, b: Op) -> bool
    ensures { IsTrue result ↔ (a ≡ b) }
{
    a == b
}
