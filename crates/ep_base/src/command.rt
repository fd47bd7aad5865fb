//! Commands, and which of them interfere.

ghost use Rattle.std.specs.Prelude.{◌≡◌, ◌<◌, ◌≤◌, ◌+◌, ◌++◌, ◌↔◌, ◌⊎◌, IsTrue, IfOk, Bool, true, false, length, ◌&&◌, if◌then◌else◌};
ghost use Rattle.ep_base.specs.Ops.{is_key_len};
ghost use Rattle.std.specs.Option.{option_copied};
ghost use Rattle.std.specs.Prelude.{Option, Some, None};
ghost use Rattle.ep_base.specs.Commands.{Noop, Get, Put, Del, Swap, Cas, Seal, Opaque, Tx};
ghost use Rattle.ep_base.specs.Interference.{only_reads, is_swap, is_late, is_long, is_many, is_seal, keys_of, key_of, second_key_of, has_key, listed};
ghost use Rattle.ep_base.specs.Partition.{PartsLaw};
ghost use Rattle.ep_base.specs.CommandParts.{is_short, parts_of, command_in, command_of, are_parts, items_of, lengths_fit, is_twice, body_said, cut, is_tx, items_in, key_if_any, IsInRange};
ghost use Rattle.ep_base.specs.Sameness.{same_command, is_noop};
ghost use Rattle.ep_base.specs.Values.{most_value};
ghost use Rattle.ep_base.specs.Views.{means, touched};

use crate::command_fault::CommandFault;
use crate::command_view::{CommandView, Touching};
use crate::comparison::{comparison_run, expected_and_new, is_comparison, is_short};
use crate::items::{Items, has_item, is_tx, none_writes};
use crate::op::{Op, is_key_len, is_same_op};
use crate::value::Value;
use bytes::Bytes;
use std::alloc::{AllocError, Global};
use std::marker::Model;

/// What a replica may be asked to do. Its keys and its body stand one after the other in one run of bytes, which copies share.
#[derive(Debug)]
pub struct Command {
    op: Op,
    first: u8,
    second: u8,
    run: Bytes,
}

// (by hand, so that no crate above proves again how the parts are dropped)
impl Drop for Command {
    fn drop(self) {
        let Command {
            run,
            op: _,
            first: _,
            second: _,
        } = self;
        drop(run);
    }
}

impl Model for Command {
    ghost use Rattle.std.specs.Prelude.{◌≡◌, ◌≤◌, ◌+◌, length, true};
    ghost use Rattle.ep_base.specs.Commands.{Command};
    ghost use Rattle.ep_base.specs.CommandParts.{cut, command_in, are_parts};

    ghost Value = { Command };

    ghost view = { λ c. command_in (cut c.op c.run c.first c.second) };

    ghost invariant = { λ c. (c.first + c.second ≤ length c.run) × (are_parts (cut c.op c.run c.first c.second) ≡ true) };
}

impl Command {
    /// The no-op.
    pub fn noop() -> Command
        ensures { result ≡ Noop }
    {
        Command {
            op: Op::Noop,
            first: 0,
            second: 0,
            run: Bytes::new(),
        }
    }

    /// The get of this key; `OutOfRange` unless it has 1 to 255 bytes.
    pub fn get(alloc: Global, key: &[u8]) -> Result<Command, CommandFault>
        ensures ok { IfOk result (λ c. c ≡ Get key.now) }
        ensures out_of_range { result ≡ Err CommandFault.OutOfRange ↔ ((length key.now ≡ 0) ⊎ (255 < length key.now)) }
    {
        Command::of_parts(alloc, Op::Get, key, [].as_slice(), [].as_slice())
    }

    /// The put of this key and value; `OutOfRange` unless the key has 1 to 255 bytes and the value at most 65,535.
    pub fn put(alloc: Global, key: &[u8], value: &[u8]) -> Result<Command, CommandFault>
        ensures ok { IfOk result (λ c. c ≡ Put key.now value.now) }
        ensures out_of_range { result ≡ Err CommandFault.OutOfRange ↔ ((length key.now ≡ 0) ⊎ (255 < length key.now) ⊎ (most_value < length value.now)) }
    {
        Command::of_parts(alloc, Op::Put, key, [].as_slice(), value)
    }

    /// The deletion of this key; `OutOfRange` unless it has 1 to 255 bytes.
    pub fn del(alloc: Global, key: &[u8]) -> Result<Command, CommandFault>
        ensures ok { IfOk result (λ c. c ≡ Del key.now) }
        ensures out_of_range { result ≡ Err CommandFault.OutOfRange ↔ ((length key.now ≡ 0) ⊎ (255 < length key.now)) }
    {
        Command::of_parts(alloc, Op::Del, key, [].as_slice(), [].as_slice())
    }

    /// The swap of these two keys; `OutOfRange` unless each has 1 to 255 bytes, and they differ.
    pub fn swap(alloc: Global, first: &[u8], second: &[u8]) -> Result<Command, CommandFault>
        ensures ok { IfOk result (λ c. c ≡ Swap (record { first = first.now; second = second.now })) }
        ensures out_of_range { result ≡ Err CommandFault.OutOfRange ↔ ((length first.now ≡ 0) ⊎ (255 < length first.now) ⊎ (length second.now ≡ 0) ⊎ (255 < length second.now) ⊎ (first.now ≡ second.now)) }
    {
        Command::of_parts(alloc, Op::Swap, first, second, [].as_slice())
    }

    /// A compare-and-set of the key; `OutOfRange` unless the key has 1 to 255 bytes, and each value at most 65,535.
    pub fn cas(
        alloc: Global,
        key: &[u8],
        expected: Option<&[u8]>,
        new: Option<&[u8]>,
    ) -> Result<Command, CommandFault>
        ensures ok { IfOk result (λ c. c ≡ Cas key.now (option_copied expected.entry) (option_copied new.entry)) }
        ensures out_of_range { result ≡ Err CommandFault.OutOfRange ↔ ¬ IsInRange (Cas key.now (option_copied expected.entry) (option_copied new.entry)) }
    {
        if !is_cas(key, expected, new) {
            return Err(CommandFault::OutOfRange);
        }
        match comparison_run(alloc, key, expected, new) {
            Err(_) => Err(CommandFault::Memory),
            Ok(run) => Ok(Command {
                op: Op::Cas,
                first: key.len() as u8,
                second: 0,
                run,
            }),
        }
    }

    /// The seal with this value; `OutOfRange` unless it has at most 65,535 bytes.
    pub fn seal(alloc: Global, value: &[u8]) -> Result<Command, CommandFault>
        ensures ok { IfOk result (λ c. c ≡ Seal value.now) }
        ensures out_of_range { result ≡ Err CommandFault.OutOfRange ↔ (most_value < length value.now) }
    {
        Command::of_parts(alloc, Op::Seal, [].as_slice(), [].as_slice(), value)
    }

    /// The command over many keys with this body; `OutOfRange` unless it is one.
    pub fn tx(alloc: Global, body: &[u8]) -> Result<Command, CommandFault>
        ensures ok { IfOk result (λ c. c ≡ Tx (items_in body.now)) }
        ensures out_of_range { result ≡ Err CommandFault.OutOfRange ↔ (is_tx body.now ≡ false) }
    {
        Command::of_parts(alloc, Op::Tx, [].as_slice(), [].as_slice(), body)
    }

    /// The command of a machine outside that touches these keys, with this body; `OutOfRange` unless each key has 1 to 255
    /// bytes, two differ, and the body has at most 65,535.
    pub fn opaque(
        alloc: Global,
        touching: &Touching<'_>,
        body: &[u8],
    ) -> Result<Command, CommandFault>
        ensures ok { IfOk result (λ c. c ≡ Opaque (touched touching.now) body.now) }
        ensures out_of_range { result ≡ Err CommandFault.OutOfRange ↔ ¬ IsInRange (Opaque (touched touching.now) body.now) }
    {
        match touching.second {
            None => Command::opaque_of(alloc, touching, [].as_slice(), body),
            Some(second) => {
                if second.is_empty() {
                    return Err(CommandFault::OutOfRange);
                }
                Command::opaque_of(alloc, touching, second, body)
            }
        }
    }

    // The opaque command whose second key, if it has one, has these bytes.
    fn opaque_of(
        alloc: Global,
        touching: &Touching<'_>,
        second: &[u8],
        body: &[u8],
    ) -> Result<Command, CommandFault>
        requires { key_if_any second.now ≡ option_copied touching.now.second }
        ensures ok { IfOk result (λ c. c ≡ Opaque (touched touching.now) body.now) }
        ensures out_of_range { result ≡ Err CommandFault.OutOfRange ↔ ¬ IsInRange (Opaque (touched touching.now) body.now) }
    {
        let op = asked_or_done(touching.reads);
        Command::of_parts(alloc, op, touching.first, second, body)
    }

    /// The command of these parts, which are copied into one run of bytes; `OutOfRange` if they are no command's.
    #[inline(always)]
    pub fn of_parts(
        alloc: Global,
        op: Op,
        first: &[u8],
        second: &[u8],
        body: &[u8],
    ) -> Result<Command, CommandFault>
        ensures ok { IfOk result (λ c. command_of (record { op = op; first = first.now; second = second.now; body = body.now }) ≡ Some c) }
        ensures out_of_range { result ≡ Err CommandFault.OutOfRange ↔ (command_of (record { op = op; first = first.now; second = second.now; body = body.now }) ≡ None) }
    {
        if !are_parts(op, first, second, body) {
            return Err(CommandFault::OutOfRange);
        }
        match joined(alloc, first, second, body) {
            Err(_) => Err(CommandFault::Memory),
            Ok(run) => Ok(Command {
                op,
                first: first.len() as u8,
                second: second.len() as u8,
                run,
            }),
        }
    }

    /// The command of the op whose keys have this many bytes, and stand with its body in this run, which is shared. None if
    /// these are no command's parts.
    #[inline(always)]
    pub fn from_parts(op: Op, run: Bytes, first: u8, second: u8) -> Option<Command>
        ensures short { length run < first + second → result ≡ None }
        ensures parts { first + second ≤ length run → result ≡ command_of (cut op run first second) }
    {
        if !are_cut(op, run.as_slice(), first as usize, second as usize) {
            return None;
        }
        Some(Command {
            op,
            first,
            second,
            run,
        })
    }

    /// As `from_parts`, for parts that are known to be a command's.
    #[inline(always)]
    pub fn from_valid_parts(op: Op, run: Bytes, first: u8, second: u8) -> Command
        requires long { first + second ≤ length run }
        requires parts { are_parts (cut op run first second) ≡ true }
        ensures { result ≡ command_in (cut op run first second) }
    {
        Command {
            op,
            first,
            second,
            run,
        }
    }

    /// The same command again, which shares its bytes.
    #[inline(always)]
    pub fn copy(&self, _alloc: Global) -> Result<Command, AllocError>
        ensures { IfOk result (λ c. c ≡ self.now) }
    {
        let run = self.run.clone()?;
        Ok(Command {
            op: self.op,
            first: self.first,
            second: self.second,
            run,
        })
    }

    /// What the command does.
    #[inline(always)]
    pub fn op(&self) -> Op
        ensures value { result ≡ (parts_of self.now).op }
        ensures fits { are_parts (parts_of self.now) ≡ true }
        ensures again { command_of (parts_of self.now) ≡ Some self.now }
    {
        self.op
    }

    /// The first key; no bytes if there is none.
    #[inline(always)]
    pub fn first(&self) -> &[u8]
        ensures value { result.now ≡ (parts_of self.now).first }
        ensures in_range { IsInRange self.now }
    {
        &self.run.as_slice()[..self.first as usize]
    }

    /// The second key; no bytes if there is none.
    #[inline(always)]
    pub fn second(&self) -> &[u8]
        ensures { result.now ≡ (parts_of self.now).second }
    {
        let first = self.first as usize;
        &self.run.as_slice()[first..first + self.second as usize]
    }

    /// The body: a put's or a seal's value, a comparison's two values, the items of a command over many keys, or what a machine
    /// outside is answered.
    #[inline(always)]
    pub fn body(&self) -> &[u8]
        ensures { result.now ≡ (parts_of self.now).body }
    {
        &self.run.as_slice()[self.first as usize + self.second as usize..]
    }

    /// Both keys and the body, one after the other.
    #[inline(always)]
    pub fn as_slice(&self) -> &[u8]
        ensures { result.now ≡ (parts_of self.now).first ++ (parts_of self.now).second ++ (parts_of self.now).body }
    {
        self.run.as_slice()
    }

    /// What the command says.
    #[inline(always)]
    pub fn view(&self) -> CommandView<'_>
        ensures said { means result ≡ self.now }
        ensures in_range { IsInRange (means result) }
    {
        match self.op {
            Op::Noop => CommandView::Noop,
            Op::Get => CommandView::Get(self.first()),
            Op::Put => CommandView::Put(self.first(), self.body()),
            Op::Del => CommandView::Del(self.first()),
            Op::Swap => CommandView::Swap(self.first(), self.second()),
            Op::Cas => {
                let (expected, new) = expected_and_new(self.body());
                CommandView::Cas(self.first(), expected, new)
            }
            Op::Ask => CommandView::Opaque(self.touching(true), self.body()),
            Op::Act => CommandView::Opaque(self.touching(false), self.body()),
            Op::Seal => CommandView::Seal(self.body()),
            Op::Tx => CommandView::Tx(self.body()),
        }
    }

    fn touching(&self, reads: bool) -> Touching<'_>
        ensures first { result.first.now ≡ (parts_of self.now).first }
        ensures second { option_copied result.second ≡ key_if_any (parts_of self.now).second }
        ensures reads { result.reads ≡ reads }
    {
        Touching {
            first: self.first(),
            second: key_if_any(self.second()),
            reads,
        }
    }

    /// What a command over many keys says of each; no other has items.
    #[inline(always)]
    pub fn items(&self) -> Items<'_>
        ensures { result ≡ items_of self.now }
    {
        if self.is_many() {
            Items::of(self.body())
        } else {
            Items::none()
        }
    }

    /// The keys that the command names, in order, but for those of items: none for a no-op or a seal, two for a swap, one or two for
    /// a machine's, else one.
    #[inline(always)]
    pub fn keys(&self) -> (Option<&[u8]>, Option<&[u8]>)
        ensures first { option_copied result.0 ≡ key_of self.now }
        ensures second { option_copied result.1 ≡ second_key_of self.now }
    {
        (key_if_any(self.first()), key_if_any(self.second()))
    }

    /// Whether the command names the key.
    #[inline(always)]
    pub fn names(&self, key: &[u8]) -> bool
        ensures { result ≡ has_key key.now (keys_of self.now) }
    {
        is_key(self.first(), key) || is_key(self.second(), key) || has_item(self.items(), key)
    }

    /// Whether the command only reads: it is a get, a machine's that says so, or one over many keys that writes none.
    #[inline(always)]
    pub fn only_reads(&self) -> bool
        ensures { result ≡ only_reads self.now }
    {
        self.op.reads() || (self.is_many() && none_writes(self.items()))
    }

    /// Whether the command is a swap.
    #[inline(always)]
    pub fn is_swap(&self) -> bool
        ensures { result ≡ is_swap self.now }
    {
        matches!(self.op, Op::Swap)
    }

    /// Whether neither version 1 nor version 2 has the command: it is a comparison, a seal, a command of a machine
    /// outside, or one over many keys.
    #[inline(always)]
    pub fn is_late(&self) -> bool
        ensures { result ≡ is_late self.now }
    {
        matches!(self.op, Op::Cas | Op::Ask | Op::Act | Op::Seal | Op::Tx)
    }

    /// Whether the command is a put of more than 1,024 bytes, which neither version 1 nor version 2 has.
    #[inline(always)]
    pub fn is_long(&self) -> bool
        ensures { result ≡ is_long self.now }
    {
        matches!(self.op, Op::Put) && Value::LONGEST_EARLY < self.body().len()
    }

    /// Whether the command is over many keys.
    #[inline(always)]
    pub fn is_many(&self) -> bool
        ensures value { result ≡ is_many self.now }
        ensures body { is_many self.now ≡ true → is_tx (parts_of self.now).body ≡ true }
    {
        matches!(self.op, Op::Tx)
    }

    /// Whether the command is a seal.
    #[inline(always)]
    pub fn is_seal(&self) -> bool
        ensures { result ≡ is_seal self.now }
    {
        matches!(self.op, Op::Seal)
    }

    /// Whether the command is the no-op.
    #[inline(always)]
    pub fn is_noop(&self) -> bool
        ensures { result ≡ is_noop self.now }
    {
        matches!(self.op, Op::Noop)
    }

    /// Whether both are one command.
    #[inline(always)]
    pub fn is_same(&self, other: &Command) -> bool
        ensures test { result ≡ same_command self.now other.now }
        ensures same { IsTrue result ↔ (self.now ≡ other.now) }
    {
        self.is_alike(other) && self.has_bytes_of(other)
    }

    // Whether both do one thing, with keys of the same lengths.
    #[inline(always)]
    fn is_alike(&self, other: &Command) -> bool
        ensures in_range { IsInRange self.now × IsInRange other.now }
        ensures alike { IsTrue result ↔ (((parts_of self.now).op ≡ (parts_of other.now).op) × (length (parts_of self.now).first ≡ length (parts_of other.now).first) × (length (parts_of self.now).second ≡ length (parts_of other.now).second)) }
    {
        is_same_op(self.op, other.op) && (self.first == other.first && self.second == other.second)
    }

    #[inline(always)]
    fn has_bytes_of(&self, other: &Command) -> bool
        ensures { IsTrue result ↔ ((parts_of self.now).first ++ (parts_of self.now).second ++ (parts_of self.now).body ≡ (parts_of other.now).first ++ (parts_of other.now).second ++ (parts_of other.now).body) }
    {
        self.as_slice() == other.as_slice()
    }
}

// Whether they are a comparison's.
fn is_cas(key: &[u8], expected: Option<&[u8]>, new: Option<&[u8]>) -> bool
    ensures { result ≡ (is_key_len (length key.now) && (is_short (option_copied expected.entry) && is_short (option_copied new.entry))) }
{
    is_key_len(key.len()) && (is_short(expected) && is_short(new))
}

fn asked_or_done(reads: bool) -> Op
    ensures { result ≡ (if reads then Op.Ask else Op.Act) }
{
    if reads { Op::Ask } else { Op::Act }
}

// Whether they are a command's.
#[inline(always)]
fn are_parts(op: Op, first: &[u8], second: &[u8], body: &[u8]) -> bool
    ensures { result ≡ are_parts (record { op = op; first = first.now; second = second.now; body = body.now }) }
{
    lengths_fit(op, first, second, body) && (!is_twice(first, second) && is_said(op, body))
}

#[inline(always)]
fn lengths_fit(op: Op, first: &[u8], second: &[u8], body: &[u8]) -> bool
    ensures { result ≡ lengths_fit (record { op = op; first = first.now; second = second.now; body = body.now }) }
{
    op.first_fits(first.len()) && (op.second_fits(second.len()) && op.body_fits(body.len()))
}

// Whether there is a second key, and it is the first one once more.
#[inline(always)]
fn is_twice(first: &[u8], second: &[u8]) -> bool
    ensures { result ≡ is_twice first.now second.now }
{
    !second.is_empty() && second == first
}

// Whether an op of this kind has such bodies.
#[inline(always)]
fn is_said(op: Op, body: &[u8]) -> bool
    ensures { result ≡ body_said op body.now }
{
    match op {
        Op::Cas => is_comparison(body),
        Op::Tx => is_tx(body),
        Op::Noop | Op::Get | Op::Put | Op::Del | Op::Swap | Op::Ask | Op::Act | Op::Seal => true,
    }
}

// Whether keys of so many bytes stand in the run, and they and the rest are a command's.
#[inline(always)]
fn are_cut(op: Op, run: &[u8], first: usize, second: usize) -> bool
    requires { (first ≤ 255) × (second ≤ 255) }
    ensures { IsTrue result ↔ ((first + second ≤ length run.now) × IsTrue (are_parts (cut op run.now first second))) }
{
    if run.len() < first + second {
        return false;
    }
    are_parts(
        op,
        &run[..first],
        &run[first..first + second],
        &run[first + second..],
    )
}

#[inline(always)]
fn key_if_any(bytes: &[u8]) -> Option<&[u8]>
    ensures { option_copied result ≡ key_if_any bytes.now }
{
    if bytes.is_empty() { None } else { Some(bytes) }
}

// Whether the bytes, if there are any, are the key.
#[inline(always)]
fn is_key(bytes: &[u8], key: &[u8]) -> bool
    ensures { result ≡ has_key key.now (listed (key_if_any bytes.now)) }
{
    !bytes.is_empty() && key == bytes
}

// All three, one after the other.
fn joined(alloc: Global, first: &[u8], second: &[u8], body: &[u8]) -> Result<Bytes, AllocError>
    requires { (length first.now ≤ 255) × (length second.now ≤ 255) × (length body.now ≤ 131080) }
    ensures { IfOk result (λ b. b ≡ first.now ++ second.now ++ body.now) }
{
    let mut run = Vec::with_capacity(alloc, first.len() + second.len() + body.len())?;
    run.extend_from_slice(first)?;
    run.extend_from_slice(second)?;
    run.extend_from_slice(body)?;
    Ok(Bytes::from_vec(run)?)
}

/// A command is its parts, which report its keys and whether it only reads.
pub fn parts_law()
    ensures { PartsLaw }
{}
