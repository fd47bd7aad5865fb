//! Numbers, names and commands within a line.

ghost use Rattle.std.specs.Prelude.{◌≡◌, ◌≤◌, [], ◌∷◌, Some, IfOk, IfSome, map};
ghost use Rattle.std.specs.Option.{option_copied};
ghost use Rattle.ep_base.specs.Commands.{Cas};
ghost use Rattle.ep_base.specs.CommandParts.{IsShort};
ghost use Rattle.ep_base.specs.Quorums.{size as size_with};
ghost use Rattle.ep_base.specs.Instances.{instance_of, highest_number};
ghost use Rattle.ep_base.specs.Versions.{highest_in};
ghost use Rattle.ep_script.specs.Parts.{words_of};
ghost use Rattle.ep_script.specs.Word.{bytes_of as read_bytes};
ghost use Rattle.ep_script.specs.Grammar.{number_in as number_between, count_of, replica_of, instance_parts, parts_of, key_of, value_of, key_word, value_word, key_only, get_of, put_of, del_of, swap_with, swap_of, option_word, cas_of, opaque_of, opaque_with_two, seal_of, late_command_of, any_command_of, command_of, place_of};

use crate::numbers::{number, number_in};
use crate::reading_tx::tx;
use crate::word::{read_word, spells_itself};
use crate::words::{has_dot, is_word, next_word, split_dot};
use ep_base::{Command, CommandFault, InstanceId, Key, ReplicaId, Size, Touching, Value, Version};
use std::alloc::{AllocError, Global};

/// A number from 1 to 4,294,967,295: a client, a message or a place.
pub(crate) fn count(word: &[u8]) -> Option<u32>
    ensures { result ≡ count_of word.now }
{
    let count = number_in(word, 1, 4_294_967_295)?;
    Some(count as u32)
}

/// A replica of a cluster of this size.
pub(crate) fn replica(size: Size, word: &[u8]) -> Option<ReplicaId>
    ensures { result ≡ replica_of (size_with size) word.now }
{
    let index = number(word)?;
    let count = size.count();
    if index < u64::from(count) {
        Some(made_replica(index as u8))
    } else {
        None
    }
}

fn made_replica(index: u8) -> ReplicaId
    requires { index ≤ 6 }
    ensures { result ≡ index }
{
    match ReplicaId::new(index) {
        Ok(replica) => replica,
        Err(_) => unreachable!(),
    }
}

/// A number that an instance has in this version.
#[tactic(auto, using(ep_base::proofs::Versions::highest_low))]
fn instance_number(version: Version, word: &[u8]) -> Option<u16>
    ensures value { result ≡ number_between 1 (highest_in version) word.now }
    ensures in_range { IfSome result (λ i. (1 ≤ i) × (i ≤ highest_number)) }
{
    let number = number_in(word, 1, version.highest_number() as u64)?;
    Some(number as u16)
}

fn made_instance(leader: ReplicaId, number: u16) -> InstanceId
    requires low { 1 ≤ number }
    requires high { number ≤ highest_number }
    ensures { result ≡ instance_of leader number }
{
    match InstanceId::new(leader, number) {
        Ok(instance) => instance,
        Err(_) => unreachable!(),
    }
}

fn instance(size: Size, version: Version, word: &[u8]) -> Option<InstanceId>
    ensures { result ≡ instance_parts (size_with size) version (parts_of word.now) }
{
    let (leader, number) = split_dot(word)?;
    if has_dot(number) {
        return None;
    }
    let leader = replica(size, leader)?;
    let number = instance_number(version, number)?;
    Some(made_instance(leader, number))
}

/// A replica of a cluster of this size, and an instance of one of its replicas that this version has.
pub(crate) fn place(size: Size, version: Version, words: &[u8]) -> Option<(ReplicaId, InstanceId)>
    ensures { result ≡ place_of (size_with size) version (words_of words.now) }
{
    let (first, after) = next_word(words)?;
    let (second, rest) = next_word(after)?;
    if next_word(rest).is_some() {
        return None;
    }
    let replica = replica(size, first)?;
    let instance = instance(size, version, second)?;
    Some((replica, instance))
}

/// A key.
pub(crate) fn read_key(alloc: Global, word: &[u8]) -> Result<Option<Key>, AllocError>
    ensures { IfOk result (λ k. k ≡ key_word word.now) }
{
    if spells_itself(word) {
        return key(alloc, word);
    }
    let Some(bytes) = read_word(alloc, word)? else {
        return Ok(None);
    };
    key(alloc, bytes.as_slice())
}

fn key(alloc: Global, bytes: &[u8]) -> Result<Option<Key>, AllocError>
    ensures { IfOk result (λ k. k ≡ key_of bytes.now) }
{
    match Key::new(alloc, bytes) {
        Ok(key) => Ok(Some(key)),
        Err(CommandFault::OutOfRange) => Ok(None),
        Err(CommandFault::Memory) => Err(AllocError),
    }
}

/// A value.
pub(crate) fn read_value(alloc: Global, word: &[u8]) -> Result<Option<Value>, AllocError>
    ensures { IfOk result (λ v. v ≡ value_word word.now) }
{
    if spells_itself(word) {
        return value(alloc, word);
    }
    let Some(bytes) = read_word(alloc, word)? else {
        return Ok(None);
    };
    value(alloc, bytes.as_slice())
}

fn value(alloc: Global, bytes: &[u8]) -> Result<Option<Value>, AllocError>
    ensures { IfOk result (λ v. v ≡ value_of bytes.now) }
{
    match Value::new(alloc, bytes) {
        Ok(value) => Ok(Some(value)),
        Err(CommandFault::OutOfRange) => Ok(None),
        Err(CommandFault::Memory) => Err(AllocError),
    }
}

fn one_key(alloc: Global, words: &[u8]) -> Result<Option<Key>, AllocError>
    ensures { IfOk result (λ k. k ≡ key_only (words_of words.now)) }
{
    let Some((first, rest)) = next_word(words) else {
        return Ok(None);
    };
    if next_word(rest).is_some() {
        return Ok(None);
    }
    read_key(alloc, first)
}

fn get(alloc: Global, words: &[u8]) -> Result<Option<Command>, AllocError>
    ensures { IfOk result (λ c. c ≡ get_of (words_of words.now)) }
{
    let Some(key) = one_key(alloc, words)? else {
        return Ok(None);
    };
    match Command::get(alloc, key.as_slice()) {
        Ok(command) => Ok(Some(command)),
        Err(CommandFault::OutOfRange) => unreachable!(),
        Err(CommandFault::Memory) => Err(AllocError),
    }
}

fn del(alloc: Global, words: &[u8]) -> Result<Option<Command>, AllocError>
    ensures { IfOk result (λ c. c ≡ del_of (words_of words.now)) }
{
    let Some(key) = one_key(alloc, words)? else {
        return Ok(None);
    };
    match Command::del(alloc, key.as_slice()) {
        Ok(command) => Ok(Some(command)),
        Err(CommandFault::OutOfRange) => unreachable!(),
        Err(CommandFault::Memory) => Err(AllocError),
    }
}

fn put(alloc: Global, words: &[u8]) -> Result<Option<Command>, AllocError>
    ensures { IfOk result (λ c. c ≡ put_of (words_of words.now)) }
{
    let Some((first, after)) = next_word(words) else {
        return Ok(None);
    };
    let Some((second, rest)) = next_word(after) else {
        return Ok(None);
    };
    if next_word(rest).is_some() {
        return Ok(None);
    }
    put_words(alloc, first, second)
}

fn put_words(alloc: Global, key: &[u8], value: &[u8]) -> Result<Option<Command>, AllocError>
    ensures { IfOk result (λ c. c ≡ put_of (key.now ∷ value.now ∷ [])) }
{
    if !spells_itself(key) {
        return put_spelled(alloc, key, value);
    }
    if !spells_itself(value) {
        return put_spelled(alloc, key, value);
    }
    put_plain(alloc, key, value)
}

// The put of words that spell themselves.
fn put_plain(alloc: Global, key: &[u8], value: &[u8]) -> Result<Option<Command>, AllocError>
    requires key { read_bytes key.now ≡ Some key.now }
    requires value { read_bytes value.now ≡ Some value.now }
    ensures { IfOk result (λ c. c ≡ put_of (key.now ∷ value.now ∷ [])) }
{
    match Command::put(alloc, key, value) {
        Ok(command) => Ok(Some(command)),
        Err(CommandFault::OutOfRange) => Ok(None),
        Err(CommandFault::Memory) => Err(AllocError),
    }
}

fn put_spelled(alloc: Global, key: &[u8], value: &[u8]) -> Result<Option<Command>, AllocError>
    ensures { IfOk result (λ c. c ≡ put_of (key.now ∷ value.now ∷ [])) }
{
    let Some(key) = read_key(alloc, key)? else {
        return Ok(None);
    };
    let Some(value) = read_value(alloc, value)? else {
        return Ok(None);
    };
    match Command::put(alloc, key.as_slice(), value.as_slice()) {
        Ok(command) => Ok(Some(command)),
        Err(CommandFault::OutOfRange) => unreachable!(),
        Err(CommandFault::Memory) => Err(AllocError),
    }
}

fn swap(alloc: Global, words: &[u8]) -> Result<Option<Command>, AllocError>
    ensures { IfOk result (λ c. c ≡ swap_of (words_of words.now)) }
{
    let Some((first, after)) = next_word(words) else {
        return Ok(None);
    };
    let Some((second, rest)) = next_word(after) else {
        return Ok(None);
    };
    if next_word(rest).is_some() {
        return Ok(None);
    }
    let Some(first) = read_key(alloc, first)? else {
        return Ok(None);
    };
    let Some(second) = read_key(alloc, second)? else {
        return Ok(None);
    };
    swapped(alloc, &first, &second)
}

// The swap of both keys; none where they are one.
fn swapped(alloc: Global, first: &Key, second: &Key) -> Result<Option<Command>, AllocError>
    ensures { IfOk result (λ c. c ≡ swap_with first.now second.now) }
{
    if first.is_same(second) {
        return Ok(None);
    }
    match Command::swap(alloc, first.as_slice(), second.as_slice()) {
        Ok(command) => Ok(Some(command)),
        Err(CommandFault::OutOfRange) => unreachable!(),
        Err(CommandFault::Memory) => Err(AllocError),
    }
}

/// A value, or that there is none.
pub(crate) fn read_option(alloc: Global, word: &[u8]) -> Result<Option<Option<Value>>, AllocError>
    ensures { IfOk result (λ v. v ≡ option_word word.now) }
{
    if is_word(word, b"%!") {
        return Ok(Some(None));
    }
    let Some(value) = read_value(alloc, word)? else {
        return Ok(None);
    };
    Ok(Some(Some(value)))
}

fn cas(alloc: Global, words: &[u8]) -> Result<Option<Command>, AllocError>
    ensures { IfOk result (λ c. c ≡ cas_of (words_of words.now)) }
{
    let Some((first, after)) = next_word(words) else {
        return Ok(None);
    };
    let Some((second, others)) = next_word(after) else {
        return Ok(None);
    };
    let Some((third, rest)) = next_word(others) else {
        return Ok(None);
    };
    if next_word(rest).is_some() {
        return Ok(None);
    }
    let Some(key) = read_key(alloc, first)? else {
        return Ok(None);
    };
    let Some(expected) = read_option(alloc, second)? else {
        return Ok(None);
    };
    let Some(new) = read_option(alloc, third)? else {
        return Ok(None);
    };
    compared(alloc, &key, &expected, &new)
}

fn compared(
    alloc: Global,
    key: &Key,
    expected: &Option<Value>,
    new: &Option<Value>,
) -> Result<Option<Command>, AllocError>
    ensures { IfOk result (λ c. c ≡ Some (Cas key.now expected.now new.now)) }
{
    match Command::cas(alloc, key.as_slice(), bytes_of(expected), bytes_of(new)) {
        Ok(command) => Ok(Some(command)),
        Err(CommandFault::OutOfRange) => unreachable!(),
        Err(CommandFault::Memory) => Err(AllocError),
    }
}

fn bytes_of(value: &Option<Value>) -> Option<&[u8]>
    ensures value { option_copied result ≡ value.now }
    ensures short { IsShort value.now }
{
    match value {
        None => None,
        Some(value) => Some(value.as_slice()),
    }
}

// A command of a machine outside, which only reads or doesn't.
fn opaque(alloc: Global, reads: bool, words: &[u8]) -> Result<Option<Command>, AllocError>
    ensures { IfOk result (λ c. c ≡ opaque_of reads (words_of words.now)) }
{
    let Some((first, after)) = next_word(words) else {
        return Ok(None);
    };
    let Some((second, others)) = next_word(after) else {
        return Ok(None);
    };
    match next_word(others) {
        None => opaque_one(alloc, reads, first, second),
        Some((third, rest)) => {
            if next_word(rest).is_some() {
                return Ok(None);
            }
            opaque_two(alloc, reads, first, second, third)
        }
    }
}

fn opaque_one(
    alloc: Global,
    reads: bool,
    key: &[u8],
    body: &[u8],
) -> Result<Option<Command>, AllocError>
    ensures { IfOk result (λ c. c ≡ opaque_of reads (key.now ∷ body.now ∷ [])) }
{
    let Some(key) = read_key(alloc, key)? else {
        return Ok(None);
    };
    let Some(body) = read_value(alloc, body)? else {
        return Ok(None);
    };
    let own = Touching {
        first: key.as_slice(),
        second: None,
        reads,
    };
    match Command::opaque(alloc, &own, body.as_slice()) {
        Ok(command) => Ok(Some(command)),
        Err(CommandFault::OutOfRange) => unreachable!(),
        Err(CommandFault::Memory) => Err(AllocError),
    }
}

fn opaque_two(
    alloc: Global,
    reads: bool,
    first: &[u8],
    second: &[u8],
    body: &[u8],
) -> Result<Option<Command>, AllocError>
    ensures { IfOk result (λ c. c ≡ opaque_of reads (first.now ∷ second.now ∷ body.now ∷ [])) }
{
    let Some(first) = read_key(alloc, first)? else {
        return Ok(None);
    };
    let Some(second) = read_key(alloc, second)? else {
        return Ok(None);
    };
    let Some(body) = read_value(alloc, body)? else {
        return Ok(None);
    };
    touched_both(alloc, reads, &first, &second, &body)
}

// The command on both keys; none where they are one.
fn touched_both(
    alloc: Global,
    reads: bool,
    one: &Key,
    other: &Key,
    body: &Value,
) -> Result<Option<Command>, AllocError>
    ensures { IfOk result (λ c. c ≡ opaque_with_two reads one.now other.now body.now) }
{
    if one.is_same(other) {
        return Ok(None);
    }
    let own = Touching {
        first: one.as_slice(),
        second: Some(other.as_slice()),
        reads,
    };
    match Command::opaque(alloc, &own, body.as_slice()) {
        Ok(command) => Ok(Some(command)),
        Err(CommandFault::OutOfRange) => unreachable!(),
        Err(CommandFault::Memory) => Err(AllocError),
    }
}

fn seal(alloc: Global, words: &[u8]) -> Result<Option<Command>, AllocError>
    ensures { IfOk result (λ c. c ≡ seal_of (words_of words.now)) }
{
    let Some((first, rest)) = next_word(words) else {
        return Ok(None);
    };
    if next_word(rest).is_some() {
        return Ok(None);
    }
    let Some(value) = read_value(alloc, first)? else {
        return Ok(None);
    };
    match Command::seal(alloc, value.as_slice()) {
        Ok(command) => Ok(Some(command)),
        Err(CommandFault::OutOfRange) => unreachable!(),
        Err(CommandFault::Memory) => Err(AllocError),
    }
}

// A command that version 3 alone knows.
fn late_command(alloc: Global, words: &[u8]) -> Result<Option<Command>, AllocError>
    ensures { IfOk result (λ c. c ≡ late_command_of (words_of words.now)) }
{
    let Some((first, rest)) = next_word(words) else {
        return Ok(None);
    };
    if is_word(first, b"cas") {
        return cas(alloc, rest);
    }
    if is_word(first, b"ask") {
        return opaque(alloc, true, rest);
    }
    if is_word(first, b"act") {
        return opaque(alloc, false, rest);
    }
    if is_word(first, b"seal") {
        return seal(alloc, rest);
    }
    if is_word(first, b"tx") {
        return tx(alloc, rest);
    }
    Ok(None)
}

// A command of any version.
fn any_command(alloc: Global, words: &[u8]) -> Result<Option<Command>, AllocError>
    ensures { IfOk result (λ c. c ≡ any_command_of (words_of words.now)) }
{
    let Some((first, rest)) = next_word(words) else {
        return Ok(None);
    };
    if is_word(first, b"get") {
        return get(alloc, rest);
    }
    if is_word(first, b"put") {
        return put(alloc, rest);
    }
    if is_word(first, b"del") {
        return del(alloc, rest);
    }
    if is_word(first, b"swap") {
        return swap(alloc, rest);
    }
    late_command(alloc, words)
}

/// A command that this version knows.
pub(crate) fn read_command(
    alloc: Global,
    version: Version,
    words: &[u8],
) -> Result<Option<Command>, AllocError>
    ensures { IfOk result (λ c. c ≡ command_of version (words_of words.now)) }
{
    let Some(command) = any_command(alloc, words)? else {
        return Ok(None);
    };
    if version.knows(&command) {
        Ok(Some(command))
    } else {
        Ok(None)
    }
}
