//! From the words of a line to what it says: `replicas N`, and the lines that scripts for a replay and for a run share.

ghost use Rattle.std.specs.Prelude.{◌≡◌, ◌∷◌, Some, IfOk, map, option_map, option_and_then};
ghost use Rattle.ep_base.specs.Quorums.{size as size_with};
ghost use Rattle.ep_script.specs.declared.agenda_line.AgendaLine.TheVariants.{GiveUp, Recover};
ghost use Rattle.ep_script.specs.Parts.{words_of};
ghost use Rattle.ep_script.specs.Grammar.{faults_of, size_word, size_of, proposer, propose_of, replica_of, spared_of, sparing_of, place_of, agenda_line};

use crate::agenda_line::AgendaLine;
use crate::numbers::number;
use crate::operands::{count, place, read_command, replica};
use crate::words::{is_word, next_word};
use ep_base::{ReplicaId, Size, Version, VersionKind};
use std::alloc::{AllocError, Global};

fn size_with_count(count: u64) -> Option<Size>
    ensures { result ≡ faults_of count }
{
    match count {
        3 => Size::new(3).ok(),
        5 => Size::new(5).ok(),
        7 => Size::new(7).ok(),
        _ => None,
    }
}

fn size_operand(words: &[u8]) -> Option<Size>
    ensures { result ≡ size_word (words_of words.now) }
{
    let (word, rest) = next_word(words)?;
    if next_word(rest).is_some() {
        return None;
    }
    size_with_count(number(word)?)
}

/// The size that a line `replicas N` says; none for any other line.
pub(crate) fn read_size(words: &[u8]) -> Option<Size>
    ensures { result ≡ size_of (words_of words.now) }
{
    let Some((first, rest)) = next_word(words) else {
        return None;
    };
    if is_word(first, b"replicas") {
        size_operand(rest)
    } else {
        None
    }
}

/// The replica that proposes, where this one is to be spared, or the usual one.
fn proposer(size: Size, spared: &Option<ReplicaId>, word: &[u8]) -> Option<ReplicaId>
    ensures { result ≡ option_and_then (proposer spared.now) (replica_of (size_with size) word.now) }
{
    let replica = replica(size, word)?;
    match spared {
        None => Some(replica),
        Some(spared) => other_than(*spared, replica),
    }
}

/// The replica, unless it is this one.
fn other_than(spared: ReplicaId, replica: ReplicaId) -> Option<ReplicaId>
    ensures { result ≡ proposer (Some spared) replica }
{
    if spared == replica {
        return None;
    }
    Some(replica)
}

fn propose(
    alloc: Global,
    size: Size,
    version: Version,
    spared: Option<ReplicaId>,
    words: &[u8],
) -> Result<Option<AgendaLine>, AllocError>
    ensures { IfOk result (λ l. l ≡ propose_of (size_with size) version spared (words_of words.now)) }
{
    let Some((first, after)) = next_word(words) else {
        return Ok(None);
    };
    let Some((second, rest)) = next_word(after) else {
        return Ok(None);
    };
    let Some(replica) = proposer(size, &spared, first) else {
        return Ok(None);
    };
    let Some(client) = count(second) else {
        return Ok(None);
    };
    let Some(command) = read_command(alloc, version, rest)? else {
        return Ok(None);
    };
    Ok(Some(AgendaLine::Propose {
        replica,
        client,
        command,
        spared,
    }))
}

/// A proposal that names the replica to be spared.
fn spared(
    alloc: Global,
    size: Size,
    version: Version,
    words: &[u8],
) -> Result<Option<AgendaLine>, AllocError>
    ensures { IfOk result (λ l. l ≡ spared_of (size_with size) version (words_of words.now)) }
{
    let Some((first, after)) = next_word(words) else {
        return Ok(None);
    };
    let Some((second, rest)) = next_word(after) else {
        return Ok(None);
    };
    if !is_word(second, b"propose") {
        return Ok(None);
    }
    let Some(replica) = replica(size, first) else {
        return Ok(None);
    };
    propose(alloc, size, version, Some(replica), rest)
}

/// The replica that a proposal spares, if the version has that.
fn sparing(
    alloc: Global,
    size: Size,
    version: Version,
    words: &[u8],
) -> Result<Option<AgendaLine>, AllocError>
    ensures { IfOk result (λ l. l ≡ sparing_of (size_with size) version (words_of words.now)) }
{
    match version.kind() {
        VersionKind::V1 | VersionKind::V2 => Ok(None),
        VersionKind::V3(_) => spared(alloc, size, version, words),
    }
}

fn give_up(size: Size, version: Version, words: &[u8]) -> Option<AgendaLine>
    ensures { result ≡ option_map (λ p. GiveUp p.0 p.1) (place_of (size_with size) version (words_of words.now)) }
{
    let (replica, instance) = place(size, version, words)?;
    Some(AgendaLine::GiveUp(replica, instance))
}

fn recover(size: Size, version: Version, words: &[u8]) -> Option<AgendaLine>
    ensures { result ≡ option_map (λ p. Recover p.0 p.1) (place_of (size_with size) version (words_of words.now)) }
{
    let (replica, instance) = place(size, version, words)?;
    Some(AgendaLine::Recover(replica, instance))
}

/// What the first word and the rest of a line ask a replica to do; none for any other line, and where they are refused.
pub(crate) fn read_agenda_line(
    alloc: Global,
    size: Size,
    version: Version,
    first: &[u8],
    rest: &[u8],
) -> Result<Option<AgendaLine>, AllocError>
    ensures { IfOk result (λ l. l ≡ agenda_line (size_with size) version (first.now ∷ words_of rest.now)) }
{
    if is_word(first, b"propose") {
        return propose(alloc, size, version, None, rest);
    }
    if is_word(first, b"sparing") {
        return sparing(alloc, size, version, rest);
    }
    if is_word(first, b"giveup") {
        return Ok(give_up(size, version, rest));
    }
    if is_word(first, b"recover") {
        return Ok(recover(size, version, rest));
    }
    Ok(None)
}
