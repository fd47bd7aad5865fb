//! From the words of a line to what it says in a script for a replay.

ghost use Rattle.std.specs.Prelude.{◌≡◌, [], ◌∷◌, IfOk, map, option_map};
ghost use Rattle.ep_base.specs.Quorums.{size as size_with};
ghost use Rattle.ep_script.specs.declared.line.Line.TheVariants.{Agenda, Execute};
ghost use Rattle.ep_script.specs.Parts.{words_of};
ghost use Rattle.ep_script.specs.Grammar.{counts_after, deliver_of, flush_of, place_of, agenda_line, replay_line};

use crate::line::Line;
use crate::messages::Messages;
use crate::operands::{count, place};
use crate::reading::read_agenda_line;
use crate::words::{is_word, next_word};
use ep_base::{Size, Version};
use std::alloc::{AllocError, Global};

/// The line that these words say; none where they are refused.
pub(crate) fn read_line(
    alloc: Global,
    size: Size,
    version: Version,
    words: &[u8],
) -> Result<Option<Line>, AllocError>
    ensures { IfOk result (λ l. l ≡ replay_line (size_with size) version (words_of words.now)) }
{
    let Some((first, rest)) = next_word(words) else {
        return Ok(None);
    };
    if is_word(first, b"execute") {
        return Ok(execute(size, version, rest));
    }
    if is_word(first, b"deliver") {
        return deliver(alloc, rest);
    }
    if is_word(first, b"flush") {
        return Ok(flush(rest));
    }
    shared(alloc, size, version, first, rest)
}

fn shared(
    alloc: Global,
    size: Size,
    version: Version,
    first: &[u8],
    rest: &[u8],
) -> Result<Option<Line>, AllocError>
    ensures { IfOk result (λ l. l ≡ option_map (λ a. Agenda a) (agenda_line (size_with size) version (first.now ∷ words_of rest.now))) }
{
    let Some(asked) = read_agenda_line(alloc, size, version, first, rest)? else {
        return Ok(None);
    };
    Ok(Some(Line::Agenda(asked)))
}

fn execute(size: Size, version: Version, words: &[u8]) -> Option<Line>
    ensures { result ≡ option_map (λ p. Execute p.0 p.1) (place_of (size_with size) version (words_of words.now)) }
{
    let (replica, instance) = place(size, version, words)?;
    Some(Line::Execute(replica, instance))
}

fn counts(alloc: Global, words: &[u8]) -> Result<Option<Messages>, AllocError>
    ensures { IfOk result (λ m. m ≡ counts_after [] (words_of words.now)) }
{
    let mut messages = Messages::new(alloc);
    let mut rest = words;
    while let Some((word, more)) = next_word(rest) {
        let Some(number) = count(word) else {
            return Ok(None);
        };
        messages.push(number)?;
        rest = more;
    }
    Ok(Some(messages))
}

fn deliver(alloc: Global, words: &[u8]) -> Result<Option<Line>, AllocError>
    ensures { IfOk result (λ l. l ≡ deliver_of (words_of words.now)) }
{
    if next_word(words).is_none() {
        return Ok(None);
    }
    let Some(messages) = counts(alloc, words)? else {
        return Ok(None);
    };
    Ok(Some(Line::Deliver(messages)))
}

fn flush(words: &[u8]) -> Option<Line>
    ensures { result ≡ flush_of (words_of words.now) }
{
    match next_word(words) {
        None => Some(Line::Flush),
        Some(_) => None,
    }
}
