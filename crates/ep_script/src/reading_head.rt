//! From the words of a line to what it says in the head of a script, behind `replicas N`.

ghost use Rattle.std.specs.Prelude.{◌≡◌, ◌≤◌, IfOk, IfSome, option_map, codes};
ghost use Rattle.ep_script.specs.Fits.{IsOfOpening};
ghost use Rattle.ep_script.specs.declared.opening_line.OpeningLine.TheVariants.{Since};
ghost use Rattle.ep_script.specs.Parts.{words_of};
ghost use Rattle.ep_script.specs.Grammar.{count_of, generation_word, generation_of, starts_with, is_opening, since_number, since_of, entry_of, opening_of};

use crate::numbers::long_number;
use crate::opening_line::OpeningLine;
use crate::operands::{count, read_key, read_value};
use crate::words::{is_word, next_word};
use ep_base::Generation;
use std::alloc::{AllocError, Global};

/// The greatest stamp but one, which leaves clocks one to go on to.
const LATEST: u64 = 281_474_976_710_654;

/// Whether the line is one of a generation.
pub(crate) fn is_generation(words: &[u8]) -> bool
    ensures { result ≡ starts_with (codes "generation") (words_of words.now) }
{
    match next_word(words) {
        None => false,
        Some((first, _)) => is_word(first, b"generation"),
    }
}

/// The generation that a line `generation G` says; none for any other line.
pub(crate) fn read_generation(words: &[u8]) -> Option<Generation>
    ensures { result ≡ generation_of (words_of words.now) }
{
    let Some((first, rest)) = next_word(words) else {
        return None;
    };
    if is_word(first, b"generation") {
        generation_operand(rest)
    } else {
        None
    }
}

fn generation_operand(words: &[u8]) -> Option<Generation>
    ensures { result ≡ generation_word (words_of words.now) }
{
    let (word, rest) = next_word(words)?;
    if next_word(rest).is_some() {
        return None;
    }
    generation(word)
}

fn generation(word: &[u8]) -> Option<Generation>
    ensures { result ≡ count_of word.now }
{
    let number = count(word)?;
    Generation::new(number).ok()
}

/// Whether the line is one of what replicas open with.
pub(crate) fn is_opening_line(words: &[u8]) -> bool
    ensures { result ≡ is_opening (words_of words.now) }
{
    match next_word(words) {
        None => false,
        Some((first, _)) => is_word(first, b"since") || is_word(first, b"opening"),
    }
}

/// What these words say of what replicas open with; none for any other line, and where they are refused.
pub(crate) fn read_opening_line(
    alloc: Global,
    words: &[u8],
) -> Result<Option<OpeningLine>, AllocError>
    ensures value { IfOk result (λ l. l ≡ opening_of (words_of words.now)) }
    ensures in_range { IfOk result (λ l. IfSome l IsOfOpening) }
{
    let Some((first, rest)) = next_word(words) else {
        return Ok(None);
    };
    if is_word(first, b"since") {
        return Ok(base_stamp(rest));
    }
    if is_word(first, b"opening") {
        return entry(alloc, rest);
    }
    Ok(None)
}

fn base_stamp(words: &[u8]) -> Option<OpeningLine>
    ensures value { result ≡ since_of (words_of words.now) }
    ensures in_range { IfSome result IsOfOpening }
{
    let (word, rest) = next_word(words)?;
    if next_word(rest).is_some() {
        return None;
    }
    let stamp = stamp(word)?;
    Some(OpeningLine::Since(stamp))
}

fn stamp(word: &[u8]) -> Option<u64>
    ensures value { result ≡ since_number word.now }
    ensures in_range { IfSome result (λ s. s ≤ 281474976710654) }
{
    let stamp = long_number(word)?;
    if stamp <= LATEST { Some(stamp) } else { None }
}

fn entry(alloc: Global, words: &[u8]) -> Result<Option<OpeningLine>, AllocError>
    ensures value { IfOk result (λ l. l ≡ entry_of (words_of words.now)) }
    ensures in_range { IfOk result (λ l. IfSome l IsOfOpening) }
{
    let Some((first, after)) = next_word(words) else {
        return Ok(None);
    };
    let Some((second, rest)) = next_word(after) else {
        return Ok(None);
    };
    if next_word(rest).is_some() {
        return Ok(None);
    }
    let Some(key) = read_key(alloc, first)? else {
        return Ok(None);
    };
    let Some(value) = read_value(alloc, second)? else {
        return Ok(None);
    };
    Ok(Some(OpeningLine::Entry(key, value)))
}
