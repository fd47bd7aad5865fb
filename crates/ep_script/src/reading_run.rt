//! From the words of a line to what it says in a script for a run.

ghost use Rattle.std.specs.Prelude.{◌≡◌, ◌∷◌, IfOk, map, option_map};
ghost use Rattle.ep_base.specs.Quorums.{size as size_with};
ghost use Rattle.ep_script.specs.declared.run_line.RunLine.TheVariants.{Agenda, Weather};
ghost use Rattle.ep_script.specs.Parts.{words_of};
ghost use Rattle.ep_script.specs.Grammar.{kind_of, section_of, weather_of, agenda_line, plain_run_line, run_line};

use crate::operands::{count, replica};
use crate::reading::read_agenda_line;
use crate::run_line::RunLine;
use crate::weather_line::WeatherLine;
use crate::weather_word::WeatherWord;
use crate::words::{is_word, next_word};
use ep_base::{Size, Version};
use std::alloc::{AllocError, Global};

/// The line that these words say; none where they are refused.
pub(crate) fn read_run_line(
    alloc: Global,
    size: Size,
    version: Version,
    words: &[u8],
) -> Result<Option<RunLine>, AllocError>
    ensures { IfOk result (λ l. l ≡ run_line (size_with size) version (words_of words.now)) }
{
    let Some((first, rest)) = next_word(words) else {
        return Ok(None);
    };
    match kind(first) {
        Some(kind) => Ok(weather(size, kind, rest)),
        None => plain(alloc, size, version, words),
    }
}

// What becomes of a frame, by the first word of a line.
pub(crate) fn kind(word: &[u8]) -> Option<WeatherWord>
    ensures { result ≡ kind_of word.now }
{
    if is_word(word, b"drop") {
        return Some(WeatherWord::Drop);
    }
    if is_word(word, b"hold") {
        return Some(WeatherWord::Hold);
    }
    if is_word(word, b"repeat") {
        return Some(WeatherWord::Repeat);
    }
    None
}

fn weather(size: Size, kind: WeatherWord, words: &[u8]) -> Option<RunLine>
    ensures { result ≡ option_map (λ l. Weather l) (weather_of (size_with size) kind (words_of words.now)) }
{
    let line = weather_line(size, kind, words)?;
    Some(RunLine::Weather(line))
}

pub(crate) fn weather_line(size: Size, kind: WeatherWord, words: &[u8]) -> Option<WeatherLine>
    ensures { result ≡ weather_of (size_with size) kind (words_of words.now) }
{
    let (first, after) = next_word(words)?;
    let (second, others) = next_word(after)?;
    let (third, rest) = next_word(others)?;
    if next_word(rest).is_some() {
        return None;
    }
    let from = replica(size, first)?;
    let to = replica(size, second)?;
    let count = count(third)?;
    if from == to {
        return None;
    }
    Some(WeatherLine {
        kind,
        from,
        to,
        count,
    })
}

// A line that is none of the weather.
fn plain(
    alloc: Global,
    size: Size,
    version: Version,
    words: &[u8],
) -> Result<Option<RunLine>, AllocError>
    ensures { IfOk result (λ l. l ≡ plain_run_line (size_with size) version (words_of words.now)) }
{
    let Some((first, rest)) = next_word(words) else {
        return Ok(None);
    };
    if is_word(first, b"section") {
        return Ok(section(rest));
    }
    agenda(alloc, size, version, first, rest)
}

fn agenda(
    alloc: Global,
    size: Size,
    version: Version,
    first: &[u8],
    rest: &[u8],
) -> Result<Option<RunLine>, AllocError>
    ensures { IfOk result (λ l. l ≡ option_map (λ x. Agenda x) (agenda_line (size_with size) version (first.now ∷ words_of rest.now))) }
{
    let Some(asked) = read_agenda_line(alloc, size, version, first, rest)? else {
        return Ok(None);
    };
    Ok(Some(RunLine::Agenda(asked)))
}

fn section(words: &[u8]) -> Option<RunLine>
    ensures { result ≡ section_of (words_of words.now) }
{
    match next_word(words) {
        None => Some(RunLine::Section),
        Some(_) => None,
    }
}
