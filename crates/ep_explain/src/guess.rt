//! What bytes are, by the first of them.

ghost use Rattle.std.specs.Prelude.{◌≡◌, ◌↔◌, ℕ, true, false, IfSome, IsTrue};
ghost use Rattle.std.specs.Char.{eq_ignore_ascii_case};
ghost use Rattle.std.specs.List.{common_prefix_len, list_all};
ghost use Rattle.ep_explain.specs.Guess.{IsNearlyReplicas, IsText};
ghost use Rattle.ep_explain.specs.Guess.{end_of, is_printed, is_text_byte, is_utf16, without_mark};
ghost use Rattle.ep_explain.specs.Magic.{MayBegin};

use crate::subcommand::Subcommand;
use ep_script::{Lines, next_word};

/// How many bytes have to be text.
const SEEN: usize = 64;

/// How many lines are looked at.
const LINES: usize = 70_000;

/// What the first word of a line says of its script.
#[derive(Drop)]
enum Hint {
    /// It is of this subcommand's scripts alone.
    Of(Subcommand),
    /// It is of both.
    Both,
    /// It is none of the grammar.
    Neither,
    /// The line is skipped.
    Skipped,
}

fn is_text_byte(byte: u8) -> bool
    ensures { result ≡ is_text_byte byte }
{
    byte >= b' ' && byte != 0x7f || byte == b'\t' || byte == b'\r' || byte == b'\n'
}

/// The bytes by which a bundle begins.
const MAGIC: [u8; 4] = [0x45, 0x50, 0x4a, 0x42];

fn is_same(one: &[u8], other: &[u8]) -> bool
    ensures { IsTrue result ↔ (one.now ≡ other.now) }
{
    one == other
}

/// Whether a bundle may begin so: by its magic, or as much of it as there is.
fn begins_bundle(bytes: &[u8]) -> bool
    ensures { IsTrue result ↔ MayBegin bytes.now }
{
    let count = bytes.len().min(4);
    is_same(&bytes[..count], &MAGIC[..count])
}

/// Whether there are bytes, and the first ones are text: not the magic of a bundle, nor control characters.
pub(crate) fn is_text(bytes: &[u8]) -> bool
    ensures { IsTrue result ↔ IsText bytes.now }
{
    !begins_bundle(bytes) && are_text(bytes.get(..SEEN).unwrap_or(bytes))
}

fn are_text(bytes: &[u8]) -> bool
    ensures { result ≡ list_all is_text_byte bytes.now }
{
    bytes.iter().all(|byte| is_text_byte(*byte))
}

fn hint_of(word: &[u8]) -> Hint {
    match word {
        b"execute" | b"deliver" | b"flush" => Hint::Of(Subcommand::Replay),
        b"section" | b"drop" | b"hold" | b"repeat" => Hint::Of(Subcommand::Run),
        // (a line `generation` says nothing, as reports of version 3 have one, and scripts have `replicas` before it)
        b"replicas" | b"since" | b"opening" => Hint::Both,
        b"propose" | b"sparing" | b"giveup" | b"recover" => Hint::Both,
        [b'#', ..] => Hint::Skipped,
        _ => Hint::Neither,
    }
}

/// The byte order mark of UTF-8.
pub(crate) const ORDER_MARK: &[u8] = b"\xef\xbb\xbf";

/// Whether the bytes are text in UTF-16: they begin with its byte order mark, or each other byte of the first ones is 0.
pub(crate) fn is_utf16(bytes: &[u8]) -> bool
    ensures { result ≡ is_utf16 bytes.now }
{
    match bytes {
        [0xff, 0xfe, ..] | [0xfe, 0xff, ..] => true,
        [0, first, 0, second, ..] => is_printed(*first) && is_printed(*second),
        [first, 0, second, 0, ..] => is_printed(*first) && is_printed(*second),
        _ => false,
    }
}

fn is_printed(byte: u8) -> bool
    ensures { result ≡ is_printed byte }
{
    byte > b' ' && byte < 0x7f
}

/// How many of the bytes are the same from the front on, in whatever case.
fn same_front(one: &[u8], other: &[u8]) -> usize
    ensures { result ≡ common_prefix_len eq_ignore_ascii_case one.now other.now }
{
    for (place, byte) in one.iter().enumerate() {
        match other.get(place) {
            Some(wanted) if byte.eq_ignore_ascii_case(wanted) => {}
            _ => return place,
        }
    }
    one.len()
}

/// The last bytes, as many as that.
fn end_of(bytes: &[u8], count: usize) -> &[u8]
    ensures { result.now ≡ end_of bytes.now count }
{
    bytes
        .get(bytes.len().saturating_sub(count)..)
        .unwrap_or(&[])
}

/// Whether the word is `replicas` but for a byte order mark, the case of its letters, and one letter that is more, less or another.
fn is_nearly_replicas(word: &[u8]) -> bool
    ensures { IsTrue result ↔ IsNearlyReplicas word.now }
{
    let word = without_mark(word);
    let wanted = b"replicas".as_slice();
    if word.len() < 7 || word.len() > 9 {
        return false;
    }
    let behind = same_front(word, wanted).saturating_add(1);
    let count = word.len().max(wanted.len()).saturating_sub(behind);
    end_of(word, count).eq_ignore_ascii_case(end_of(wanted, count))
}

/// The bytes behind a byte order mark, if they begin with one.
pub(crate) fn without_mark(bytes: &[u8]) -> &[u8]
    ensures { result.now ≡ without_mark bytes.now }
{
    bytes.strip_prefix(ORDER_MARK).unwrap_or(bytes)
}

fn hint_in(line: &[u8]) -> Hint {
    match next_word(line) {
        None => Hint::Skipped,
        Some((word, _)) => hint_of(word),
    }
}

/// The first line whose first word only one subcommand's scripts have, from 1, and that subcommand.
pub(crate) fn deciding_line(bytes: &[u8]) -> Option<(u64, Subcommand)> {
    let mut lines = Lines::new(bytes);
    for place in 1..LINES {
        if let Hint::Of(subcommand) = hint_in(lines.next_line()?) {
            return Some((place as u64, subcommand));
        }
    }
    None
}

/// Whether a line begins with a word of the grammar but `generation`, or all lines are skipped and some has a comment.
fn is_script(bytes: &[u8]) -> bool {
    let mut lines = Lines::new(bytes);
    let mut is_skipped = bytes.contains(&b'#');
    for _ in 0..LINES {
        let Some(line) = lines.next_line() else {
            return is_skipped;
        };
        match hint_in(line) {
            Hint::Of(_) | Hint::Both => return true,
            Hint::Neither => is_skipped = false,
            Hint::Skipped => {}
        }
    }
    is_skipped
}

/// Whether the first line that isn't skipped begins with a word of the grammar but `generation`, or nearly with `replicas`.
fn starts_script(bytes: &[u8]) -> bool {
    let mut lines = Lines::new(bytes);
    for _ in 0..LINES {
        let Some(line) = lines.next_line() else {
            return false;
        };
        match hint_in(line) {
            Hint::Of(_) | Hint::Both => return true,
            Hint::Neither => return begins_nearly(line),
            Hint::Skipped => {}
        }
    }
    false
}

/// Whether the line begins nearly with `replicas`.
fn begins_nearly(line: &[u8]) -> bool {
    match next_word(line) {
        None => false,
        Some((word, _)) => is_nearly_replicas(word),
    }
}

/// Whether they are a script: by its first line, or where they are text by any line.
fn looks_scripted(bytes: &[u8]) -> bool {
    starts_script(bytes) || is_text(bytes) && is_script(bytes)
}

/// For which subcommand a script is that begins with these bytes: the one whose scripts alone have the first word of some line, by the first
/// such line; `replay` where there is none. None where a bundle may begin so, or they don't look like a script.
pub(crate) fn subcommand_of(bytes: &[u8]) -> Option<Subcommand>
    ensures { IfSome result (λ _. ¬ MayBegin bytes.now) }
{
    if begins_bundle(bytes) {
        return None;
    }
    if !looks_scripted(bytes) {
        return None;
    }
    Some(subcommand_in(bytes))
}

fn subcommand_in(bytes: &[u8]) -> Subcommand {
    match deciding_line(bytes) {
        Some((_, subcommand)) => subcommand,
        None => Subcommand::Replay,
    }
}
