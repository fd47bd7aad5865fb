//! What is given for a bundle, and is none.

ghost use Rattle.std.specs.Prelude.{◌≡◌, ◌==◌, ◌↔◌, IsTrue, position};
ghost use Rattle.ep_explain.specs.OtherInput.{IsOtherInput, behind_edition};

use crate::guess::{is_text, is_utf16};
use crate::reasons::Reasons;

/// How texts begin that aren't bundles, and what they are.
const SORTS: [(&[u8], &[u8]); 5] = [
    (
        b"verdict ",
        b"found: a report, as replay, run and audit print it",
    ),
    (b"stamp ", b"found: entries in words, as show prints them"),
    (b"line ", b"found: a trace, as trace prints it"),
    (b"<", b"found: a picture or a page, as draw prints it"),
    (
        b"{",
        b"found: trace events, as trace-events prints them, or other JSON",
    ),
];

/// Adds what the bytes are, where they are no bundle's at all; else false.
pub(crate) fn add_other_input(bytes: &[u8], reasons: &mut Reasons) -> bool
    ensures { IsTrue result ↔ IsOtherInput bytes.now }
{
    if bytes.is_empty() {
        add_other(b"found: nothing, as the input is empty", reasons);
    } else if is_utf16(bytes) {
        add_other(b"found: text in UTF-16; a script is in ASCII", reasons);
    } else if is_text(bytes) {
        add_other(name_of(bytes), reasons);
    } else {
        return false;
    }
    true
}

/// What stands behind the line of an edition, if the text begins by one.
fn behind_edition(bytes: &[u8]) -> &[u8]
    ensures { result.now ≡ behind_edition bytes.now }
{
    if !bytes.starts_with(b"version ") {
        return bytes;
    }
    match end_of_line(bytes) {
        Some(place) => bytes.get(place.saturating_add(1)..).unwrap_or(bytes),
        None => bytes,
    }
}

/// Where the first line feed stands.
fn end_of_line(bytes: &[u8]) -> Option<usize>
    ensures { result ≡ position (λ b. b == 10) bytes.now }
{
    bytes.iter().position(|byte| *byte == b'\n')
}

/// What the text is that was given for a bundle.
fn name_of(bytes: &[u8]) -> &'static [u8] {
    let bytes = behind_edition(bytes);
    for (start, name) in &SORTS {
        if bytes.starts_with(start) {
            return name;
        }
    }
    b"found: text, of which no line near its beginning begins with a word of scripts, as replicas or propose"
}

/// What to do where something else was given for a bundle, and what it is.
fn add_other(found: &[u8], reasons: &mut Reasons) {
    reasons.say_with(
        b"do: give explain a bundle, as `epaxos replay --emit bundle` and `epaxos collect` write it, or a script",
        &[],
    );
    reasons.say_with(
        b"likely: another file or another program's output was given",
        &[],
    );
    reasons.say_with(found, &[]);
}
