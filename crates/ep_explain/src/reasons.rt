//! Reasons: lines of words.

ghost use Rattle.std.specs.Prelude.{◌≡◌, ◌++◌, ◌∷◌, [], OnOk, codes, filter, map};
ghost use Rattle.ep_explain.specs.Reasons.{is_plain, reason_line, section};
ghost use Rattle.ep_report.specs.Reports.{text_of};

use crate::wording::Wording;
use std::alloc::{AllocError, Global};
use std::marker::Model;

/// Why something is refused: lines of words, in order. Where memory is refused for one of them they are cut, and aren't reported.
#[derive(Drop)]
pub(crate) struct Reasons {
    lines: Vec<Wording>,
    is_cut: bool,
}

impl Model for Reasons {
    ghost use Rattle.std.specs.Prelude.{List, ℕ};

    ghost Value = { List (List ℕ) };

    ghost view = { λ r. r.lines.items };
}

impl Reasons {
    /// No reasons yet.
    pub(crate) fn new(alloc: Global) -> Reasons
        ensures { result ≡ [] }
    {
        Reasons {
            lines: Vec::new(alloc),
            is_cut: false,
        }
    }

    /// A line that begins so, and isn't added yet.
    pub(crate) fn line(&self, words: &[u8]) -> Wording {
        let mut line = Wording::new(*self.lines.allocator());
        line.say(words);
        line
    }

    /// Adds a line at the end.
    pub(crate) fn add(&mut self, line: Wording) {
        if self.lines.push(line).is_err() {
            self.cut();
        }
    }

    /// Adds a line of these words, with these numbers in the places of `#`.
    pub(crate) fn say_with(&mut self, form: &[u8], numbers: &[u64]) {
        let mut line = Wording::new(*self.lines.allocator());
        line.say_with(form, numbers);
        self.add(line);
    }

    /// Notes that memory was refused.
    pub(crate) fn cut(&mut self) {
        self.is_cut = true;
    }
}

/// Appends the words, without their line feeds.
fn push_plain(text: &mut Vec<u8>, words: &[u8]) -> Result<(), AllocError>
    ensures { OnOk result (text.new.items ≡ text.old.items ++ filter is_plain words.now) }
{
    for byte in words {
        if *byte != b'\n' {
            text.push(*byte)?;
        }
    }
    Ok(())
}

fn push_reason(text: &mut Vec<u8>, words: &[u8]) -> Result<(), AllocError>
    ensures { OnOk result (text.new.items ≡ text.old.items ++ reason_line words.now ++ codes "\n") }
{
    text.extend_from_slice(b"  ")?;
    push_plain(text, words)?;
    text.push(b'\n')?;
    Ok(())
}

/// Appends the reasons, each of which is an indented line.
pub(crate) fn push_reasons(text: &mut Vec<u8>, reasons: &Reasons) -> Result<(), AllocError>
    ensures { OnOk result (text.new.items ≡ text.old.items ++ text_of (map reason_line reasons.now)) }
{
    if reasons.is_cut {
        return Err(AllocError);
    }
    for reason in &reasons.lines {
        push_reason(text, reason.words()?)?;
    }
    Ok(())
}

/// Appends a line, and under it the reasons.
pub(crate) fn push_section(
    text: &mut Vec<u8>,
    line: &[u8],
    reasons: &Reasons,
) -> Result<(), AllocError>
    ensures { OnOk result (text.new.items ≡ text.old.items ++ text_of (section line.now reasons.now)) }
{
    text.extend_from_slice(line)?;
    text.push(b'\n')?;
    push_reasons(text, reasons)
}

/// The same with one reason more, as the first one.
pub(crate) fn push_led(
    text: &mut Vec<u8>,
    line: &[u8],
    first: &[u8],
    reasons: &Reasons,
) -> Result<(), AllocError>
    ensures { OnOk result (text.new.items ≡ text.old.items ++ text_of (section line.now (first.now ∷ reasons.now))) }
{
    text.extend_from_slice(line)?;
    text.push(b'\n')?;
    push_reason(text, first)?;
    push_reasons(text, reasons)
}
