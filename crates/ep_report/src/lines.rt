//! Lines of a report, each ended by a line feed.

ghost use Rattle.std.specs.Prelude.{◌≡◌, ◌<◌, ◌^◌, ◌++◌, [], ◌∷◌, OnOk, codes, decimal, length};
ghost use Rattle.std.specs.FinMap.{entries};
ghost use Rattle.std.specs.Option.{option_copied};
ghost use Rattle.ep_report.specs.Contents.{contents_line, contents_text, digest_text};
ghost use Rattle.ep_report.specs.Lives.{generation_line, closed_line, closing_line, link_line};
ghost use Rattle.ep_report.specs.Reports.{text_of, committed_line, history_line, receipt_line, refused_line, lost_line};

use crate::digest::digest_of;
use crate::life::Life;
use crate::part::Part;
use crate::parts::push_parts;
use ep_audit::{Closing, Happening};
use ep_base::{Decree, InstanceId};
use ep_exec::Contents;
use ep_journal::Refusal;
use ep_rules::Receipt;
use hex::encode;
use std::alloc::{AllocError, Global};

/// Appends a name and a count.
pub(crate) fn push_heading(text: &mut Vec<u8>, name: &[u8], count: usize) -> Result<(), AllocError>
    ensures { OnOk result (text.new.items ≡ text.old.items ++ name.now ++ codes " " ++ decimal count ++ codes "\n") }
{
    push_parts(
        text,
        &[
            Part::Text(name),
            Part::Text(b" "),
            Part::Number(count as u64),
            Part::Text(b"\n"),
        ],
    )
}

/// Appends the line of which generation it is, and of the stamp that its clocks went on from.
pub(crate) fn push_generation(text: &mut Vec<u8>, life: &Life<'_>) -> Result<(), AllocError>
    ensures { OnOk result (text.new.items ≡ text.old.items ++ generation_line life.now ++ codes "\n") }
{
    let generation = life.generation();
    push_parts(
        text,
        &[
            Part::Text(b"generation "),
            Part::Number(generation.number() as u64),
            Part::Text(b" since "),
            Part::Number(life.base_stamp()),
            Part::Text(b"\n"),
        ],
    )
}

/// Appends the seal that closed the map, or that none did, and then this end.
pub(crate) fn push_closing<'x>(
    text: &mut Vec<u8>,
    closing: Option<&'x Closing>,
    end: &'x [u8],
) -> Result<(), AllocError>
    ensures { OnOk result (text.new.items ≡ text.old.items ++ closing_line (option_copied closing.entry) ++ end.now) }
{
    match closing {
        None => push_parts(text, &[Part::Text(b"open"), Part::Text(end)]),
        Some(closing) => push_closed(text, closing, end),
    }
}

// Appends the seal that closed the map, and then this end.
fn push_closed<'x>(
    text: &mut Vec<u8>,
    closing: &'x Closing,
    end: &'x [u8],
) -> Result<(), AllocError>
    ensures { OnOk result (text.new.items ≡ text.old.items ++ closed_line closing.now ++ end.now) }
{
    push_parts(
        text,
        &[
            Part::Text(b"closed "),
            Part::Instance(closing.instance),
            Part::Text(b" "),
            Part::Word(closing.value.as_slice()),
            Part::Text(b" stamp "),
            Part::Number(closing.stamp.ticks()),
            Part::Text(end),
        ],
    )
}

/// Appends the SHA-256 of a map as a bundle spells it, in hexadecimal digits.
pub fn push_digest(text: &mut Vec<u8>, contents: &Contents) -> Result<(), AllocError>
    requires { length (entries contents.now) < 2 ^ 32 }
    ensures { OnOk result (text.new.items ≡ text.old.items ++ digest_text contents.now) }
{
    let listing = contents.listing()?;
    let digits = encode(*text.allocator(), digest_of(&listing).as_slice())?;
    text.extend_from_slice(digits.as_bytes())
}

/// Appends how many keys a map has, and the SHA-256 of the map as a bundle spells it, in hexadecimal digits.
pub fn push_contents(text: &mut Vec<u8>, contents: &Contents) -> Result<(), AllocError>
    requires { length (entries contents.now) < 2 ^ 32 }
    ensures { OnOk result (text.new.items ≡ text.old.items ++ contents_text contents.now) }
{
    let listing = contents.listing()?;
    let count = listing.entries().len();
    let digits = encode(*text.allocator(), digest_of(&listing).as_slice())?;
    push_parts(
        text,
        &[
            Part::Number(count as u64),
            Part::Text(b" "),
            Part::Text(digits.as_bytes()),
        ],
    )
}

/// Appends the line of what the keys have.
pub(crate) fn push_contents_line(text: &mut Vec<u8>, contents: &Contents) -> Result<(), AllocError>
    requires { length (entries contents.now) < 2 ^ 32 }
    ensures { OnOk result (text.new.items ≡ text.old.items ++ contents_line contents.now ++ codes "\n") }
{
    let listing = contents.listing()?;
    let digits = encode(*text.allocator(), digest_of(&listing).as_slice())?;
    push_parts(
        text,
        &[
            Part::Text(b"contents "),
            Part::Number(listing.entries().len() as u64),
            Part::Text(b" "),
            Part::Text(digits.as_bytes()),
            Part::Text(b"\n"),
        ],
    )
}

/// Appends the line of a generation in a chain: which one it is, how many instances it commits, how many commands its history has, the seal that
/// closed its map, or that none did, and what the keys then have.
pub fn push_link_line(
    text: &mut Vec<u8>,
    life: &Life<'_>,
    committed: usize,
    history: usize,
) -> Result<(), AllocError>
    ensures { OnOk result (text.new.items ≡ text.old.items ++ link_line life.now committed history ++ codes "\n") }
{
    push_parts(
        text,
        &[
            Part::Text(b"generation "),
            Part::Number(life.generation().number() as u64),
            Part::Text(b" since "),
            Part::Number(life.base_stamp()),
            Part::Text(b" committed "),
            Part::Number(committed as u64),
            Part::Text(b" history "),
            Part::Number(history as u64),
            Part::Text(b" "),
        ],
    )?;
    push_closing(text, life.closing(), b" ")?;
    push_contents_line(text, life.contents())
}

/// Appends the line of an instance that is committed.
pub(crate) fn push_committed_line(
    text: &mut Vec<u8>,
    instance: InstanceId,
    decree: &Decree,
) -> Result<(), AllocError>
    ensures { OnOk result (text.new.items ≡ text.old.items ++ committed_line (instance, decree.now) ++ codes "\n") }
{
    push_parts(
        text,
        &[
            Part::Instance(instance),
            Part::Text(b" seq "),
            Part::Number(decree.attrs.seq.number() as u64),
            Part::Text(b" deps "),
            Part::Deps(&decree.attrs.deps),
            Part::Text(b" "),
            Part::Command(&decree.command),
            Part::Text(b"\n"),
        ],
    )
}

/// Appends the line of a command of the history, at this place of it.
pub(crate) fn push_history_line(
    text: &mut Vec<u8>,
    place: u64,
    happening: &Happening,
) -> Result<(), AllocError>
    ensures { OnOk result (text.new.items ≡ text.old.items ++ history_line place happening.now ++ codes "\n") }
{
    push_parts(
        text,
        &[
            Part::Number(place),
            Part::Text(b" "),
            Part::Instance(happening.instance),
            Part::Text(b" "),
            Part::Command(&happening.command),
            Part::Text(b" -> "),
            Part::Reply(&happening.reply),
            Part::Text(b"\n"),
        ],
    )
}

/// Appends the line of a receipt.
pub(crate) fn push_receipt_line(text: &mut Vec<u8>, receipt: &Receipt) -> Result<(), AllocError>
    ensures { OnOk result (text.new.items ≡ text.old.items ++ receipt_line receipt.now ++ codes "\n") }
{
    push_parts(
        text,
        &[
            Part::Text(b"client "),
            Part::Number(receipt.client as u64),
            Part::Text(b" request "),
            Part::Number(receipt.request as u64),
            Part::Text(b" "),
            Part::Instance(receipt.instance),
            Part::Text(b" "),
            Part::Answer(&receipt.answer),
            Part::Text(b"\n"),
        ],
    )
}

/// Appends the line of an event that was refused, at this line of the script.
pub(crate) fn push_refused_line(
    alloc: Global,
    text: &mut Vec<u8>,
    line: u32,
    cause: Refusal,
) -> Result<(), AllocError>
    ensures { OnOk result (text.new.items ≡ text.old.items ++ refused_line (line, cause) ++ codes "\n") }
{
    let cause = cause.to_string(alloc)?;
    push_parts(
        text,
        &[
            Part::Text(b"line "),
            Part::Number(line as u64),
            Part::Text(b" "),
            Part::Text(cause.as_bytes()),
            Part::Text(b"\n"),
        ],
    )
}

/// Appends the line of the frames that a run lost.
pub(crate) fn push_lost_line(text: &mut Vec<u8>, lost: u64) -> Result<(), AllocError>
    ensures { OnOk result (text.new.items ≡ text.old.items ++ text_of (lost_line lost ∷ [])) }
{
    push_parts(
        text,
        &[Part::Text(b"lost "), Part::Number(lost), Part::Text(b"\n")],
    )
}
