//! What journals are of, and what they begin with, in words.

ghost use Rattle.std.specs.Prelude.{◌≡◌, ◌++◌, OnOk, IfOk, codes, decimal};
ghost use Rattle.ep_report.specs.Contents.{contents_text};
ghost use Rattle.ep_view.specs.Editions.{generation_text, opening_text, edition_text, edition_line};

use ep_base::{Version, VersionKind};
use ep_journal::Opening;
use ep_report::{Part, push_contents, push_parts};
use std::alloc::{AllocError, Global};

// Appends version 3 with this generation.
#[tactic(auto, unfolding(crate::specs::Editions::generation_text))]
fn push_numbered(text: &mut Vec<u8>, generation: u32) -> Result<(), AllocError>
    ensures { OnOk result (text.new.items ≡ text.old.items ++ generation_text generation) }
{
    push_parts(
        text,
        &[
            Part::Text(b"version 3 generation "),
            Part::Number(generation as u64),
        ],
    )
}

// Appends how many keys there are, and the digest of what they have.
fn push_opened(text: &mut Vec<u8>, opening: &Opening) -> Result<(), AllocError>
    ensures { OnOk result (text.new.items ≡ text.old.items ++ contents_text opening.now.contents) }
{
    push_contents(text, opening.contents())
}

// Appends what a generation begins with.
fn push_opening(text: &mut Vec<u8>, opening: &Opening) -> Result<(), AllocError>
    ensures { OnOk result (text.new.items ≡ text.old.items ++ opening_text opening.now) }
{
    push_parts(
        text,
        &[
            Part::Text(b" since "),
            Part::Number(opening.base_stamp()),
            Part::Text(b" opening "),
        ],
    )?;
    push_opened(text, opening)
}

/// Appends version 3 with this generation, the stamp that its clocks went on from, and how many keys its opening has, with the digest
/// that a report of the generation before says of its contents.
pub fn push_generation(
    text: &mut Vec<u8>,
    generation: u32,
    opening: &Opening,
) -> Result<(), AllocError>
    ensures { OnOk result (text.new.items ≡ text.old.items ++ edition_text generation opening.now) }
{
    push_numbered(text, generation)?;
    push_opening(text, opening)
}

/// The words of a generation and of what it begins with.
pub(crate) fn generation_words(
    alloc: Global,
    generation: u32,
    opening: &Opening,
) -> Result<Vec<u8>, AllocError>
    ensures { IfOk result (λ words. words.items ≡ edition_text generation opening.now) }
{
    let mut words = Vec::new(alloc);
    push_generation(&mut words, generation, opening)?;
    Ok(words)
}

/// Appends the line that begins what is reported of journals: of version 3 their generation and what they begin with. Of versions 1 and 2 there
/// is none, and nothing is appended.
pub fn push_edition(
    text: &mut Vec<u8>,
    version: Version,
    opening: &Opening,
) -> Result<(), AllocError>
    ensures { OnOk result (text.new.items ≡ text.old.items ++ edition_line version opening.now) }
{
    match version.kind() {
        VersionKind::V1 | VersionKind::V2 => Ok(()),
        VersionKind::V3(generation) => {
            push_generation(text, generation, opening)?;
            text.push(b'\n')?;
            Ok(())
        }
    }
}
