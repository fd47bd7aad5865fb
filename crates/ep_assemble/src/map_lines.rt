//! The lines of a map.

ghost use Rattle.std.specs.Prelude.{◌≡◌, ◌<◌, ◌^◌, ◌++◌, codes, length, IfOk, OnOk};
ghost use Rattle.std.specs.FinMap.{entries};
ghost use Rattle.ep_assemble.specs.Shown.{head_line, map_text, pair_line, pair_lines};

use ep_base::{Generation, Key, Value};
use ep_exec::Contents;
use ep_report::{push_contents, push_number};
use ep_script::push_word;
use std::alloc::{AllocError, Global};

/// The lines of this map, behind so many entries.
pub(crate) fn text_of(
    alloc: Global,
    generation: Generation,
    count: usize,
    map: &Contents,
) -> Result<Vec<u8>, AllocError>
    requires { length (entries map.now) < 2 ^ 32 }
    ensures { IfOk result (λ text. text.items ≡ map_text generation count map.now) }
{
    let mut text = Vec::new(alloc);
    push_head(&mut text, generation, count, map)?;
    let listing = map.listing()?;
    push_pairs(&mut text, listing.entries())?;
    Ok(text)
}

/// Appends the first line.
fn push_head(
    text: &mut Vec<u8>,
    generation: Generation,
    count: usize,
    map: &Contents,
) -> Result<(), AllocError>
    requires { length (entries map.now) < 2 ^ 32 }
    ensures { OnOk result (text.new.items ≡ text.old.items ++ head_line generation count map.now) }
{
    text.extend_from_slice(b"generation ")?;
    push_number(text, u64::from(generation.number()))?;
    text.extend_from_slice(b" entries ")?;
    push_number(text, count as u64)?;
    text.extend_from_slice(b" contents ")?;
    push_contents(text, map)?;
    text.extend_from_slice(b"\n")?;
    Ok(())
}

/// Appends a line for each key.
fn push_pairs(text: &mut Vec<u8>, pairs: &[(Key, Value)]) -> Result<(), AllocError>
    ensures { OnOk result (text.new.items ≡ text.old.items ++ pair_lines pairs.now) }
{
    for pair in pairs {
        push_pair(text, pair)?;
    }
    Ok(())
}

/// Appends a key, and what it has.
fn push_pair(text: &mut Vec<u8>, pair: &(Key, Value)) -> Result<(), AllocError>
    ensures { OnOk result (text.new.items ≡ text.old.items ++ pair_line pair.now) }
{
    push_word(text, pair.0.as_slice())?;
    text.extend_from_slice(b" ")?;
    push_word(text, pair.1.as_slice())?;
    text.extend_from_slice(b"\n")?;
    Ok(())
}
