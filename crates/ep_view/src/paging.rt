//! Pages.

ghost use Rattle.std.specs.Prelude.{◌≡◌, ◌++◌, IfOk, OnOk};
ghost use Rattle.ep_json.specs.Strings.{IsString};
ghost use Rattle.ep_view.specs.Pages.{page_text, IsPage};

use crate::selection::Selection;
use crate::showing::show;
use ep_journal::Journals;
use ep_json::push_string;
use std::alloc::{AllocError, Global};

// Appends the page with these words.
fn push_page(text: &mut Vec<u8>, head: &[u8], shown: &[u8], tail: &[u8]) -> Result<(), AllocError>
    ensures exact { OnOk result (text.new.items ≡ text.old.items ++ page_text head.now tail.now shown.now) }
    ensures string { OnOk result (IsString shown.now) }
{
    text.extend_from_slice(head)?;
    push_string(text, shown)?;
    text.extend_from_slice(tail)
}

/// A page for a browser: what `show` writes of the entries that the part keeps, as a string of JSON between two fixed parts, which are the
/// page's own. No key, value or other word of a journal ends the script that it stands in, or makes a tag.
pub fn page(
    alloc: Global,
    journals: &Journals,
    part: &Selection,
    head: &[u8],
    tail: &[u8],
) -> Result<Vec<u8>, AllocError>
    ensures { IfOk result (λ text. IsPage head.now tail.now journals.now part.now text.items) }
{
    let shown = show(alloc, journals, part)?;
    let mut text = Vec::new(alloc);
    push_page(&mut text, head, &shown, tail)?;
    Ok(text)
}
