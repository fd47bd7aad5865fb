//! Words as labels of Mermaid and of Graphviz.

ghost use Rattle.std.specs.Prelude.{◌≡◌, ◌++◌, OnOk, codes, decimal};
ghost use Rattle.ep_view.specs.Labels.{is_from, stands_for_itself, mermaid_byte, mermaid_words, dot_other, dot_byte, dot_words, AreLabels};

use ep_report::{Part, push_parts};
use std::alloc::AllocError;

fn is_from(low: u8, high: u8, byte: u8) -> bool
    ensures { result ≡ is_from low high byte }
{
    low <= byte && byte <= high
}

// Whether the byte stands for itself in a label, of whatever the format.
fn stands_for_itself(byte: u8) -> bool
    ensures { result ≡ stands_for_itself byte }
{
    is_from(b'a', b'z', byte)
        || is_from(b'A', b'Z', byte)
        || is_from(b'0', b'9', byte)
        || byte == b' '
        || byte == b'('
        || byte == b')'
        || byte == b','
        || byte == b'-'
        || byte == b'.'
        || byte == b'_'
}

// Appends a byte by its number.
fn push_numbered(text: &mut Vec<u8>, start: &[u8], byte: u8) -> Result<(), AllocError>
    ensures { OnOk result (text.new.items ≡ text.old.items ++ (start.now ++ decimal byte ++ codes ";")) }
{
    push_parts(
        text,
        &[
            Part::Text(start),
            Part::Number(byte as u64),
            Part::Text(b";"),
        ],
    )
}

fn push_mermaid_byte(text: &mut Vec<u8>, byte: u8) -> Result<(), AllocError>
    ensures { OnOk result (text.new.items ≡ text.old.items ++ mermaid_byte byte) }
{
    if stands_for_itself(byte) {
        text.push(byte)?;
        return Ok(());
    }
    push_numbered(text, b"#", byte)
}

fn push_dot_other(text: &mut Vec<u8>, byte: u8) -> Result<(), AllocError>
    ensures { OnOk result (text.new.items ≡ text.old.items ++ dot_other byte) }
{
    if byte == b'\\' {
        return text.extend_from_slice(b"\\\\");
    }
    push_numbered(text, b"&#", byte)
}

fn push_dot_byte(text: &mut Vec<u8>, byte: u8) -> Result<(), AllocError>
    ensures { OnOk result (text.new.items ≡ text.old.items ++ dot_byte byte) }
{
    if stands_for_itself(byte) {
        text.push(byte)?;
        return Ok(());
    }
    push_dot_other(text, byte)
}

/// What `sequence` and `graph` write for words is read by Mermaid and by Graphviz as these words, whatever bytes they have: it ends no line, no
/// statement and no label.
pub fn are_labels(words: &[u8])
    ensures { AreLabels words.now }
{
    let _words = words;
}

/// Appends words to the line of a message or of a note of Mermaid: a letter, a digit, a blank and `(),-._` as themselves, and any other byte
/// by its number, as `#37;`. They end neither the line nor the statement.
pub(crate) fn push_mermaid_words(text: &mut Vec<u8>, words: &[u8]) -> Result<(), AllocError>
    ensures { OnOk result (text.new.items ≡ text.old.items ++ mermaid_words words.now) }
{
    for byte in words {
        push_mermaid_byte(text, *byte)?;
    }
    Ok(())
}

/// Appends words to a quoted label of Graphviz: the same bytes as themselves, `\` twice, and any other byte by its number, as `&#37;`. They
/// don't end the label.
pub(crate) fn push_dot_words(text: &mut Vec<u8>, words: &[u8]) -> Result<(), AllocError>
    ensures { OnOk result (text.new.items ≡ text.old.items ++ dot_words words.now) }
{
    for byte in words {
        push_dot_byte(text, *byte)?;
    }
    Ok(())
}
