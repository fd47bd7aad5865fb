//! Strings of JSON.

ghost use Rattle.std.specs.Prelude.{◌≡◌, ◌++◌, ◌<◌, OnOk};
ghost use Rattle.ep_json.specs.Strings.{digit_of, escaped_number, escaped_byte, escaped, stands_for_itself, string_text, IsString};

use std::alloc::AllocError;

fn digit(value: u8) -> u8
    requires { value < 16 }
    ensures { result ≡ digit_of value }
{
    if value < 10 { value + b'0' } else { value + 87 }
}

// Appends a byte by its number.
fn push_number(text: &mut Vec<u8>, byte: u8) -> Result<(), AllocError>
    ensures { OnOk result (text.new.items ≡ text.old.items ++ escaped_number byte) }
{
    let high = digit(byte / 16);
    let low = digit(byte % 16);
    text.extend_from_slice(&[b'\\', b'u', b'0', b'0', high, low])
}

// Whether the byte stands in a string for itself: it is printed, and none of those that end a string or an escape, or begin a tag, or a
// reference.
fn stands_for_itself(byte: u8) -> bool
    ensures { result ≡ stands_for_itself byte }
{
    (byte >= b' ')
        & (byte <= b'~')
        & (byte != b'"')
        & (byte != b'\\')
        & (byte != b'<')
        & (byte != b'>')
        & (byte != b'&')
}

fn push_byte(text: &mut Vec<u8>, byte: u8) -> Result<(), AllocError>
    ensures { OnOk result (text.new.items ≡ text.old.items ++ escaped_byte byte) }
{
    if stands_for_itself(byte) {
        text.push(byte)?;
        return Ok(());
    }
    push_number(text, byte)
}

// Appends the words, each byte as it stands in a string.
fn push_escaped(text: &mut Vec<u8>, words: &[u8]) -> Result<(), AllocError>
    ensures { OnOk result (text.new.items ≡ text.old.items ++ escaped words.now) }
{
    for byte in words {
        push_byte(text, *byte)?;
    }
    Ok(())
}

// What is written for words is a string of JSON for them.
fn are_read_back(words: &[u8])
    ensures { IsString words.now }
{
    let _words = words;
}

/// Appends words as a string of JSON: a byte from 20 to 7e (hexadecimal) as itself, and any other one, and `"`, `\`, `<`, `>` and `&`, by its
/// number, as `\u003c`. A reader of JSON takes it for the words, each byte as the character of its number. No `<` stands in it, so in a script of
/// a page it ends neither the script nor makes a tag. At an `Err` a part of it may be there.
pub fn push_string(text: &mut Vec<u8>, words: &[u8]) -> Result<(), AllocError>
    ensures exact { OnOk result (text.new.items ≡ text.old.items ++ string_text words.now) }
    ensures read_back { IsString words.now }
{
    are_read_back(words);
    text.push(b'"')?;
    push_escaped(text, words)?;
    text.push(b'"')?;
    Ok(())
}
