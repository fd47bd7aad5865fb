//! Keys and values as words of printable bytes.

ghost use Rattle.std.specs.Prelude.{◌≡◌, ◌++◌, ◌<◌, [], Some, IfOk, IfSome, IsTrue, OnOk, MatchOption, length};
ghost use Rattle.std.specs.List.{list_all};
ghost use Rattle.ep_script.specs.Word.{is_plain, is_above_sign, digit_of, digit_value, digits_byte, byte_word, byte_words, word_of, spelled, between, bytes_of, escaped_byte, lent_byte, Escapes, WordLaw};

use std::alloc::{AllocError, Global};

/// From this length on, bytes are first looked at together.
const LONG: usize = 32;

/// Appends the word that spells the bytes: a byte from 21 to 7e (hexadecimal) other than `%` as itself, any other
/// one as `%` and two hexadecimal digits in lower case, no bytes as `%-`. At an `Err` a part of it may be there.
pub fn push_word(text: &mut Vec<u8>, bytes: &[u8]) -> Result<(), AllocError>
    ensures { OnOk result (text.new.items ≡ text.old.items ++ word_of bytes.now) }
{
    if spells_itself(bytes) {
        text.extend_from_slice(bytes)?;
        return Ok(());
    }
    let [first, rest @ ..] = bytes else {
        text.extend_from_slice(b"%-")?;
        return Ok(());
    };
    push_byte(text, *first)?;
    push_bytes(text, rest)
}

fn push_bytes(text: &mut Vec<u8>, bytes: &[u8]) -> Result<(), AllocError>
    ensures { OnOk result (text.new.items ≡ text.old.items ++ byte_words bytes.now) }
{
    for byte in bytes {
        push_byte(text, *byte)?;
    }
    Ok(())
}

fn push_byte(text: &mut Vec<u8>, byte: u8) -> Result<(), AllocError>
    ensures { OnOk result (text.new.items ≡ text.old.items ++ byte_word byte) }
{
    if is_plain_byte(byte) {
        text.push(byte)?;
        return Ok(());
    }
    text.push(b'%')?;
    text.push(digit(byte / 16))?;
    text.push(digit(byte % 16))?;
    Ok(())
}

pub(crate) fn is_plain_byte(byte: u8) -> bool
    ensures { result ≡ is_plain byte }
{
    (byte >= 0x21) & (byte <= 0x7e) & (byte != b'%')
}

#[tactic(auto, using(crate::proofs::Spelling::above_are_plain))]
fn are_plain(bytes: &[u8]) -> bool
    ensures { result ≡ list_all is_plain bytes.now }
{
    if bytes.len() < LONG {
        return are_each_plain(bytes);
    }
    if are_above_sign(bytes) {
        return true;
    }
    are_each_plain(bytes)
}

// Whether all bytes are plain and above `%`. For many bytes this is quicker than a test of each one.
fn are_above_sign(bytes: &[u8]) -> bool
    ensures { result ≡ list_all is_above_sign bytes.now }
{
    let mut least = u8::MAX;
    let mut greatest = 0;
    for byte in bytes {
        least = least.min(*byte);
        greatest = greatest.max(*byte);
    }
    least > b'%' && greatest <= 0x7e
}

fn are_each_plain(bytes: &[u8]) -> bool
    ensures { result ≡ list_all is_plain bytes.now }
{
    let mut plain = true;
    for byte in bytes {
        plain &= is_plain_byte(*byte);
    }
    plain
}

/// Whether the bytes are their own word: there is one, and each of them stands for itself.
pub(crate) fn spells_itself(word: &[u8]) -> bool
    ensures read { IsTrue result → bytes_of word.now ≡ Some word.now }
    ensures printed { IsTrue result → word_of word.now ≡ word.now }
{
    !word.is_empty() && are_plain(word)
}

fn digit(value: u8) -> u8
    requires { value < 16 }
    ensures { result ≡ digit_of value }
{
    if value < 10 { value + b'0' } else { value + 87 }
}

fn value_of_digit(digit: u8) -> Option<u8>
    ensures value { result ≡ digit_value digit }
    ensures in_range { IfSome result (λ v. v < 16) }
{
    match digit {
        b'0'..=b'9' => Some(digit - b'0'),
        b'a'..=b'f' => Some(digit - 87),
        b'A'..=b'F' => Some(digit - 55),
        _ => None,
    }
}

fn byte_of_digits(high: u8, low: u8) -> Option<u8>
    ensures { result ≡ digits_byte high low }
{
    let high = value_of_digit(high)?;
    let low = value_of_digit(low)?;
    Some(16 * high + low)
}

/// The bytes that the word spells; none where it spells none: a byte outside 21 to 7e, a `%` without two
/// hexadecimal digits (of either case) after it, `%-` inside a longer word, no bytes at all.
pub fn read_word(alloc: Global, word: &[u8]) -> Result<Option<Vec<u8>>, AllocError>
    ensures { IfOk result (λ read. MatchOption read (bytes_of word.now ≡ None) (λ v. bytes_of word.now ≡ Some v.items)) }
{
    if word.is_empty() {
        return Ok(None);
    }
    if word == b"%-".as_slice() {
        return Ok(Some(Vec::new(alloc)));
    }
    unescape(alloc, word)
}

/// The byte that a word begins with after a `%`, and what follows it; none where no byte is spelled there.
pub(crate) fn escaped(word: &[u8]) -> Option<(u8, &[u8])>
    ensures byte { Escapes word.now result }
    ensures first { lent_byte result ≡ escaped_byte word.now }
    ensures shorter { IfSome result (λ x. length x.1.now < length word.now) }
{
    let (high, after) = word.split_first()?;
    let (low, rest) = after.split_first()?;
    let Some(byte) = byte_of_digits(*high, *low) else {
        return None;
    };
    Some((byte, rest))
}

fn unescape(alloc: Global, word: &[u8]) -> Result<Option<Vec<u8>>, AllocError>
    ensures { IfOk result (λ read. MatchOption read (spelled between [] word.now ≡ None) (λ v. spelled between [] word.now ≡ Some v.items)) }
{
    let mut bytes = Vec::new(alloc);
    let mut rest = word;
    while let [first, after @ ..] = rest {
        if *first == b'%' {
            let Some((byte, more)) = escaped(after) else {
                return Ok(None);
            };
            bytes.push(byte)?;
            rest = more;
        } else {
            if !is_plain_byte(*first) {
                return Ok(None);
            }
            bytes.push(*first)?;
            rest = after;
        }
    }
    Ok(Some(bytes))
}

/// Reading what `push_word` prints gives the bytes back.
pub fn word_law()
    ensures { WordLaw }
{}
