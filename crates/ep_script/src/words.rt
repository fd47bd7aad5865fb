//! Words of a line, and the parts of a word.

ghost use Rattle.std.specs.Prelude.{◌≡◌, ◌==◌, ◌<◌, ◌≤◌, ℕ, List, [], ◌∷◌, None, length, IfSome, MatchBool, MatchOption};
ghost use Rattle.std.specs.List.{position_or_len};
ghost use Rattle.std.specs.Str.{bytes_eq};
ghost use Rattle.ep_base.specs.declared.version.Version.{Version};
ghost use Rattle.ep_script.specs.Parts.{words_of, is_blank};
ghost use Rattle.ep_script.specs.Places.{BeginsWithout};
ghost use Rattle.ep_script.specs.Grammar.{parts_of, instance_parts, is_silent};

use memchr::memchr2;

fn is_blank_byte(byte: u8) -> bool
    ensures { result ≡ is_blank byte }
{
    byte == b' ' || byte == b'\t'
}

/// The first word of a line, and what follows it; none where no word is left. Spaces and tabs separate words.
pub fn next_word(line: &[u8]) -> Option<(&[u8], &[u8])>
    ensures words { MatchOption result (words_of line.now ≡ []) (λ x. words_of line.now ≡ x.0.now ∷ words_of x.1.now) }
    ensures shorter { IfSome result (λ x. length x.1.now < length line.now) }
{
    let rest = without_blanks(line);
    if rest.is_empty() {
        return None;
    }
    let (word, after) = rest.split_at(word_length(rest));
    Some((word, after))
}

fn without_blanks(line: &[u8]) -> &[u8]
    ensures words { words_of result.now ≡ words_of line.now }
    ensures first { BeginsWithout is_blank result.now }
    ensures no_longer { length result.now ≤ length line.now }
{
    let mut rest = line;
    while let [first, after @ ..] = rest {
        if !is_blank_byte(*first) {
            return rest;
        }
        rest = after;
    }
    rest
}

// How many bytes stand before the first blank.
fn word_length(line: &[u8]) -> usize
    ensures value { result ≡ position_or_len is_blank line.now }
    ensures bound { result ≤ length line.now }
{
    match memchr2(b' ', b'\t', line) {
        Some(place) => place,
        None => line.len(),
    }
}

/// What stands before the first dot of a word, and what stands after it; none where it has no dot.
pub(crate) fn split_dot(word: &[u8]) -> Option<(&[u8], &[u8])>
    ensures { MatchOption result (parts_of word.now ≡ word.now ∷ []) (λ x. parts_of word.now ≡ x.0.now ∷ parts_of x.1.now) }
{
    let place = dot_place(word);
    if place == word.len() {
        return None;
    }
    Some((&word[..place], &word[place + 1..]))
}

/// Whether the word has a dot, so that it is more than one part.
pub(crate) fn has_dot(word: &[u8]) -> bool
    ensures { MatchBool result ((n : ℕ) (v : Version) (first : List ℕ) → instance_parts n v (first ∷ parts_of word.now) ≡ None) (parts_of word.now ≡ word.now ∷ []) }
{
    dot_place(word) < word.len()
}

// How many bytes stand before the first dot.
fn dot_place(word: &[u8]) -> usize
    ensures value { result ≡ position_or_len (λ b. b == 46) word.now }
    ensures bound { result ≤ length word.now }
{
    let mut count = 0usize;
    let mut rest = word;
    while let [first, after @ ..] = rest {
        if *first == b'.' {
            return count;
        }
        count += 1;
        rest = after;
    }
    count
}

/// Whether a line says nothing: it has no words, or the first begins a comment.
pub(crate) fn is_silent_line(line: &[u8]) -> bool
    ensures { result ≡ is_silent (words_of line.now) }
{
    match without_blanks(line) {
        [] => true,
        [first, ..] => *first == b'#',
    }
}

/// Whether the word is this one.
pub(crate) fn is_word(word: &[u8], text: &[u8]) -> bool
    ensures { result ≡ bytes_eq word.now text.now }
{
    word == text
}
