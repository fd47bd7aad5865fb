//! The words of items of a command over many keys.

ghost use Rattle.std.specs.Prelude.{◌≡◌};
ghost use Rattle.ep_script.specs.ItemWords.{is_write as writes, is_item as begins_item, has_value as is_long_item, are_of_kind, IsNextItem, IsNextWord};

use crate::words::{is_word, next_word};

/// The words of items that aren't passed yet.
#[derive(Drop)]
pub(crate) struct ItemWords<'a> {
    /// The place of the word that is passed last.
    place: u32,
    rest: &'a [u8],
}

/// The first two words of an item, and the place of its key.
#[derive(Drop)]
pub(crate) struct ItemWord<'a> {
    pub word: &'a [u8],
    pub key: &'a [u8],
    pub place: u32,
}

impl<'a> ItemWords<'a> {
    /// These words, behind the word at this place.
    pub(crate) fn new(place: u32, rest: &'a [u8]) -> ItemWords<'a>
        ensures place { result.place ≡ place }
        ensures rest { result.rest.now ≡ rest.now }
    {
        ItemWords { place, rest }
    }

    /// The next item; none where no key is left.
    pub(crate) fn next_item(&mut self) -> Option<ItemWord<'a>>
        ensures { IsNextItem self.old self.new result }
    {
        let word = self.next()?;
        let key = self.next()?;
        let place = self.place;
        if has_value(word) {
            self.next();
        }
        Some(ItemWord { word, key, place })
    }

    fn next(&mut self) -> Option<&'a [u8]>
        ensures { IsNextWord self.old self.new result }
    {
        let (word, rest) = next_word(self.rest)?;
        self.place = self.place.saturating_add(1);
        self.rest = rest;
        Some(word)
    }
}

impl<'a> ItemWord<'a> {
    /// Whether an item that begins with this word says something of the kind: what a key has to have, that its value is asked for, or what it is given.
    pub(crate) fn is_kind(&self, word: &[u8]) -> bool
        ensures { result ≡ are_of_kind self.now.word.now word.now }
    {
        if is_write(self.word) {
            is_write(word)
        } else {
            is_word(self.word, word)
        }
    }
}

/// Whether an item may begin with the word.
pub(crate) fn is_item(word: &[u8]) -> bool
    ensures { result ≡ begins_item word.now }
{
    is_word(word, b"if") || is_word(word, b"get") || is_write(word)
}

/// Whether a value stands behind the key of an item that begins with the word.
fn has_value(word: &[u8]) -> bool
    ensures { result ≡ is_long_item word.now }
{
    is_word(word, b"if") || is_word(word, b"put")
}

fn is_write(word: &[u8]) -> bool
    ensures { result ≡ writes word.now }
{
    is_word(word, b"put") || is_word(word, b"del")
}
