//! Why a line of a script is refused.

ghost use Rattle.std.specs.Prelude.{◌≡◌, ◌-◌, ◌<◌, [], length, is_some, ◌&&◌, IfSome};
ghost use Rattle.std.specs.Str.{bytes_eq};
ghost use Rattle.ep_script.specs.Parts.{words_of};
ghost use Rattle.ep_script.specs.Refusals.{word_behind, fault_at, is_in_range, may_stand, misplaced_at};
ghost use Rattle.ep_script.specs.Word.{first_byte, lent_byte};

use crate::form::{COMMANDS, Form, LINES, form_of};
use crate::item_words::{ItemWords, is_item};
use crate::lines::Lines;
use crate::numbers::{long_number, number};
use crate::operand::Operand;
use crate::reader;
use crate::reading::read_size;
use crate::reading_head::{is_opening_line, read_generation};
use crate::reading_run::{kind, weather_line};
use crate::script_draft::BYTES;
use crate::standing::Standing;
use crate::why::Why;
use crate::word::{escaped, is_plain_byte};
use crate::words::{has_dot, is_silent_line, is_word, next_word, split_dot};
use ep_base::{MOST_KEYS, MOST_REPORTED, Size, Version};

/// What an ask or an act has behind its word, where it has one key.
const ONE_KEY: [Operand; 2] = [Operand::Key, Operand::Body];

/// Why a line is refused: the first word at fault, and what may stand there. It is found by going over the line's words, by the reader's own functions.
#[derive(Drop)]
pub struct Refusal<'a> {
    /// What is wrong.
    pub why: Why,
    /// The number of the word, from 1, and the word.
    pub place: u32,
    pub word: &'a [u8],
    /// What may stand there.
    pub operand: Operand,
    /// Where the line or the command may stand that begins with the word.
    pub standing: Standing,
    /// The line as it may be: the words before a command, and the command, or all of them, and nothing.
    pub lead: &'static [u8],
    pub form: &'static [u8],
    /// The cluster's size, and the line that says it.
    pub size: Option<Size>,
    pub size_line: u32,
    pub version: Version,
    // for what the script is, and whether a line behind its head has come
    of: Standing,
    is_within: bool,
    // what stands behind the word, and the word that another one has to differ from
    rest: &'a [u8],
    other: &'a [u8],
    // the items of a command over many keys and the place of the word before them, and of how many keys the value is asked for, and how many are named
    items: &'a [u8],
    items_place: u32,
    reported: usize,
    keys: usize,
}

impl<'a> Refusal<'a> {
    /// Why the line with this number is refused, from 1, of a script of these bytes for a replay or for a run, of which the lines before are read.
    pub fn find(bytes: &'a [u8], of: Standing, number: u32) -> Refusal<'a> {
        let mut lines = Lines::new(bytes);
        let mut refusal = Refusal::before_all(of);
        for place in 1..number {
            refusal.note(place, lines.next_line().unwrap_or(&[]));
        }
        match lines.next_line() {
            None => refusal.why = Why::Over,
            Some(_) if number > reader::LINES => refusal.why = Why::Lines,
            Some(line) if line.len() > BYTES => refusal.why = Why::Bytes,
            Some(line) => {
                refusal.walk(line);
                refusal.compare(bytes, line, number);
            }
        }
        refusal
    }

    fn before_all(of: Standing) -> Refusal<'a> {
        Refusal {
            why: Why::Nothing,
            place: 0,
            word: &[],
            operand: Operand::Line,
            standing: Standing::All,
            lead: &[],
            form: &[],
            size: None,
            size_line: 0,
            version: Version::V2,
            of,
            is_within: false,
            rest: &[],
            other: &[],
            items: &[],
            items_place: 0,
            reported: 0,
            keys: 0,
        }
    }

    /// Notes what a line before says.
    fn note(&mut self, place: u32, line: &[u8]) {
        if is_silent_line(line) {
            return;
        }
        if self.size.is_none() {
            self.size = read_size(line);
            self.size_line = place;
        } else if let Some(generation) = read_generation(line) {
            self.version = Version::of_generation(generation);
        } else if !is_opening_line(line) {
            self.is_within = true;
        }
    }

    /// Goes over the words of the line.
    fn walk(&mut self, line: &'a [u8]) {
        self.rest = line;
        self.enter(&LINES, Operand::Line);
        self.lead = self.form;
        self.form = &[];
        if self.operand == Operand::Client {
            self.enter(&COMMANDS, Operand::Command);
        }
        if self.operand == Operand::Item {
            self.pass_items();
        }
        if self.operand == Operand::Message {
            self.pass_messages();
        }
        self.end();
    }

    /// Goes over the first word of one of these forms, and over what stands behind it.
    fn enter(&mut self, forms: &'static [Form], operand: Operand) {
        self.pass(operand);
        if self.why != Why::Nothing {
            return;
        }
        match form_of(forms, self.word) {
            None => self.why = Why::Unlike,
            Some(form) => self.pass_form(form),
        }
    }

    fn pass_form(&mut self, form: &'static Form) {
        self.standing = form.standing;
        self.form = form.text;
        self.items = self.rest;
        self.items_place = self.place;
        self.why = self.misplaced(form.standing);
        for operand in operands_of(form, self.rest) {
            self.pass(*operand);
        }
    }

    /// Why a line that stands there may not stand here.
    fn misplaced(&self, standing: Standing) -> Why
        ensures { result ≡ misplaced_at standing self.now.size self.now.version self.now.of self.now.is_within }
    {
        let is_late = self.version.number() == 3;
        match standing {
            Standing::First if self.size.is_some() => Why::Misplaced,
            Standing::First => Why::Nothing,
            _ if self.size.is_none() => Why::Unlike,
            Standing::Second if is_late || self.is_within => Why::Misplaced,
            Standing::Opening | Standing::Late if !is_late => Why::Late,
            Standing::Opening if self.is_within => Why::Misplaced,
            Standing::Replay | Standing::Run if standing != self.of => Why::Other,
            _ => Why::Nothing,
        }
    }

    /// Whether a line, or a command, that stands there may stand behind the head of this script.
    pub fn may_have(&self, standing: Standing) -> bool
        ensures { result ≡ (is_some self.now.size && may_stand standing self.now.of self.now.version) }
    {
        match standing {
            Standing::First | Standing::Second | Standing::Opening => false,
            _ => self.misplaced(standing) == Why::Nothing,
        }
    }

    /// Goes over the next word, which may be this.
    fn pass(&mut self, operand: Operand) {
        if self.why != Why::Nothing {
            return;
        }
        self.operand = operand;
        self.place = self.place.saturating_add(1);
        match next_word(self.rest) {
            None => self.why = Why::Lacks,
            Some((word, rest)) => {
                self.word = word;
                self.rest = rest;
                self.why = self.fault(word);
            }
        }
        if matches!(operand, Operand::Spared | Operand::Replica | Operand::Key) {
            self.other = self.word;
        }
    }

    /// Goes over all words that are left, which may be messages.
    fn pass_messages(&mut self) {
        for _ in 0..self.rest.len() {
            if next_word(self.rest).is_some() {
                self.pass(Operand::Message);
            }
        }
    }

    /// Goes over the items of a command over many keys, of which the first word is passed.
    fn pass_items(&mut self) {
        for _ in 0..=self.rest.len() {
            self.pass_item();
            if next_word(self.rest).is_none() {
                return;
            }
            self.pass(Operand::Item);
        }
    }

    /// Goes over what stands behind the first word of an item.
    fn pass_item(&mut self) {
        if self.why != Why::Nothing {
            return;
        }
        let first = self.word;
        if is_word(first, b"get") {
            self.reported = self.reported.saturating_add(1);
            if self.reported > MOST_REPORTED {
                self.why = Why::Reported;
            }
        }
        self.pass(Operand::Key);
        if self.why == Why::Nothing {
            self.why = self.item_fault(first);
        }
        if is_word(first, b"if") {
            self.pass(Operand::MaybeValue);
        }
        if is_word(first, b"put") {
            self.pass(Operand::Value);
        }
    }

    /// Why the item that begins with this word may not be of its key, which is passed.
    fn item_fault(&mut self, first: &[u8]) -> Why {
        let mut before = ItemWords::new(self.items_place, self.items);
        let mut is_new = true;
        for _ in 0..self.items.len() {
            match before.next_item() {
                Some(item) if item.place < self.place => {
                    if is_same(item.key, self.word) {
                        is_new = false;
                        if item.is_kind(first) {
                            return Why::SecondItem(item.place);
                        }
                    }
                }
                _ => return self.count_key(is_new),
            }
        }
        Why::Nothing
    }

    fn count_key(&mut self, is_new: bool) -> Why {
        if is_new {
            self.keys = self.keys.saturating_add(1);
        }
        if self.keys > MOST_KEYS {
            Why::Keys
        } else {
            Why::Nothing
        }
    }

    /// No word may be left.
    fn end(&mut self) {
        if self.why != Why::Nothing {
            return;
        }
        if let Some((word, _)) = next_word(self.rest) {
            self.word = word;
            self.place = self.place.saturating_add(1);
            self.why = Why::More;
        }
    }

    /// Why the word isn't what may stand there.
    fn fault(&mut self, word: &[u8]) -> Why {
        match self.operand {
            Operand::Line | Operand::Command => Why::Nothing,
            Operand::Propose if is_word(word, b"propose") => Why::Nothing,
            Operand::Propose => Why::Unlike,
            Operand::Item if is_item(word) => Why::Nothing,
            Operand::Item => Why::Unlike,
            Operand::Instance => self.instance_fault(word),
            Operand::MaybeValue if is_word(word, b"%!") => Why::Nothing,
            Operand::Key | Operand::Value | Operand::MaybeValue | Operand::Body => self.bytes_fault(
                word,
            ),
            Operand::OtherKey => self.other_key_fault(word),
            Operand::Proposer | Operand::Receiver => self.other_replica_fault(word),
            _ => self.number_fault(word),
        }
    }

    /// Why the word isn't a number in its range.
    fn number_fault(&self, word: &[u8]) -> Why {
        let (value, digits) = match self.operand {
            Operand::Stamp => (long_number(word), 15),
            _ => (number(word), 10),
        };
        match value {
            Some(value) if self.has(value) => Why::Nothing,
            Some(_) => Why::OutOfRange,
            None if word.len() > digits => Why::Long,
            None => Why::NoNumber,
        }
    }

    /// Whether the number is in the range of what may stand there.
    fn has(&self, value: u64) -> bool
        ensures { result ≡ is_in_range self.now.operand self.now.size self.now.version value }
    {
        if self.operand == Operand::Size {
            return matches!(value, 3 | 5 | 7);
        }
        let (least, most) = self.operand.range(self.size, self.version);
        least <= value && value <= most
    }

    fn other_replica_fault(&self, word: &[u8]) -> Why {
        match self.number_fault(word) {
            Why::Nothing if number(word) == number(self.other) => Why::Same,
            why => why,
        }
    }

    /// Why the word isn't an instance; what may stand there is the part at fault then.
    fn instance_fault(&mut self, word: &[u8]) -> Why {
        match split_dot(word) {
            Some((leader, number)) if !has_dot(number) => self.parts_fault(leader, number),
            _ => Why::NoInstance,
        }
    }

    fn parts_fault(&mut self, leader: &[u8], number: &[u8]) -> Why {
        self.operand = Operand::Leader;
        match self.number_fault(leader) {
            Why::Nothing => {
                self.operand = Operand::Number;
                self.number_fault(number)
            }
            why => why,
        }
    }

    /// Why the word doesn't spell bytes, as many as may be.
    fn bytes_fault(&self, word: &[u8]) -> Why {
        let mut rest = if is_word(word, b"%-") { &[] } else { word };
        let mut count: u64 = 0;
        for _ in 0..word.len() {
            match next_byte(rest) {
                Some((_, after)) => rest = after,
                None if rest.is_empty() => return self.length_fault(count),
                None => return no_byte(word, rest),
            }
            count = count.saturating_add(1);
        }
        self.length_fault(count)
    }

    fn length_fault(&self, count: u64) -> Why {
        if self.has(count) {
            Why::Nothing
        } else {
            Why::Length(count)
        }
    }

    fn other_key_fault(&self, word: &[u8]) -> Why {
        match self.bytes_fault(word) {
            Why::Nothing if is_same(word, self.other) => Why::Same,
            why => why,
        }
    }

    /// Where no word is at fault, finds the line before that has what the line may not have once more.
    fn compare(&mut self, bytes: &[u8], line: &'a [u8], number: u32) {
        if self.why != Why::Nothing {
            return;
        }
        let mut lines = Lines::new(bytes);
        for place in 1..number {
            let before = lines.next_line().unwrap_or(&[]);
            let why = self.repeated(place, before, line);
            if why != Why::Nothing || begins(before, b"section") {
                self.why = why;
            }
        }
        self.place = if begins(line, b"opening") { 2 } else { 1 };
        self.word = word_at(line, self.place);
    }

    /// What the line before, with this number, has that the line may not have once more.
    fn repeated(&self, place: u32, before: &[u8], line: &[u8]) -> Why {
        if begins(line, b"since") && begins(before, b"since") {
            return Why::SecondStamp(place);
        }
        if begins(line, b"opening") && begins(before, b"opening") {
            return if is_same(word_at(before, 2), word_at(line, 2)) {
                Why::SecondKey(place)
            } else {
                Why::Nothing
            };
        }
        match (self.frame_of(before), self.frame_of(line)) {
            (Some(one), Some(other)) if one == other => Why::SecondFrame(place),
            _ => Why::Nothing,
        }
    }

    /// The frame that a line of a weather is for.
    fn frame_of(&self, line: &[u8]) -> Option<(u8, u8, u32)> {
        let (first, rest) = next_word(line)?;
        let kind = kind(first)?;
        let size = self.size?;
        let line = weather_line(size, kind, rest)?;
        Some(line.frame())
    }
}

/// What stands behind the first word of a form, before these words. An ask or an act has one key where no third word stands there.
fn operands_of(form: &'static Form, words: &[u8]) -> &'static [Operand] {
    match form.operands {
        [_, Operand::OtherKey, Operand::Body] if word_at(words, 3).is_empty() => &ONE_KEY,
        operands => operands,
    }
}

/// The word at this place of the line, from 1; no bytes where there is none.
#[tactic(auto, using(crate::proofs::WordsBehind::behind_more, crate::proofs::WordsBehind::behind_none))]
fn word_at(line: &[u8], place: u32) -> &[u8]
    ensures { result.now ≡ word_behind [] place (words_of line.now) }
{
    let mut found: &[u8] = &[];
    let mut left = line;
    for _ in 0..place {
        let Some((word, rest)) = next_word(left) else {
            return &[];
        };
        found = word;
        left = rest;
    }
    found
}

fn begins(line: &[u8], word: &[u8]) -> bool
    ensures { result ≡ bytes_eq (word_behind [] 1 (words_of line.now)) word.now }
{
    is_word(word_at(line, 1), word)
}

/// The first byte that a word spells, and what follows it; none where it spells none.
fn next_byte(word: &[u8]) -> Option<(u8, &[u8])>
    ensures byte { lent_byte result ≡ first_byte word.now }
    ensures shorter { IfSome result (λ x. length x.1.now < length word.now) }
{
    match word {
        [b'%', after @ ..] => escaped(after),
        [first, after @ ..] if is_plain_byte(*first) => Some((*first, after)),
        _ => None,
    }
}

/// Why the word spells no bytes, by what of it is left from the byte at fault on.
fn no_byte(word: &[u8], rest: &[u8]) -> Why
    ensures { result ≡ fault_at (length word.now - length rest.now) rest.now }
{
    let place = word.len().saturating_sub(rest.len());
    match rest {
        [b'%', ..] => Why::Escape(place),
        _ => Why::Byte(place),
    }
}

/// Whether two words spell the same bytes.
fn is_same(one: &[u8], other: &[u8]) -> bool {
    let mut left = (one, other);
    for _ in 0..one.len() {
        match (next_byte(left.0), next_byte(left.1)) {
            (Some((byte, rest)), Some((same, more))) if byte == same => left = (rest, more),
            _ => return left.0.is_empty() && left.1.is_empty(),
        }
    }
    left.0.is_empty() && left.1.is_empty()
}
