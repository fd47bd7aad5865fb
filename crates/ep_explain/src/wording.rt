//! Words of a line, as they are reported.

ghost use Rattle.std.specs.Prelude.{◌≡◌, [], IfOk};

use ep_base::{Answer, InstanceId};
use ep_frame::Frame;
use ep_journal::Event;
use ep_report::{push_answer, push_instance, push_number};
use ep_script::push_word;
use ep_view::{push_event, push_message, push_origin};
use std::alloc::{AllocError, Global};
use std::marker::Model;

/// Words of a line. Where memory is refused for some of them it is cut, and isn't handed out.
#[derive(Drop)]
pub(crate) struct Wording {
    words: Vec<u8>,
    is_cut: bool,
}

impl Model for Wording {
    ghost use Rattle.std.specs.Prelude.{List, ℕ};

    ghost Value = { List ℕ };

    ghost view = { λ t. t.words.items };
}

impl Wording {
    /// No words yet.
    pub(crate) fn new(alloc: Global) -> Wording
        ensures { result ≡ [] }
    {
        Wording {
            words: Vec::new(alloc),
            is_cut: false,
        }
    }

    /// All words.
    pub(crate) fn words(&self) -> Result<&[u8], AllocError>
        ensures { IfOk result (λ words. words.now ≡ self.now) }
    {
        if self.is_cut {
            return Err(AllocError);
        }
        Ok(self.words.as_slice())
    }

    /// Notes whether memory was refused.
    pub(crate) fn note(&mut self, reported: Result<(), AllocError>)
        ensures { self.new ≡ self.old }
    {
        if reported.is_err() {
            self.is_cut = true;
        }
    }

    /// Appends words.
    pub(crate) fn say(&mut self, words: &[u8]) {
        let reported = self.words.extend_from_slice(words);
        self.note(reported);
    }

    /// Appends a text, if memory was given for it.
    pub(crate) fn text(&mut self, text: Result<String, AllocError>) {
        match text {
            Ok(text) => self.say(text.as_bytes()),
            Err(_) => self.is_cut = true,
        }
    }

    /// Where the words are.
    pub(crate) fn allocator(&self) -> Global {
        *self.words.allocator()
    }

    /// Appends a number in decimal digits.
    pub(crate) fn number(&mut self, number: u64) {
        let reported = push_number(&mut self.words, number);
        self.note(reported);
    }

    /// Appends words, with these numbers in the places of `#`.
    pub(crate) fn say_with(&mut self, form: &[u8], numbers: &[u64]) {
        let mut rest = numbers;
        for byte in form {
            rest = self.say_byte(*byte, rest);
        }
    }

    // Appends a byte, or in the place of `#` the first of these numbers, and gives those that are left.
    fn say_byte<'a>(&mut self, byte: u8, numbers: &'a [u64]) -> &'a [u64] {
        match numbers {
            [first, rest @ ..] if byte == b'#' => {
                self.number(*first);
                rest
            }
            _ => {
                self.say(&[byte]);
                numbers
            }
        }
    }

    /// Appends these bytes as a word; where they are more than `most`, the first of them, and `...`.
    pub(crate) fn front(&mut self, bytes: &[u8], most: usize) {
        let (front, rest) = bytes.split_at(most.min(bytes.len()));
        let reported = push_word(&mut self.words, front);
        self.note(reported);
        if !rest.is_empty() {
            self.say(b"...");
        }
    }

    /// Appends an instance.
    pub(crate) fn instance(&mut self, instance: InstanceId) {
        let reported = push_instance(&mut self.words, instance);
        self.note(reported);
    }

    /// Appends an answer.
    pub(crate) fn answer(&mut self, answer: &Answer) {
        let reported = push_answer(&mut self.words, answer);
        self.note(reported);
    }

    /// Appends an event.
    pub(crate) fn event(&mut self, event: &Event) {
        let reported = push_event(&mut self.words, event);
        self.note(reported);
    }

    /// Appends a frame: which one it is, to whom it goes, its stamp and its message.
    pub(crate) fn frame(&mut self, frame: &Frame) {
        let origin = frame.origin();
        let reported = push_origin(&mut self.words, frame);
        self.note(reported);
        self.say_with(
            b" to # stamp # ",
            &[origin.to.index() as u64, origin.stamp.ticks()],
        );
        let reported = push_message(&mut self.words, frame);
        self.note(reported);
    }
}
