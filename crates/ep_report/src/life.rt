//! What a report of version 3 has besides.

ghost use Rattle.std.specs.Prelude.{◌≡◌, ◌<◌, ◌^◌, length};
ghost use Rattle.std.specs.FinMap.{entries};
ghost use Rattle.std.specs.Option.{option_copied};

use ep_audit::Closing;
use ep_base::Generation;
use ep_exec::Contents;
use std::marker::Model;

/// A generation, as its journals report it: its number, the stamp that its clocks went on from, the first seal of its history, if it has one, and
/// what the keys have after all of the history. Fewer than 2^32 keys have something.
#[derive(Drop)]
pub struct Life<'a> {
    generation: Generation,
    base_stamp: u64,
    closing: Option<&'a Closing>,
    contents: &'a Contents,
}

impl<'a> Model for Life<'a> {
    ghost use Rattle.std.specs.Prelude.{◌<◌, ◌^◌, length};
    ghost use Rattle.std.specs.FinMap.{entries};
    ghost use Rattle.std.specs.Option.{option_copied};
    ghost use Rattle.ep_report.specs.Lives as lives;
    ghost use Rattle.ep_report.specs.Lives.{life_code};

    ghost Value = { lives.Life };

    ghost coded = { life_code };

    ghost view = { λ l. record { generation = l.generation; base_stamp = l.base_stamp; closing = option_copied l.closing; contents = l.contents.now } };

    ghost invariant = { λ l. length (entries l.contents.now) < 2 ^ 32 };
}

impl<'a> Life<'a> {
    /// The generation with these.
    pub fn new(
        generation: Generation,
        base_stamp: u64,
        closing: Option<&'a Closing>,
        contents: &'a Contents,
    ) -> Life<'a>
        requires { length (entries contents.now) < 2 ^ 32 }
        ensures { result ≡ record { generation = generation; base_stamp = base_stamp; closing = option_copied closing.entry; contents = contents.now } }
    {
        Life {
            generation,
            base_stamp,
            closing,
            contents,
        }
    }

    /// The generation's number.
    pub fn generation(&self) -> Generation
        ensures { result ≡ self.now.generation }
    {
        self.generation
    }

    /// The stamp that its clocks went on from.
    pub fn base_stamp(&self) -> u64
        ensures { result ≡ self.now.base_stamp }
    {
        self.base_stamp
    }

    /// The first seal of its history.
    pub fn closing(&self) -> Option<&Closing>
        ensures { option_copied result ≡ self.now.closing }
    {
        self.closing
    }

    /// What the keys have after its history.
    pub fn contents(&self) -> &Contents
        ensures value { result.now ≡ self.now.contents }
        ensures few { length (entries result.now) < 2 ^ 32 }
    {
        self.contents
    }
}
