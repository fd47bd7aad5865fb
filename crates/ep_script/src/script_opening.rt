//! What the replicas of a script open with.

ghost use Rattle.std.specs.Prelude.{◌≡◌, ◌≤◌};
ghost use Rattle.ep_script.specs.Heads.{AreOnce, IsOpening, no_opening};

use ep_base::{Key, Value};
use std::alloc::Global;
use std::marker::Model;

/// What the replicas of a script open with: the keys that have a value, each once, in the order of their lines; and the stamp that their
/// clocks go on from, from 0 to 281,474,976,710,654.
#[derive(Debug, Drop)]
pub struct ScriptOpening {
    entries: Vec<(Key, Value)>,
    base_stamp: u64,
}

impl Model for ScriptOpening {
    ghost use Rattle.ep_script.specs.Heads as heads;

    ghost Value = { heads.Opening };

    ghost view = { λ o. record { entries = o.entries.items; base_stamp = o.base_stamp } };

    ghost invariant = { λ o. heads.IsOpening (record { entries = o.entries.items; base_stamp = o.base_stamp }) };
}

impl ScriptOpening {
    /// What a life begins with: no key has a value, and clocks begin at 0.
    pub(crate) fn none(alloc: Global) -> ScriptOpening
        ensures { result ≡ no_opening }
    {
        ScriptOpening {
            entries: Vec::new(alloc),
            base_stamp: 0,
        }
    }

    /// These entries, each of another key, and this stamp.
    pub(crate) fn new(entries: Vec<(Key, Value)>, base_stamp: u64) -> ScriptOpening
        requires { IsOpening (record { entries = entries.items; base_stamp = base_stamp }) }
        ensures { result ≡ record { entries = entries.items; base_stamp = base_stamp } }
    {
        ScriptOpening {
            entries,
            base_stamp,
        }
    }

    /// The keys that have a value, each once and with it, in the order of their lines.
    pub fn entries(&self) -> &[(Key, Value)]
        ensures value { result.now ≡ self.now.entries }
        ensures once { AreOnce self.now.entries }
    {
        self.entries.as_slice()
    }

    /// The stamp that the clocks go on from.
    pub fn base_stamp(&self) -> u64
        ensures value { result ≡ self.now.base_stamp }
        ensures in_range { result ≤ 281474976710654 }
    {
        self.base_stamp
    }
}
