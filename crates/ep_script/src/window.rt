//! A window on the bytes of a source.

ghost use Rattle.std.specs.Prelude.{◌≡◌, ◌↔◌, ◌≤◌, ℕ, List, [], true, length, drop, OnOk, IsTrue};
ghost use Rattle.ep_base.specs.Devices.{FailsAsReported};
ghost use Rattle.ep_script.specs.Window.{HasLeft};

use ep_base::{ReadFailed, Source};
use std::marker::Model;

/// The most bytes that are pulled at once.
const ROOM: usize = 1024;

/// Bytes that were pulled and not yet taken. Contracts see them as a list.
#[derive(Drop)]
pub(crate) struct Window {
    bytes: [u8; ROOM],
    start: usize,
    end: usize,
}

impl Model for Window {
    ghost use Rattle.std.specs.Prelude.{ℕ, List, ◌≤◌, slice_range};

    ghost Value = { List ℕ };

    ghost view = { λ w. slice_range w.bytes w.start w.end };

    ghost invariant = { λ w. (w.start ≤ w.end) × (w.end ≤ 1024) };
}

impl Window {
    pub(crate) fn new() -> Window
        ensures { result ≡ [] }
    {
        Window {
            bytes: [0; ROOM],
            start: 0,
            end: 0,
        }
    }

    /// Pulls bytes if there are none. None are there then only at the end of the source.
    pub(crate) fn ready<S: Source>(&mut self, source: &mut S) -> Result<(), ReadFailed>
        ensures bytes { (zs : List ℕ) → HasLeft self.old (S.left source.old) zs → OnOk result (HasLeft self.new (S.left source.new) zs × (self.new ≡ [] → zs ≡ [])) }
        ensures failed { FailsAsReported (λ _. true) result (S.has_failed source.old) (S.has_failed source.new) }
    {
        if !self.is_empty() {
            return Ok(());
        }
        self.fill(source)
    }

    /// Whether no byte is there.
    pub(crate) fn is_empty(&self) -> bool
        ensures { IsTrue result ↔ (self.now ≡ []) }
    {
        self.start == self.end
    }

    // Pulls bytes into the empty window.
    fn fill<S: Source>(&mut self, source: &mut S) -> Result<(), ReadFailed>
        requires { self.old ≡ [] }
        ensures bytes { (zs : List ℕ) → HasLeft self.old (S.left source.old) zs → OnOk result (HasLeft self.new (S.left source.new) zs × (self.new ≡ [] → zs ≡ [])) }
        ensures failed { FailsAsReported (λ _. true) result (S.has_failed source.old) (S.has_failed source.new) }
    {
        self.start = 0;
        self.end = 0;
        self.end = source.pull(&mut self.bytes)?;
        Ok(())
    }

    /// The bytes that were pulled and not yet taken.
    pub(crate) fn bytes(&self) -> &[u8]
        ensures { result.now ≡ self.now }
    {
        &self.bytes[self.start..self.end]
    }

    /// Takes so many bytes.
    pub(crate) fn skip(&mut self, count: usize)
        requires { count ≤ length self.old }
        ensures { self.new ≡ drop count self.old }
    {
        self.start += count;
    }
}
