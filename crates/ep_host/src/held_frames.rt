//! Frames that are held.

ghost use Rattle.std.specs.Prelude.{◌≡◌};

use crate::host_frame::HostFrame;
use std::alloc::{AllocError, Global};
use std::collections::VecDeque;
use std::marker::Model;

/// Frames that are held, in order. The room for more isn't seen.
#[derive(Drop)]
pub struct HeldFrames {
    frames: VecDeque<HostFrame>,
}

impl Model for HeldFrames {
    ghost use Rattle.std.specs.Prelude.{List, ℕ};

    ghost Value = { List (List ℕ) };

    ghost view = { λ h. h.frames.items };
}

impl HeldFrames {
    ghost use Rattle.std.specs.Prelude.{◌≡◌, ◌∷◌, ◌++◌, [], IfNone, OnOk, OnErr, length, option_to_list};

    /// None.
    pub fn new(alloc: Global) -> HeldFrames
        ensures { result ≡ [] }
    {
        HeldFrames {
            frames: VecDeque::new(alloc),
        }
    }

    /// How many there are.
    pub fn len(&self) -> usize
        ensures { result ≡ length self.now }
    {
        self.frames.len()
    }

    /// Makes room for so many more.
    pub fn reserve(&mut self, more: usize) -> Result<(), AllocError>
        ensures { self.new ≡ self.old }
    {
        self.frames.reserve(more)?;
        Ok(())
    }

    /// Holds one more.
    pub fn push(&mut self, frame: HostFrame) -> Result<(), AllocError>
        ensures ok { OnOk result (self.new ≡ self.old ++ frame ∷ []) }
        ensures err { OnErr result (self.new ≡ self.old) }
    {
        self.frames.push_back(frame)?;
        Ok(())
    }

    /// Takes the first.
    pub fn pop(&mut self) -> Option<HostFrame>
        ensures items { self.old ≡ option_to_list result ++ self.new }
        ensures none { IfNone result (self.old ≡ []) }
    {
        self.frames.pop_front()
    }
}
