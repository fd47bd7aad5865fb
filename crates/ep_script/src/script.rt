//! Scripts.

ghost use Rattle.std.specs.Prelude.{◌≡◌, Some, None, IfOk, MatchBool};
ghost use Rattle.ep_script.specs.Parts.{words_of};
ghost use Rattle.ep_script.specs.Plan.{no_lines, with_line};

use crate::head::Head;
use crate::line::Line;
use crate::reading_replay::read_line;
use crate::script_kind::ScriptKind;
use ep_base::Size;
use std::alloc::{AllocError, Global};
use std::marker::Model;

/// For so many lines a script has room from its first one on.
const ROOM: usize = 2048;

/// A script for a replay: its head, and the lines behind it that aren't skipped, each with its number.
#[derive(Debug, Drop)]
pub struct Script {
    head: Head,
    lines: Vec<(u32, Line)>,
}

impl Model for Script {
    ghost use Rattle.ep_script.specs.Plan.{Plan};

    ghost Value = { Plan };

    ghost view = { λ s. record { head = s.head; lines = s.lines.items } };
}

impl ScriptKind for Script {
    ghost begins = { no_lines };

    ghost takes = { with_line };

    fn begin(alloc: Global, head: Head) -> Script {
        Script {
            head,
            lines: Vec::new(alloc),
        }
    }

    fn take(&mut self, alloc: Global, number: u32, words: &[u8]) -> Result<bool, AllocError> {
        match read_line(alloc, self.head.size(), self.head.version(), words)? {
            None => Ok(false),
            Some(line) => {
                if self.lines.is_empty() {
                    self.lines.reserve(ROOM)?;
                }
                self.lines.push((number, line))?;
                Ok(true)
            }
        }
    }
}

impl Script {
    /// The size of the cluster.
    pub fn size(&self) -> Size
        ensures { result ≡ self.now.head.faults }
    {
        self.head.size()
    }

    /// The head.
    pub fn head(&self) -> &Head
        ensures { result.now ≡ self.now.head }
    {
        &self.head
    }

    /// The lines behind the head that aren't skipped, each with its number, counted from 1.
    pub fn lines(&self) -> &[(u32, Line)]
        ensures { result.now ≡ self.now.lines }
    {
        self.lines.as_slice()
    }
}
