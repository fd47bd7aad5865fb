//! Lines of a text.

ghost use Rattle.std.specs.Prelude.{◌≡◌};
ghost use Rattle.ep_script.specs.RawLines.{IsNextLine};

use crate::script_draft::without_return;
use memchr::memchr;

/// The lines of some bytes that aren't passed yet.
#[derive(Drop)]
pub struct Lines<'a> {
    rest: &'a [u8],
}

impl<'a> Lines<'a> {
    /// All lines of the bytes.
    pub fn new(bytes: &'a [u8]) -> Lines<'a>
        ensures { result.rest.now ≡ bytes.now }
    {
        Lines { rest: bytes }
    }

    /// The next line, without its line feed and one carriage return; none at the end.
    pub fn next_line(&mut self) -> Option<&'a [u8]>
        ensures { IsNextLine self.old.rest.now self.new.rest.now result }
    {
        if self.rest.is_empty() {
            return None;
        }
        let rest = self.rest;
        let end = memchr(b'\n', rest).unwrap_or(rest.len());
        let (line, after) = rest.split_at(end.min(rest.len()));
        self.rest = after.get(1..).unwrap_or(&[]);
        Some(without_return(line))
    }
}
