//! Lines of a source, one at a time.

ghost use Rattle.std.specs.Prelude.{◌≡◌, ◌≢◌, ◌==◌, ◌≤◌, ℕ, List, [], length, min, IfOk};
ghost use Rattle.std.specs.List.{position_or_len};
ghost use Rattle.ep_base.specs.Devices.{FailsAsReported};
ghost use Rattle.ep_script.specs.Window.{HasLeft};
ghost use Rattle.ep_script.specs.RawLines.{GotOf, longest};
ghost use Rattle.ep_script.specs.SoFar.{TakesRun};
ghost use Rattle.ep_script.specs.Faults.{is_line_read_failed};

use crate::got::Got;
use crate::line_fault::LineFault;
use crate::window::Window;
use ep_base::Source;
use memchr::memchr;
use std::alloc::AllocError;

/// The bytes before a line feed that a line can have: 8,192, and a carriage return.
const LONGEST: usize = 8193;

impl Window {
    /// Reads one line without its line feed.
    pub(crate) fn line<S: Source>(
        &mut self,
        source: &mut S,
        line: &mut Vec<u8>,
    ) -> Result<Got, LineFault>
        ensures bytes { (zs : List ℕ) → HasLeft self.old (S.left source.old) zs → IfOk result (λ got. GotOf got zs line.new.items self.new (S.left source.new)) }
        ensures failed { FailsAsReported is_line_read_failed result (S.has_failed source.old) (S.has_failed source.new) }
    {
        line.clear();
        while line.len() <= LONGEST {
            self.ready(source)?;
            if self.is_empty() {
                return Ok(if line.is_empty() { Got::End } else { Got::Line });
            }
            if self.take_run(line)? {
                return Ok(Got::Line);
            }
        }
        Ok(Got::TooLong)
    }

    // Takes the bytes before the first line feed, and the feed: true. Where the window ends before it, or the line is too long with them, takes
    // those that are there, or that make it one too long: false.
    fn take_run(&mut self, line: &mut Vec<u8>) -> Result<bool, AllocError>
        requires some { self.old ≢ [] }
        requires short { length line.old.items ≤ longest }
        ensures { IfOk result (λ fed. TakesRun fed self.old self.new line.old.items line.new.items) }
    {
        let count = run_length(self.bytes(), LONGEST + 1 - line.len());
        line.extend_from_slice(&self.bytes()[..count])?;
        self.skip(count);
        if line.len() > LONGEST {
            return Ok(false);
        }
        if self.is_empty() {
            return Ok(false);
        }
        self.skip(1);
        Ok(true)
    }
}

// How many bytes stand before the first line feed, and at most so many as there is room for.
fn run_length(bytes: &[u8], room: usize) -> usize
    ensures value { result ≡ min room (position_or_len (λ b. b == 10) bytes.now) }
    ensures bound { result ≤ length bytes.now }
{
    match memchr(b'\n', bytes) {
        Some(place) => room.min(place),
        None => room.min(bytes.len()),
    }
}
