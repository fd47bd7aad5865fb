//! The weather of a section.

ghost use Rattle.std.specs.Prelude.{◌≡◌, ◌++◌, ◌∷◌, [], true, false, IfOk, OnErr, MatchBool};
ghost use Rattle.std.specs.List.{list_any};
ghost use Rattle.ep_script.specs.Plan.{same_frame};

use crate::weather_line::WeatherLine;
use std::alloc::{AllocError, Global};
use std::collections::BTreeSet;
use std::marker::Model;

/// The lines of a section's weather, no two for one frame. Contracts see them as a list.
#[derive(Debug, Drop)]
pub(crate) struct SectionWeather {
    lines: Vec<WeatherLine>,
    /// Their frames, so that one is found among many lines.
    frames: BTreeSet<(u8, u8, u32)>,
}

impl Model for SectionWeather {
    ghost use Rattle.std.specs.Prelude.{List};
    ghost use Rattle.ep_script.specs.Frames.{HasFrames};
    ghost use Rattle.ep_script.specs.declared.weather_line.WeatherLine.{WeatherLine};

    ghost Value = { List WeatherLine };

    ghost view = { λ s. s.lines.items };

    ghost invariant = { λ s. HasFrames s.frames s.lines.items };
}

impl SectionWeather {
    /// No lines.
    pub(crate) fn new(alloc: Global) -> SectionWeather
        ensures { result ≡ [] }
    {
        SectionWeather {
            lines: Vec::new(alloc),
            frames: BTreeSet::new(alloc),
        }
    }

    /// Adds a line at the end. False where there is a line for its frame, and then, as at an `Err`, nothing has changed.
    pub(crate) fn push(&mut self, line: WeatherLine) -> Result<bool, AllocError>
        ensures ok { IfOk result (λ b. MatchBool b ((list_any (same_frame line) self.old ≡ false) × (self.new ≡ self.old ++ line ∷ [])) ((list_any (same_frame line) self.old ≡ true) × (self.new ≡ self.old))) }
        ensures err { OnErr result (self.new ≡ self.old) }
    {
        let frame = line.frame();
        if self.frames.contains(&frame) {
            return Ok(false);
        }
        self.lines.push(line)?;
        if self.frames.insert(frame).is_err() {
            self.lines.pop();
            return Err(AllocError);
        }
        Ok(true)
    }

    /// The lines.
    pub(crate) fn as_slice(&self) -> &[WeatherLine]
        ensures { result.now ≡ self.now }
    {
        self.lines.as_slice()
    }
}
