//! Sections of a script for a run.

ghost use Rattle.std.specs.Prelude.{◌≡◌, ◌↔◌, true, false, IsTrue, IfOk, OnOk, OnErr, MatchBool};
ghost use Rattle.ep_script.specs.Plan.{no_section, with_agenda, with_weather, has_frame};

use crate::agenda_line::AgendaLine;
use crate::section_weather::SectionWeather;
use crate::weather_line::WeatherLine;
use std::alloc::{AllocError, Global};
use std::marker::Model;

/// A section of a script for a run: the lines of its agendas, each with its number, and those of its weather, both in the order of the script.
#[derive(Debug, Drop)]
pub struct ScriptSection {
    lines: Vec<(u32, AgendaLine)>,
    weather: SectionWeather,
}

impl Model for ScriptSection {
    ghost use Rattle.ep_script.specs.Plan.{SectionPlan};

    ghost Value = { SectionPlan };

    ghost view = { λ s. record { lines = s.lines.items; weather = s.weather } };
}

impl ScriptSection {
    /// No lines.
    pub(crate) fn new(alloc: Global) -> ScriptSection
        ensures { result ≡ no_section }
    {
        ScriptSection {
            lines: Vec::new(alloc),
            weather: SectionWeather::new(alloc),
        }
    }

    /// Adds a line of an agenda at the end. At an `Err` nothing has changed.
    pub(crate) fn push(&mut self, number: u32, line: AgendaLine) -> Result<(), AllocError>
        ensures ok { OnOk result (self.new ≡ with_agenda number line self.old) }
        ensures err { OnErr result (self.new ≡ self.old) }
    {
        self.lines.push((number, line))?;
        Ok(())
    }

    /// Adds a line of the weather at the end. False where there is one for its frame, and then, as at an `Err`, nothing has changed.
    pub(crate) fn push_weather(&mut self, line: WeatherLine) -> Result<bool, AllocError>
        ensures ok { IfOk result (λ b. MatchBool b ((has_frame line self.old ≡ false) × (self.new ≡ with_weather line self.old)) ((has_frame line self.old ≡ true) × (self.new ≡ self.old))) }
        ensures err { OnErr result (self.new ≡ self.old) }
    {
        let is_new = self.weather.push(line)?;
        Ok(is_new)
    }

    /// Whether it has no line.
    pub(crate) fn is_empty(&self) -> bool
        ensures { IsTrue result ↔ (self.now ≡ no_section) }
    {
        self.lines.is_empty() && self.weather.as_slice().is_empty()
    }

    /// The lines of the agendas, each with its number, counted from 1.
    pub fn lines(&self) -> &[(u32, AgendaLine)]
        ensures { result.now ≡ self.now.lines }
    {
        self.lines.as_slice()
    }

    /// The lines of the weather.
    pub fn weather(&self) -> &[WeatherLine]
        ensures { result.now ≡ self.now.weather }
    {
        self.weather.as_slice()
    }
}
