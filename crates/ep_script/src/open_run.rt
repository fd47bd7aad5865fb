//! The first lines of a script for a run.

ghost use Rattle.std.specs.Prelude.{◌≡◌, ◌++◌, ◌∷◌, [], Ok, Some, None, IfOk, OnOk, MatchBool};
ghost use Rattle.ep_base.specs.Quorums.{size as size_with};
ghost use Rattle.ep_script.specs.Fits.{AllFit, FitsSection, FitsRun, FitsWeather};
ghost use Rattle.ep_script.specs.Parts.{words_of};
ghost use Rattle.ep_script.specs.Plan.{no_section, no_sections, with_run_line, after_line, run_of_open};
ghost use Rattle.ep_script.specs.declared.run_line.RunLine.TheVariants.{Weather};

use crate::head::Head;
use crate::reading_run::read_run_line;
use crate::run_line::RunLine;
use crate::run_script::RunScript;
use crate::script_kind::ScriptKind;
use crate::script_section::ScriptSection;
use crate::weather_line::WeatherLine;
use std::alloc::{AllocError, Global};
use std::marker::Model;

/// A script for a run, as far as its lines have been read: the sections that have ended, and the one that hasn't.
#[derive(Drop)]
pub(crate) struct OpenRun {
    head: Head,
    ended: Vec<ScriptSection>,
    current: ScriptSection,
}

impl Model for OpenRun {
    ghost use Rattle.ep_base.specs.Quorums.{size as size_with};
    ghost use Rattle.ep_script.specs.Fits.{AllFit, FitsSection};
    ghost use Rattle.ep_script.specs.Plan.{OpenPlan};

    ghost Value = { OpenPlan };

    ghost view = { λ s. record { head = s.head; ended = s.ended.items; current = s.current } };

    ghost invariant = { λ s. AllFit (size_with s.head.faults) s.ended.items × FitsSection (size_with s.head.faults) s.current };
}

impl ScriptKind for OpenRun {
    ghost begins = { no_sections };

    ghost takes = { with_run_line };

    fn begin(alloc: Global, head: Head) -> OpenRun {
        OpenRun {
            head,
            ended: Vec::new(alloc),
            current: ScriptSection::new(alloc),
        }
    }

    fn take(&mut self, alloc: Global, number: u32, words: &[u8]) -> Result<bool, AllocError> {
        match read_run_line(alloc, self.head.size(), self.head.version(), words)? {
            None => Ok(false),
            Some(line) => self.take_line(alloc, number, line),
        }
    }
}

impl OpenRun {
    fn take_line(&mut self, alloc: Global, number: u32, line: RunLine) -> Result<bool, AllocError>
        requires { FitsRun (size_with self.old.head.faults) line }
        ensures { IfOk result (λ b. MatchBool b (after_line number self.old line ≡ Some self.new) (after_line number self.old line ≡ None)) }
    {
        match line {
            RunLine::Agenda(line) => {
                self.current.push(number, line)?;
                Ok(true)
            }
            RunLine::Weather(line) => self.take_weather(line),
            RunLine::Section => {
                self.end_section(alloc)?;
                Ok(true)
            }
        }
    }

    fn take_weather(&mut self, line: WeatherLine) -> Result<bool, AllocError>
        requires { FitsWeather (size_with self.old.head.faults) line }
        ensures { IfOk result (λ b. MatchBool b (after_line 0 self.old (Weather line) ≡ Some self.new) (after_line 0 self.old (Weather line) ≡ None)) }
    {
        let is_new = self.current.push_weather(line)?;
        Ok(is_new)
    }

    fn end_section(&mut self, alloc: Global) -> Result<(), AllocError>
        ensures { OnOk result (self.new ≡ record { head = self.old.head; ended = self.old.ended ++ self.old.current ∷ []; current = no_section }) }
    {
        let current = std::mem::replace(&mut self.current, ScriptSection::new(alloc));
        self.ended.push(current)?;
        Ok(())
    }

    /// The script, where no line follows.
    pub(crate) fn close(self) -> Result<RunScript, AllocError>
        ensures { IfOk result (λ s. run_of_open (Ok self) ≡ Ok s) }
    {
        let OpenRun {
            head,
            mut ended,
            current,
        } = self;
        if !current.is_empty() {
            ended.push(current)?;
        }
        Ok(RunScript::new(head, ended))
    }
}
