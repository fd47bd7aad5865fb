//! The first lines of a script.

ghost use Rattle.std.specs.Prelude.{◌≡◌, ℕ, Ok, Some, None, IfOk, IfErr, IfSome, MatchBool, option_map, option_and_then};
ghost use Rattle.std.specs.Str.Lines.{strip_carriage_return};
ghost use Rattle.ep_script.specs.Parts.{words_of};
ghost use Rattle.ep_script.specs.Grammar.{size_of, generation_of, opening_of};
ghost use Rattle.ep_script.specs.Heads.{open_head, after_opening};
ghost use Rattle.ep_script.specs.Plan.{begun, sized_said, said, words_step, line_step, ended as ended_at, IsNoHead};
ghost use Rattle.ep_script.specs.Outcome.{IsScript};
ghost use Rattle.ep_script.specs.declared.script_fault.ScriptFault.TheVariants.{Refused};
ghost use Rattle.ep_script.specs.declared.stage.Stage.TheVariants.{Before, Sized, Opening};

use crate::head::Head;
use crate::open_head::OpenHead;
use crate::reading::read_size;
use crate::reading_head::{is_generation, is_opening_line, read_generation, read_opening_line};
use crate::script_fault::ScriptFault;
use crate::script_kind::ScriptKind;
use crate::stage::Stage;
use crate::words::is_silent_line;
use ep_base::Size;
use std::alloc::{AllocError, Global};

/// The most bytes that a line can have, without its line feed and one carriage return.
pub(crate) const BYTES: usize = 8192;

/// What the first lines of a script say.
#[derive(Drop)]
pub(crate) struct ScriptDraft<P: ScriptKind> {
    stage: Stage<P>,
}

impl<P: ScriptKind> ScriptDraft<P> {
    /// No lines.
    pub(crate) fn new() -> ScriptDraft<P>
        ensures { result.stage ≡ Before }
    {
        ScriptDraft {
            stage: Stage::Before,
        }
    }

    /// Takes the next line. False where it is refused.
    pub(crate) fn take_line(
        &mut self,
        alloc: Global,
        number: u32,
        line: &[u8],
    ) -> Result<bool, AllocError>
        ensures { IfOk result (λ b. MatchBool b (line_step P.begins P.takes number self.old.stage line.now ≡ Some self.new.stage) (line_step P.begins P.takes number self.old.stage line.now ≡ None)) }
    {
        let line = without_return(line);
        if line.len() > BYTES {
            return Ok(false);
        }
        self.take_words(alloc, number, line)
    }

    fn take_words(&mut self, alloc: Global, number: u32, words: &[u8]) -> Result<bool, AllocError>
        ensures { IfOk result (λ b. MatchBool b (words_step P.begins P.takes number self.old.stage (words_of words.now) ≡ Some self.new.stage) (words_step P.begins P.takes number self.old.stage (words_of words.now) ≡ None)) }
    {
        if is_silent_line(words) {
            return Ok(true);
        }
        self.take_said(alloc, number, words)
    }

    fn take_said(&mut self, alloc: Global, number: u32, words: &[u8]) -> Result<bool, AllocError>
        ensures { IfOk result (λ b. MatchBool b (said P.begins P.takes number self.old.stage (words_of words.now) ≡ Some self.new.stage) (said P.begins P.takes number self.old.stage (words_of words.now) ≡ None)) }
    {
        match &mut self.stage {
            Stage::Before => Ok(self.take_size(words)),
            Stage::Sized(size) => {
                let size = *size;
                self.take_second(alloc, number, size, words)
            }
            Stage::Opening(head) => {
                if is_opening_line(words) {
                    return take_opening(alloc, head, words);
                }
                let head = head.close(alloc);
                self.begin(alloc, number, head, words)
            }
            Stage::Within(script) => script.take(alloc, number, words),
        }
    }

    // Takes `replicas N`.
    fn take_size(&mut self, words: &[u8]) -> bool
        ensures { MatchBool result (option_map (λ f. Sized f) (size_of (words_of words.now)) ≡ Some self.new.stage) (size_of (words_of words.now) ≡ None) }
    {
        match read_size(words) {
            None => false,
            Some(size) => {
                self.stage = Stage::Sized(size);
                true
            }
        }
    }

    // Takes the line behind `replicas N`.
    fn take_second(
        &mut self,
        alloc: Global,
        number: u32,
        size: Size,
        words: &[u8],
    ) -> Result<bool, AllocError>
        ensures { IfOk result (λ b. MatchBool b (sized_said P.begins P.takes number size (words_of words.now) ≡ Some self.new.stage) (sized_said P.begins P.takes number size (words_of words.now) ≡ None)) }
    {
        if is_generation(words) {
            return Ok(self.take_generation(alloc, size, words));
        }
        let head = Head::first(alloc, size);
        self.begin(alloc, number, head, words)
    }

    // Takes `generation G`.
    fn take_generation(&mut self, alloc: Global, size: Size, words: &[u8]) -> bool
        ensures { MatchBool result (option_map (λ g. Opening (open_head size g)) (generation_of (words_of words.now)) ≡ Some self.new.stage) (generation_of (words_of words.now) ≡ None) }
    {
        match read_generation(words) {
            None => false,
            Some(generation) => {
                self.stage = Stage::Opening(OpenHead::new(alloc, size, generation));
                true
            }
        }
    }

    // Takes the first line behind the head.
    fn begin(
        &mut self,
        alloc: Global,
        number: u32,
        head: Head,
        words: &[u8],
    ) -> Result<bool, AllocError>
        ensures { IfOk result (λ b. MatchBool b (begun P.begins P.takes number head (words_of words.now) ≡ Some self.new.stage) (begun P.begins P.takes number head (words_of words.now) ≡ None)) }
    {
        let mut script = P::begin(alloc, head);
        let is_taken = script.take(alloc, number, words)?;
        self.stage = Stage::Within(script);
        Ok(is_taken)
    }

    /// The script, where the source is over before the line of this number.
    pub(crate) fn end(mut self, alloc: Global, number: u32) -> Result<P, ScriptFault>
        ensures script { IsScript result (ended_at P.begins number self.stage) }
        ensures fault { IfErr result (λ e. e ≡ Refused number) }
    {
        match self.head_alone(alloc) {
            Some(head) => Ok(P::begin(alloc, head)),
            None => self.within(number),
        }
    }

    // The head of a script that has no lines behind it. It is taken out.
    fn head_alone(&mut self, alloc: Global) -> Option<Head>
        ensures some { IfSome result (λ h. (n : ℕ) → ended_at P.begins n self.old.stage ≡ Ok (P.begins h)) }
        ensures none { result ≡ None → (self.new.stage ≡ self.old.stage) × IsNoHead self.old.stage }
    {
        match &mut self.stage {
            Stage::Sized(size) => {
                let size = *size;
                Some(Head::first(alloc, size))
            }
            Stage::Opening(head) => Some(head.close(alloc)),
            Stage::Before => None,
            Stage::Within(_) => None,
        }
    }

    // The script, where it has lines behind its head.
    fn within(self, number: u32) -> Result<P, ScriptFault>
        requires { IsNoHead self.stage }
        ensures script { IsScript result (ended_at P.begins number self.stage) }
        ensures fault { IfErr result (λ e. e ≡ Refused number) }
    {
        match self.stage {
            Stage::Within(script) => Ok(script),
            Stage::Before => Err(ScriptFault::Refused(number)),
            Stage::Sized(_) => unreachable!(),
            Stage::Opening(_) => unreachable!(),
        }
    }
}

// Takes a line of what the replicas open with.
fn take_opening(alloc: Global, head: &mut OpenHead, words: &[u8]) -> Result<bool, AllocError>
    ensures { IfOk result (λ b. MatchBool b (option_and_then (after_opening head.old) (opening_of (words_of words.now)) ≡ Some head.new) (option_and_then (after_opening head.old) (opening_of (words_of words.now)) ≡ None)) }
{
    match read_opening_line(alloc, words)? {
        None => Ok(false),
        Some(line) => head.take(alloc, line),
    }
}

pub(crate) fn without_return(line: &[u8]) -> &[u8]
    ensures { result.now ≡ strip_carriage_return line.now }
{
    match line {
        [rest @ .., b'\r'] => rest,
        _ => line,
    }
}
