//! What is reported of a script.

ghost use Rattle.std.specs.Prelude.{◌≡◌, ◌++◌, ◌∷◌, [], ℕ, List, None, Some, false, true, codes, IfOk, OnOk};
ghost use Rattle.ep_base.specs.Devices.{FailsAsReported};
ghost use Rattle.ep_script.specs.Plan.{script_of, run_of};
ghost use Rattle.ep_explain.specs.Advice.{IsAdvice, at_line, line_refused, refused_at, script_read, script_refused};
ghost use Rattle.ep_explain.specs.Kept.{is_read_failed, known_left};
ghost use Rattle.ep_explain.specs.declared.subcommand.Subcommand.TheVariants.{Replay, Run};

use crate::advice::Advice;
use crate::explain_fault::ExplainFault;
use crate::guess::deciding_line;
use crate::kept::Kept;
use crate::reasons::{Reasons, push_led};
use crate::refusals::{add_size, say_refusal};
use crate::subcommand::Subcommand;
use crate::wording::Wording;
use ep_base::Source;
use ep_report::push_number;
use ep_script::{Lines, Refusal, ScriptFault, Standing, next_word, read_run, read_script};
use std::alloc::{AllocError, Global};

/// What the reader of this subcommand's scripts says of what is left of the source, and why.
///
/// Where it reads all of it, one line says so. Else the first line is the reader's, `script refused at line N`, and reasons stand under it, a
/// line each, indented by two spaces: the first one names that line, the word at fault, what stands there and what may. Past that line
/// nothing is read, so a source without an end is explained too. The source has to have been looked at, so that it keeps what it gives.
pub(crate) fn explain_script<S: Source>(
    alloc: Global,
    subcommand: Subcommand,
    source: &mut Kept<S>,
) -> Result<Advice, ExplainFault>
    ensures reported { (bytes : List ℕ) → known_left S.left source.old ≡ Some bytes → IfOk result (λ a. IsAdvice subcommand (refused_at subcommand bytes) a.is_read a.text.items) }
    ensures failed { FailsAsReported is_read_failed result (S.has_failed source.old.source) (S.has_failed source.new.source) }
{
    let refused = match subcommand {
        Subcommand::Replay => replay_refused(alloc, source)?,
        Subcommand::Run => run_refused(alloc, source)?,
    };
    Ok(advice(alloc, subcommand, source.bytes(), refused)?)
}

// The line at which a script for a replay is refused.
fn replay_refused<S: Source>(
    alloc: Global,
    source: &mut Kept<S>,
) -> Result<Option<u32>, ExplainFault>
    ensures line { (bytes : List ℕ) → known_left S.left source.old ≡ Some bytes → IfOk result (λ o. o ≡ line_refused (script_of bytes)) }
    ensures failed { FailsAsReported is_read_failed result (S.has_failed source.old.source) (S.has_failed source.new.source) }
{
    match read_script(alloc, source) {
        Ok(script) => {
            drop(script);
            Ok(None)
        }
        Err(ScriptFault::Refused(line)) => Ok(Some(line)),
        Err(ScriptFault::Memory) => Err(ExplainFault::Memory),
        Err(ScriptFault::ReadFailed) => Err(ExplainFault::ReadFailed),
    }
}

// The line at which a script for a run is refused.
fn run_refused<S: Source>(alloc: Global, source: &mut Kept<S>) -> Result<Option<u32>, ExplainFault>
    ensures line { (bytes : List ℕ) → known_left S.left source.old ≡ Some bytes → IfOk result (λ o. o ≡ line_refused (run_of bytes)) }
    ensures failed { FailsAsReported is_read_failed result (S.has_failed source.old.source) (S.has_failed source.new.source) }
{
    match read_run(alloc, source) {
        Ok(script) => {
            drop(script);
            Ok(None)
        }
        Err(ScriptFault::Refused(line)) => Ok(Some(line)),
        Err(ScriptFault::Memory) => Err(ExplainFault::Memory),
        Err(ScriptFault::ReadFailed) => Err(ExplainFault::ReadFailed),
    }
}

fn advice(
    alloc: Global,
    subcommand: Subcommand,
    bytes: Option<&[u8]>,
    refused: Option<u32>,
) -> Result<Advice, AllocError>
    ensures { IfOk result (λ a. IsAdvice subcommand refused a.is_read a.text.items) }
{
    match refused {
        None => accepted(alloc, subcommand, bytes),
        Some(line) => declined(alloc, subcommand, bytes, line),
    }
}

fn accepted(
    alloc: Global,
    subcommand: Subcommand,
    bytes: Option<&[u8]>,
) -> Result<Advice, AllocError>
    ensures { IfOk result (λ a. IsAdvice subcommand None a.is_read a.text.items) }
{
    match subcommand {
        Subcommand::Replay => replay_accepted(alloc),
        Subcommand::Run => run_accepted(alloc, bytes),
    }
}

fn replay_accepted(alloc: Global) -> Result<Advice, AllocError>
    ensures { IfOk result (λ a. IsAdvice Replay None a.is_read a.text.items) }
{
    let text = read_for_replay(alloc)?;
    Ok(Advice {
        is_read: true,
        text,
    })
}

fn run_accepted(alloc: Global, bytes: Option<&[u8]>) -> Result<Advice, AllocError>
    ensures { IfOk result (λ a. IsAdvice Run None a.is_read a.text.items) }
{
    let text = read_for_run(alloc, bytes)?;
    Ok(Advice {
        is_read: true,
        text,
    })
}

fn read_for_replay(alloc: Global) -> Result<Vec<u8>, AllocError>
    ensures { IfOk result (λ text. IsAdvice Replay None true text.items) }
{
    let text = Vec::from_slice(alloc, b"script read, for replay\n")?;
    Ok(text)
}

fn read_for_run(alloc: Global, bytes: Option<&[u8]>) -> Result<Vec<u8>, AllocError>
    ensures { IfOk result (λ text. IsAdvice Run None true text.items) }
{
    let reasons = Reasons::new(alloc);
    let text = reported_for_run(alloc, bytes, &reasons);
    drop(reasons);
    text
}

fn reported_for_run(
    alloc: Global,
    bytes: Option<&[u8]>,
    reasons: &Reasons,
) -> Result<Vec<u8>, AllocError>
    requires { reasons.now ≡ [] }
    ensures { IfOk result (λ text. IsAdvice Run None true text.items) }
{
    let why = run_alone(alloc, bytes.unwrap_or(&[]))?;
    let mut text = Vec::new(alloc);
    push_led(&mut text, b"script read, for run", &why, reasons)?;
    Ok(text)
}

// Which line makes it a script for run alone.
fn run_alone(alloc: Global, bytes: &[u8]) -> Result<Vec<u8>, AllocError>
    ensures { IfOk result (λ text. (why : List ℕ) × (text.items ≡ codes "replay refuses line " ++ why)) }
{
    let why = run_line(alloc, bytes);
    refuses(alloc, &why)
}

fn refuses(alloc: Global, why: &Wording) -> Result<Vec<u8>, AllocError>
    ensures { IfOk result (λ text. text.items ≡ codes "replay refuses line " ++ why.now) }
{
    let mut text = Vec::from_slice(alloc, b"replay refuses line ")?;
    text.extend_from_slice(why.words()?)?;
    Ok(text)
}

// The number of that line, and its first word.
fn run_line(alloc: Global, bytes: &[u8]) -> Wording {
    let mut reported = Wording::new(alloc);
    if let Some((line, _)) = deciding_line(bytes) {
        reported.say_with(b"#, as ", &[line]);
        reported.say(word_at(bytes, line));
        reported.say(b" is a line of run alone");
    }
    reported
}

// The first word of the line with this number, from 1.
fn word_at(bytes: &[u8], line: u64) -> &[u8] {
    let mut lines = Lines::new(bytes);
    for _ in 1..line {
        let _line = lines.next_line();
    }
    match next_word(lines.next_line().unwrap_or(&[])) {
        Some((word, _)) => word,
        None => &[],
    }
}

fn declined(
    alloc: Global,
    subcommand: Subcommand,
    bytes: Option<&[u8]>,
    line: u32,
) -> Result<Advice, AllocError>
    ensures { IfOk result (λ a. IsAdvice subcommand (Some line) a.is_read a.text.items) }
{
    let Some(bytes) = bytes else {
        return Err(AllocError);
    };
    let text = refused(alloc, subcommand, bytes, line)?;
    Ok(Advice {
        is_read: false,
        text,
    })
}

// The reader's line; under it the word at fault, what stands there and what may; and what the lines before say that matters.
fn refused(
    alloc: Global,
    subcommand: Subcommand,
    bytes: &[u8],
    line: u32,
) -> Result<Vec<u8>, AllocError>
    ensures { IfOk result (λ text. IsAdvice subcommand (Some line) false text.items) }
{
    let mut reasons = Reasons::new(alloc);
    let text = refused_for(alloc, subcommand, bytes, line, &mut reasons);
    drop(reasons);
    text
}

fn refused_for(
    alloc: Global,
    subcommand: Subcommand,
    bytes: &[u8],
    line: u32,
    reasons: &mut Reasons,
) -> Result<Vec<u8>, AllocError>
    ensures { IfOk result (λ text. IsAdvice subcommand (Some line) false text.items) }
{
    let first = first_reason(alloc, subcommand, bytes, line, reasons)?;
    add_taken_for(subcommand, bytes, reasons);
    let mut refused = Vec::from_slice(alloc, b"script refused at line ")?;
    push_number(&mut refused, u64::from(line))?;
    let mut text = Vec::new(alloc);
    push_led(&mut text, &refused, &first, reasons)?;
    Ok(text)
}

// The first reason; and where the cluster's size stands, which is added.
fn first_reason(
    alloc: Global,
    subcommand: Subcommand,
    bytes: &[u8],
    line: u32,
    reasons: &mut Reasons,
) -> Result<Vec<u8>, AllocError>
    ensures { IfOk result (λ text. (words : List ℕ) × (text.items ≡ at_line line words)) }
{
    let of = match subcommand {
        Subcommand::Replay => Standing::Replay,
        Subcommand::Run => Standing::Run,
    };
    let refusal = Refusal::find(bytes, of, line);
    add_size(&refusal, reasons);
    let mut fault = Wording::new(alloc);
    say_refusal(&mut fault, &refusal);
    led(alloc, line, &fault)
}

fn led(alloc: Global, line: u32, fault: &Wording) -> Result<Vec<u8>, AllocError>
    ensures { IfOk result (λ text. text.items ≡ at_line line fault.now) }
{
    let mut text = Vec::from_slice(alloc, b"line ")?;
    push_number(&mut text, u64::from(line))?;
    text.extend_from_slice(fault.words()?)?;
    Ok(text)
}

// For which subcommand the script is taken, and why.
fn add_taken_for(subcommand: Subcommand, bytes: &[u8], reasons: &mut Reasons) {
    let mut reported = reasons.line(b"read as a script for ");
    reported.say(match subcommand {
        Subcommand::Replay => b"replay".as_slice(),
        Subcommand::Run => b"run".as_slice(),
    });
    match deciding_line(bytes) {
        Some((line, other)) if other == subcommand => reported.say_with(b", by line #", &[line]),
        _ => {}
    }
    reported.say(b"; docs/CLI.md, section 4, has all lines");
    reasons.add(reported);
}
