//! Replays.

ghost use Rattle.std.specs.Prelude.{◌≡◌, ◌<◌, ◌^◌, ℕ, List, Some, length, IfOk, IfErr, false};
ghost use Rattle.ep_base.specs.Devices.{FailsAsReported};
ghost use Rattle.ep_bundle.specs.Bytes.{bundle_bytes};
ghost use Rattle.ep_main.specs.Faults.{is_read, is_write};
ghost use Rattle.ep_cli.specs.Printed.{Makes};
ghost use Rattle.ep_main.specs.ScriptReports.{IsEmitted, IsReportOf};
ghost use Rattle.ep_journal.specs.Entries.{journals_of};
ghost use Rattle.ep_journal.specs.Openings.{opens};
ghost use Rattle.ep_rules.specs.Audits.{IsAccepted};
ghost use Rattle.ep_main.specs.Runs.{Does, IsVerdict};
ghost use Rattle.ep_main.specs.declared.asked.Asked.TheVariants.{Replay};
ghost use Rattle.ep_main.specs.declared.engine_fault.EngineFault.TheVariants.{Memory};

use crate::asked::Emit;
use crate::engine_fault::EngineFault;
use crate::form::Form;
use crate::forms::report_in;
use crate::gathering::gather_bundle;
use ep_audit::Summary;
use ep_base::Source;
use ep_cli::{Made, Status};
use ep_replay::{Replayed, replay};
use ep_report::{Findings, life_of, reported_contents};
use ep_script::read_script;
use std::alloc::Global;
use std::mem::forget;

/// Reads a script to its end, and plays it: the report of what it leaves, or the bundle of that. An audit accepts either.
pub(crate) fn replay_of<S: Source>(
    alloc: Global,
    emit: Emit,
    reader: &mut S,
) -> Result<Made, EngineFault>
    ensures plays { (zs : List ℕ) → S.left reader.old ≡ Some zs → Makes (Does (Replay emit)) result zs }
    ensures verdict { IfOk result (λ m. IsVerdict m.status) }
    ensures read { FailsAsReported is_read result (S.has_failed reader.old) (S.has_failed reader.new) }
    ensures unwritten { IfErr result (λ e. is_write e ≡ false) }
{
    let script = read_script(alloc, reader)?;
    let played = replay(alloc, &script)?;
    let text = emitted(alloc, emit, &played);
    // The system takes memory back at the process's end, all at once.
    forget((script, played));
    match text {
        Ok(text) => Ok(Made {
            text,
            status: Status::Done,
        }),
        Err(fault) => Err(fault),
    }
}

/// What is printed of what a script's run left.
fn emitted(alloc: Global, emit: Emit, played: &Replayed) -> Result<Vec<u8>, EngineFault>
    requires accepted { IsAccepted (opens played.now.journals.opening) played.now.journals.faults (journals_of played.now.journals) played.now.receipts.items }
    requires receipts { length played.now.receipts.items < 2 ^ 32 }
    ensures value { IfOk result (λ text. IsEmitted emit played.now text.items) }
    ensures memory { IfErr result (λ e. e ≡ Memory) }
{
    match emit {
        Emit::Report(form) => report_of(alloc, form, played),
        Emit::Bundle => bundle_of(alloc, played),
    }
}

/// The bytes of the bundle of what a script's run left.
fn bundle_of(alloc: Global, played: &Replayed) -> Result<Vec<u8>, EngineFault>
    requires receipts { length played.now.receipts.items < 2 ^ 32 }
    ensures value { IfOk result (λ bytes. bytes.items ≡ bundle_bytes played.now.journals played.now.receipts.items) }
    ensures memory { IfErr result (λ e. e ≡ Memory) }
{
    gather_bundle(alloc, &played.journals, played.receipts.as_slice())
}

/// The report of what a script's run left. The audit accepts that, so none is made.
fn report_of(alloc: Global, form: Form, played: &Replayed) -> Result<Vec<u8>, EngineFault>
    requires { IsAccepted (opens played.now.journals.opening) played.now.journals.faults (journals_of played.now.journals) played.now.receipts.items }
    ensures value { IfOk result (λ text. IsReportOf form played.now text.items) }
    ensures memory { IfErr result (λ e. e ≡ Memory) }
{
    let summary = Summary::of(alloc, &played.journals)?;
    let contents = reported_contents(alloc, &played.journals, &summary.history)?;
    let life = life_of(&played.journals, summary.closing.as_ref(), &contents);
    let found = Findings {
        life: life.as_ref(),
        committed: summary.committed.as_slice(),
        history: summary.history.as_slice(),
        receipts: played.receipts.as_slice(),
    };
    let text = report_in(alloc, form, &found, played.refused.as_slice())?;
    forget(summary);
    Ok(text)
}
