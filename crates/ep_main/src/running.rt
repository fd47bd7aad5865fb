//! Runs in threads.

ghost use Rattle.std.specs.Prelude.{◌≡◌, ◌<◌, ◌^◌, ℕ, List, Some, length, IfOk, IfErr, IsOk, false};
ghost use Rattle.ep_base.specs.Devices.{FailsAsReported};
ghost use Rattle.ep_bundle.specs.Bytes.{bundle_bytes};
ghost use Rattle.ep_host.specs.Finishing.{IsFinished};
ghost use Rattle.ep_main.specs.Audits.{SaysOfRun};
ghost use Rattle.ep_main.specs.Faults.{is_read, is_write};
ghost use Rattle.ep_main.specs.Hosts.{Promises};
ghost use Rattle.ep_cli.specs.Printed.{Makes};
ghost use Rattle.ep_main.specs.Runs.{Does, IsVerdict};
ghost use Rattle.ep_main.specs.declared.asked.Asked.TheVariants.{Run};
ghost use Rattle.ep_run.specs.Rings.{IsBegun, begun_of};
ghost use Rattle.ep_main.specs.declared.asked.Emit.TheVariants.{Report, Bundle};
ghost use Rattle.ep_main.specs.declared.engine_fault.EngineFault.TheVariants.{Memory};
ghost use Rattle.ep_cli.specs.declared.status.Status.TheVariants.{Done};

use crate::asked::Emit;
use crate::engine_fault::EngineFault;
use crate::form::Form;
use crate::forms::{refusal_in, run_report_in};
use crate::gathering::gather_bundle;
use crate::host::Host;
use crate::run_options::RunOptions;
use ep_base::Source;
use ep_cli::{Made, Status};
use ep_report::{Findings, Losses, life_of, reported_contents};
use ep_run::{Ran, RunFault, run, run_rings};
use ep_script::{RunScript, read_run};
use std::alloc::Global;
use std::marker::Sync;
use std::mem::forget;
use std::sync::Wait;
use std::thread::Threads;

/// Reads a script to its end, runs it in threads, and audits what they leave: what is asked for.
pub(crate) fn run_of<R: Threads + Wait + Sync, S: Source>(
    rt: &R,
    alloc: Global,
    options: &RunOptions,
    reader: &mut S,
) -> Result<Made, EngineFault>
    ensures runs { (zs : List ℕ) → S.left reader.old ≡ Some zs → Makes (Does (Run options.now)) result zs }
    ensures verdict { IfOk result (λ m. IsVerdict m.status) }
    ensures read { FailsAsReported is_read result (S.has_failed reader.old) (S.has_failed reader.new) }
    ensures unwritten { IfErr result (λ e. is_write e ≡ false) }
{
    let script = read_run(alloc, reader)?;
    let ran = run_on_host(rt, alloc, options, &script)?;
    let judged = judge_run(alloc, options.emit(), &ran);
    // The system takes memory back at the process's end, all at once.
    forget((script, ran));
    judged
}

/// Runs the script, by the host that is asked for.
fn run_on_host<R: Threads + Wait + Sync>(
    rt: &R,
    alloc: Global,
    options: &RunOptions,
    script: &RunScript,
) -> Result<Ran, RunFault>
    ensures finished { IfOk result (λ r. IsFinished r.receipts.items r.finished) }
    ensures begun { IfOk result (λ r. IsBegun (begun_of script.now.head) r.finished.journals) }
    ensures promised { IfOk result (Promises options.now.host options.now.turns script.now.sections) }
{
    let limits = options.limits();
    match options.host() {
        Host::Lock => run(rt, alloc, script, &limits),
        Host::Ring => run_rings(rt, alloc, script, &limits),
    }
}

/// What is printed of a run, and the status by what the audit says of it.
fn judge_run(alloc: Global, emit: Emit, ran: &Ran) -> Result<Made, EngineFault>
    requires finished { IsFinished ran.now.receipts.items ran.now.finished }
    ensures value { IfOk result (λ j. SaysOfRun emit ran.now j.status j.text.items) }
    ensures accepted { IsOk ran.now.finished.verdict → IfOk result (λ j. j.status ≡ Done) }
    ensures memory { IfErr result (λ e. e ≡ Memory) }
{
    match emit {
        Emit::Report(form) => judge_reported(alloc, form, ran),
        Emit::Bundle => judge_bundled(alloc, ran),
    }
}

/// The report of a run that the audit accepts, or its first fault.
fn judge_reported(alloc: Global, form: Form, ran: &Ran) -> Result<Made, EngineFault>
    requires { IsFinished ran.now.receipts.items ran.now.finished }
    ensures value { IfOk result (λ j. SaysOfRun (Report form) ran.now j.status j.text.items) }
    ensures accepted { IsOk ran.now.finished.verdict → IfOk result (λ j. j.status ≡ Done) }
    ensures memory { IfErr result (λ e. e ≡ Memory) }
{
    match &ran.finished.verdict {
        Ok(verdict) => {
            let losses = Losses {
                refused: ran.refused.as_slice(),
                lost: ran.lost,
            };
            let contents = reported_contents(alloc, &ran.finished.journals, &verdict.history)?;
            let life = life_of(&ran.finished.journals, verdict.closing.as_ref(), &contents);
            let found = Findings {
                life: life.as_ref(),
                committed: verdict.committed.as_slice(),
                history: verdict.history.as_slice(),
                receipts: ran.receipts.as_slice(),
            };
            let text = run_report_in(alloc, form, &found, losses)?;
            Ok(Made {
                status: Status::Done,
                text,
            })
        }
        Err(fault) => Ok(Made {
            status: Status::AuditRefused,
            text: refusal_in(alloc, form, *fault)?,
        }),
    }
}

/// The bundle of a run, whatever the audit says of it.
fn judge_bundled(alloc: Global, ran: &Ran) -> Result<Made, EngineFault>
    requires finished { IsFinished ran.now.receipts.items ran.now.finished }
    ensures value { IfOk result (λ j. SaysOfRun Bundle ran.now j.status j.text.items) }
    ensures accepted { IsOk ran.now.finished.verdict → IfOk result (λ j. j.status ≡ Done) }
    ensures memory { IfErr result (λ e. e ≡ Memory) }
{
    let text = bundle_of(alloc, ran)?;
    match &ran.finished.verdict {
        Ok(_) => Ok(Made {
            status: Status::Done,
            text,
        }),
        Err(_) => Ok(Made {
            status: Status::AuditRefused,
            text,
        }),
    }
}

/// The bytes of the bundle of what a run left.
fn bundle_of(alloc: Global, ran: &Ran) -> Result<Vec<u8>, EngineFault>
    ensures value { IfOk result (λ bytes. bytes.items ≡ bundle_bytes ran.now.finished.journals ran.now.receipts.items) }
    ensures memory { IfErr result (λ e. e ≡ Memory) }
{
    if ran.receipts.len() >= 4_294_967_296 {
        return Err(EngineFault::Memory);
    }
    gather_bundle(alloc, &ran.finished.journals, ran.receipts.as_slice())
}
