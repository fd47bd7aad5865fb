//! Runs over nodes with rings.

ghost use Rattle.std.specs.Prelude.{◌≡◌, IfOk, IsOk};
ghost use Rattle.ep_host.specs.Finishing.{IsFinished};
ghost use Rattle.ep_run.specs.Lines.{AreDone};
ghost use Rattle.ep_run.specs.Rings.{IsBegun, begun_of};
ghost use Rattle.ep_run.specs.Sections.{IsRun};

use crate::limits::Limits;
use crate::ran::Ran;
use crate::ring_run::RingRun;
use crate::run_fault::RunFault;
use ep_script::RunScript;
use std::alloc::Global;
use std::marker::Sync;
use std::thread::Threads;

/// Runs the script in threads, over nodes with rings.
///
/// The sections are run one after another, each in its own weather. In each, every node gets its lines, in the script's order, and turns in a thread
/// of its own, until it has used them up, or for the limit of turns; then the held frames are put; then the nodes turn in rounds until none of them
/// moves, or for as many rounds; then receipts are collected. A frame that is held during these rounds waits for the next section. Requests and
/// what clients have seen are as in [`crate::run`]. A line that its node refuses, when out of memory too, is listed, and the
/// run goes on; what the turns leave of a node's lines stays for the next section. Elsewhere running out of memory ends the run. Where no thread can be
/// started, the nodes turn on the calling one.
///
/// The journals are of the script's version, and have its opening. The audit accepts what a run leaves: no rings are needed to know it, and none of the journals.
pub fn run_rings<R: Threads + Sync>(
    rt: &R,
    alloc: Global,
    script: &RunScript,
    limits: &Limits,
) -> Result<Ran, RunFault>
    ensures finished { IfOk result (λ r. IsFinished r.receipts.items r.finished) }
    ensures accepted { IfOk result (λ r. IsOk r.finished.verdict) }
    ensures begun { IfOk result (λ r. IsBegun (begun_of script.now.head) r.finished.journals) }
    ensures lines { IfOk result (AreDone limits.now.turns script.now.sections) }
    ensures run { IfOk result (IsRun script.now.head limits.now.capacity limits.now.turns script.now.sections) }
{
    let mut run = RingRun::new(alloc, script.head(), limits.capacity)?;
    match run.run_all(rt, script, limits.turns) {
        Ok(()) => Ok(run.end(script.sections())?),
        Err(fault) => {
            run.discard();
            Err(RunFault::from(fault))
        }
    }
}
