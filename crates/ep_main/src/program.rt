//! The program, over any source and sinks.

ghost use Rattle.std.specs.Prelude.{◌≡◌, ◌⊎◌, ℕ, List, Some, IfOk, map};
ghost use Rattle.ep_base.specs.Devices.{FailsAsReported};
ghost use Rattle.ep_main.specs.Faults.{is_read, is_write};
ghost use Rattle.ep_cli.specs.Outputs.{became, turned};
ghost use Rattle.ep_main.specs.Runs.{Performs, IsHelped, Declines, Ends, Does as Attempts, Concludes, IsVerdict};
ghost use Rattle.ep_main.specs.Tasks.{Does, EndsBy, EndsSo, Works};
ghost use Rattle.ep_main.specs.Words.{AskFor, AskForHelp};
ghost use Rattle.ep_main.specs.declared.asked.Asked.{Asked};

use crate::asked::Asked;
use crate::auditing::audit_of;
use crate::chaining::print_chain;
use crate::command_line::read_words;
use crate::engine_fault::EngineFault;
use crate::job::Job;
use crate::replaying::replay_of;
use crate::reporting::write_fault;
use crate::running::run_of;
use crate::upgrading::upgraded_of;
use ep_base::{Sink, Source};
use ep_cli::{Status, Streams, decline, put_made, put_text};
use std::alloc::Global;
use std::convert::AsStr;
use std::marker::Sync;
use std::rt::Files;
use std::sync::Wait;
use std::thread::Threads;

/// Does what the words ask for, of which the first is the program's own name, and answers how the program ends.
///
/// `replay` reads a script to its end, plays it, audits what it leaves, and writes the report in one go, or, with `--emit
/// json`, the report as JSON, or, with `--emit bundle`, the bundle of that. `run` reads a script, runs it in threads, audits what they leave (with `--host ring` the audit
/// never refuses it), and writes the report, or the bundle, in one go. `audit` reads a bundle to its end, audits it, and writes
/// what the audit says in one go; with `--chain` it reads bundles of version 3 from files, each to its end, audits them one after the
/// other, and writes what the audit of the chain says in one go. `upgrade` reads a bundle to its end and writes it in version 2, or 3,
/// in one go.
/// What stops it (a refused script or bundle, out of memory, a reader or a writer that fails) is reported by one line on the
/// fault output; a refused command line by one, and what is wrong with it after that. Where reporting fails, the status stays.
pub fn engine<
    R: Files + AllocGlobal + Threads + Wait + Sync,
    T: AsStr,
    S: Source,
    W: Sink,
    F: Sink,
>(rt: &R, alloc: Global, words: &[T], streams: &mut Streams<S, W, F>) -> Status
    // where the words ask for a replay's or a run's report, for its bundle, for an audit, for an upgrade, or for the version, that is done
    ensures asked { (asked : Asked) → AskFor asked (map T.text words.now) → (zs : List ℕ) → S.left streams.old.reader ≡ Some zs → Performs asked result zs (turned S.has_failed streams.old.reader streams.new.reader)
        (became W.held W.has_failed streams.old.writer streams.new.writer)
        (became F.held F.has_failed streams.old.fault_writer streams.new.fault_writer) }

    // where they ask for help, it is printed
    ensures help { AskForHelp (map T.text words.now) → (zs : List ℕ) → S.left streams.old.reader ≡ Some zs → IsHelped result
        (became W.held W.has_failed streams.old.writer streams.new.writer)
        (became F.held F.has_failed streams.old.fault_writer streams.new.fault_writer) }

    // whatever the words are, they are refused, or what they ask for is done
    ensures other { (zs : List ℕ) → S.left streams.old.reader ≡ Some zs → Declines result
        (became W.held W.has_failed streams.old.writer streams.new.writer)
        (became F.held F.has_failed streams.old.fault_writer streams.new.fault_writer)
        ⊎ Does (map T.text words.now) result zs (turned S.has_failed streams.old.reader streams.new.reader)
        (became W.held W.has_failed streams.old.writer streams.new.writer)
        (became F.held F.has_failed streams.old.fault_writer streams.new.fault_writer) }

    // whatever the words and the bytes are, status 4 is that of a device that failed in this run; or, where they ask for a chain, of a file of it
    ensures ends { EndsSo (map T.text words.now) result (turned S.has_failed streams.old.reader streams.new.reader)
        (became W.held W.has_failed streams.old.writer streams.new.writer)
        (became F.held F.has_failed streams.old.fault_writer streams.new.fault_writer) }
{
    match read_words(alloc, words) {
        Ok(task) => work(rt, alloc, task, streams),
        Err(why) => decline(why, &mut streams.fault_writer),
    }
}

/// Does what there is to do, and answers how the program ends.
fn work<R: Files + AllocGlobal + Threads + Wait + Sync, S: Source, W: Sink, F: Sink>(
    rt: &R,
    alloc: Global,
    task: Job,
    streams: &mut Streams<S, W, F>,
) -> Status
    ensures works { (zs : List ℕ) → S.left streams.old.reader ≡ Some zs → Works task result zs (turned S.has_failed streams.old.reader streams.new.reader)
        (became W.held W.has_failed streams.old.writer streams.new.writer)
        (became F.held F.has_failed streams.old.fault_writer streams.new.fault_writer) }
    ensures ends { EndsBy task result (turned S.has_failed streams.old.reader streams.new.reader)
        (became W.held W.has_failed streams.old.writer streams.new.writer)
        (became F.held F.has_failed streams.old.fault_writer streams.new.fault_writer) }
{
    match task {
        Job::Streams(asked) => perform(rt, alloc, asked, streams),
        Job::Chain(form, names) => print_chain(rt, form, &names, streams),
    }
}

/// Does what is asked, and answers how the program ends.
pub fn perform<R: Threads + Wait + Sync, S: Source, W: Sink, F: Sink>(
    rt: &R,
    alloc: Global,
    asked: Asked,
    streams: &mut Streams<S, W, F>,
) -> Status
    ensures performs { (zs : List ℕ) → S.left streams.old.reader ≡ Some zs → Performs asked result zs (turned S.has_failed streams.old.reader streams.new.reader)
        (became W.held W.has_failed streams.old.writer streams.new.writer)
        (became F.held F.has_failed streams.old.fault_writer streams.new.fault_writer) }
    ensures ends { Ends result (turned S.has_failed streams.old.reader streams.new.reader)
        (became W.held W.has_failed streams.old.writer streams.new.writer)
        (became F.held F.has_failed streams.old.fault_writer streams.new.fault_writer) }
{
    let outcome = attempt(rt, alloc, asked, streams);
    concluded(outcome, &mut streams.fault_writer)
}

/// Does what is asked, as far as no fault stops it.
fn attempt<R: Threads + Wait + Sync, S: Source, W: Sink, F>(
    rt: &R,
    alloc: Global,
    asked: Asked,
    streams: &mut Streams<S, W, F>,
) -> Result<Status, EngineFault>
    ensures done { (zs : List ℕ) → S.left streams.old.reader ≡ Some zs → Attempts asked result zs (became W.held W.has_failed streams.old.writer streams.new.writer) }
    ensures verdict { IfOk result IsVerdict }
    ensures read { FailsAsReported is_read result (S.has_failed streams.old.reader) (S.has_failed streams.new.reader) }
    ensures written { FailsAsReported is_write result (W.has_failed streams.old.writer) (W.has_failed streams.new.writer) }
    ensures unreported { streams.new.fault_writer ≡ streams.old.fault_writer }
{
    match asked {
        Asked::Replay(emit) => {
            let made = replay_of(alloc, emit, &mut streams.reader);
            put_made(made, EngineFault::Write, &mut streams.writer)
        }
        Asked::Run(options) => {
            let made = run_of(rt, alloc, &options, &mut streams.reader);
            put_made(made, EngineFault::Write, &mut streams.writer)
        }
        Asked::Audit(form) => {
            let made = audit_of(alloc, form, &mut streams.reader);
            put_made(made, EngineFault::Write, &mut streams.writer)
        }
        Asked::Upgrade(target) => {
            let made = upgraded_of(alloc, target, &mut streams.reader);
            put_made(made, EngineFault::Write, &mut streams.writer)
        }
        Asked::Version => put_text(
            b"epaxos 1.0.0\n",
            Status::Done,
            EngineFault::Write,
            &mut streams.writer,
        ),
        Asked::Help(text) => put_text(
            text.as_bytes(),
            Status::Done,
            EngineFault::Write,
            &mut streams.writer,
        ),
    }
}

/// How the program ends. A fault is reported on the fault output; where that fails, the status stays.
pub(crate) fn concluded<F: Sink>(
    outcome: Result<Status, EngineFault>,
    fault_writer: &mut F,
) -> Status
    ensures { Concludes outcome result (became F.held F.has_failed fault_writer.old fault_writer.new) }
{
    match outcome {
        Ok(status) => status,
        Err(fault) => {
            let status = fault.status();
            let _ = write_fault(fault, fault_writer);
            status
        }
    }
}
