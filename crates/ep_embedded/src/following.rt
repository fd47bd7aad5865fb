//! What entries proposed and executed, for whoever follows them.

ghost use Rattle.std.specs.Prelude.{◌≡◌, ◌++◌, drop, IfOk, OnOk};
ghost use Rattle.std.specs.Io.KnownBytes.{Appends};
ghost use Rattle.std.specs.List.{flat_map};
ghost use Rattle.ep_bundle.specs.Bytes.{command_bytes};
ghost use Rattle.ep_embedded.specs.Following.{command_at, done_bytes, follow_all, follow_bytes};
ghost use Rattle.ep_embedded.specs.Following.{followed, followed_bytes, framed, proposal_bytes, AllFollowed};

use crate::hosted::Hosted;
use crate::prepare_fault::PrepareFault;
use crate::report_fault::ReportFault;
use ep_base::{Answer, Command, InstanceId, Noted, Sink, Version, WriteFailed};
use ep_bundle::{put_answer, put_command, put_instance, put_run, put_u8, put_u32};
use ep_device::HostDevice;
use ep_journal::{Entry, Event};
use ep_node::Node;
use ep_replica::Replica;
use ep_serve::{PendingAnswer, all_answers};
use ep_wire::taken_as;
use std::alloc::{AllocError, Global};

/// Writes a command as a proposal has it. (Each that is committed is known to the version.)
fn put_known<K: Sink>(sink: &mut K, version: Version, command: &Command) -> Result<(), WriteFailed>
    ensures { OnOk result (Appends (K.held sink.old) (K.held sink.new) (command_bytes version command.now)) }
{
    if !version.knows(command) {
        return Err(WriteFailed);
    }
    put_command(sink, version, command)
}

/// Writes the command that is committed in the instance.
fn put_committed<K: Sink>(
    sink: &mut K,
    replica: &Replica,
    instance: InstanceId,
) -> Result<(), WriteFailed>
    ensures { OnOk result (Appends (K.held sink.old) (K.held sink.new) (command_at replica.now instance)) }
{
    match replica.committed(instance) {
        Some(decree) => put_known(sink, replica.version(), &decree.command),
        None => put_run(sink, &[]),
    }
}

/// Writes an instance that was executed.
fn put_done<K: Sink>(
    sink: &mut K,
    replica: &Replica,
    done: &(InstanceId, Answer),
) -> Result<(), WriteFailed>
    ensures { OnOk result (Appends (K.held sink.old) (K.held sink.new) (done_bytes replica.now done.now)) }
{
    put_u8(sink, 2)?;
    put_instance(sink, done.0)?;
    put_committed(sink, replica, done.0)?;
    put_answer(sink, replica.version(), &done.1)
}

/// Writes all that were executed.
fn put_all_done<K: Sink>(
    sink: &mut K,
    replica: &Replica,
    all: &[(InstanceId, Answer)],
) -> Result<(), WriteFailed>
    ensures { OnOk result (Appends (K.held sink.old) (K.held sink.new) (flat_map (done_bytes replica.now) all.now)) }
{
    for done in all {
        put_done(sink, replica, done)?;
    }
    Ok(())
}

/// Writes whose proposal took this instance.
fn put_proposal<K: Sink>(
    sink: &mut K,
    event: &Event,
    took: Option<InstanceId>,
) -> Result<(), WriteFailed>
    ensures { OnOk result (Appends (K.held sink.old) (K.held sink.new) (proposal_bytes event.now took)) }
{
    match (event, took) {
        (
            Event::Propose {
                client,
                request,
                ..
            },
            Some(instance),
        ) => {
            put_u8(sink, 1)?;
            put_u32(sink, *client)?;
            put_u32(sink, *request)?;
            put_instance(sink, instance)
        }
        _ => put_run(sink, &[]),
    }
}

/// Writes what an entry proposed and executed.
fn put_entry<K: Sink>(sink: &mut K, replica: &Replica, entry: &Entry) -> Result<(), WriteFailed>
    ensures { OnOk result (Appends (K.held sink.old) (K.held sink.new) (follow_bytes replica.now entry.now)) }
{
    put_proposal(sink, &entry.event, taken_as(entry))?;
    put_all_done(sink, replica, entry.done.as_slice())
}

/// Writes what the entries proposed and executed.
fn put_entries<K: Sink>(
    sink: &mut K,
    replica: &Replica,
    entries: &[Entry],
) -> Result<(), WriteFailed>
    ensures { OnOk result (Appends (K.held sink.old) (K.held sink.new) (follow_all replica.now entries.now)) }
{
    for entry in entries {
        put_entry(sink, replica, entry)?;
    }
    Ok(())
}

/// The entries after the first `count`.
fn after(entries: &[Entry], count: u32) -> &[Entry]
    ensures { result.now ≡ drop count entries.now }
{
    let first = entries.len().min(count as usize);
    &entries[first..]
}

/// What the replica's entries after the first ones proposed and executed.
fn followed(alloc: Global, replica: &Replica, count: u32) -> Result<Vec<u8>, AllocError>
    ensures { IfOk result (λ bytes. bytes.items ≡ followed replica.now count) }
{
    let mut sink = Noted::new(Vec::new(alloc));
    match put_entries(
        &mut sink,
        replica,
        after(replica.journal().entries(), count),
    ) {
        Ok(()) => Ok(sink.into_inner()),
        Err(_) => Err(AllocError),
    }
}

/// Writes these as an answer.
fn put_followed<K: Sink>(sink: &mut K, body: &[u8]) -> Result<(), WriteFailed>
    ensures { OnOk result (Appends (K.held sink.old) (K.held sink.new) (framed body.now)) }
{
    if body.len() >= 0xffff_ffff {
        return Err(WriteFailed);
    }
    put_u32(sink, body.len() as u32 + 1)?;
    put_u8(sink, 13)?;
    put_run(sink, body)
}

/// The bytes, and behind them what the entries after the first ones did.
fn with_followed(
    alloc: Global,
    replica: &Replica,
    bytes: Vec<u8>,
    count: u32,
) -> Result<Vec<u8>, AllocError>
    ensures { IfOk result (λ all. all.items ≡ bytes.items ++ followed_bytes replica.now count) }
{
    let body = followed(alloc, replica, count)?;
    let mut sink = Noted::new(bytes);
    match put_followed(&mut sink, &body) {
        Ok(()) => Ok(sink.into_inner()),
        Err(_) => Err(AllocError),
    }
}

/// The answers that wait, and behind them what there is to report, and what the entries did.
fn all_followed(
    alloc: Global,
    node: &mut Node<HostDevice>,
    dues: &[PendingAnswer],
    count: u32,
    most: u8,
) -> Result<Vec<u8>, AllocError>
    ensures same { node.new ≡ node.old }
    ensures reported { IfOk result (λ out. AllFollowed node.old.replica dues.now count most out.items) }
{
    let answers = all_answers(alloc, node, dues, count, most)?;
    match node.replica() {
        Some(replica) => with_followed(alloc, replica, answers, count),
        None => Err(AllocError),
    }
}

impl Hosted {
    ghost use Rattle.std.specs.Prelude.{◌≡◌, IfErr, OnOk};
    ghost use Rattle.ep_embedded.specs.Following.{HasFollowed, HasPreparedAll};
    ghost use Rattle.ep_embedded.specs.Reporting.{IsUnprepared, IsUnreported};

    /// The same as `answer`, and behind it one answer more, of kind 13: what the entries after the first ones proposed
    /// and executed, in their order. 1, the client (4), the request (4) and the instance that its proposal took; 2, an
    /// instance that was executed, its command as a proposal has it, and its answer as a receipt has it.
    pub fn answer_all(&mut self, alloc: Global, after: u32, most: u8) -> Result<(), ReportFault>
        ensures ok { OnOk result (HasFollowed self.old after most self.new) }
        ensures err { IfErr result (λ fault. IsUnreported self.old fault × (self.new ≡ self.old)) }
    {
        if !self.is_on_disk() {
            return Err(ReportFault::Unsynced);
        }
        match all_followed(alloc, &mut self.node, &self.dues, after, most) {
            Ok(answers) => {
                self.answers = answers;
                self.dues.clear();
                Ok(())
            }
            Err(_) => Err(ReportFault::Memory),
        }
    }

    /// The same as `prepare`, of what `answer_all` makes.
    pub fn prepare_all(&mut self, alloc: Global, after: u32, most: u8) -> Result<(), PrepareFault>
        ensures ok { OnOk result (HasPreparedAll self.old after most self.new) }
        ensures err { IfErr result (λ fault. IsUnprepared self.old fault × (self.new ≡ self.old)) }
    {
        if self.is_holding() {
            return Err(PrepareFault::Unreported);
        }
        if !self.is_all_lent() {
            return Err(PrepareFault::Unlent);
        }
        match all_followed(alloc, &mut self.node, &self.dues, after, most) {
            Ok(answers) => {
                self.until = self.node.taken();
                self.held = Some(answers);
                self.dues.clear();
                Ok(())
            }
            Err(_) => Err(PrepareFault::Memory),
        }
    }
}
