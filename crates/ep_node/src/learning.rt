//! What an entry is about, and what it commits.

ghost use Rattle.std.specs.Prelude.{◌≡◌};
ghost use Rattle.ep_node.specs.Reporting.{about_by, committed_as, learnt_by, first_said, or_other, said_by};
ghost use Rattle.ep_journal.specs.Events.{first_named};

use ep_base::InstanceId;
use ep_frame::{Frame, Kind};
use ep_journal::{Entry, Event};

/// The instance that the first of these frames is about.
fn first_named(frames: &[Frame]) -> Option<InstanceId>
    ensures { result ≡ first_named frames.now }
{
    match frames.first() {
        Some(frame) => Some(frame.instance()),
        None => None,
    }
}

/// The instance that the entry's event is about; of a proposal the one that it took; none of an execution.
pub(crate) fn about_by(entry: &Entry) -> Option<InstanceId>
    ensures { result ≡ about_by entry.now }
{
    match &entry.event {
        Event::Propose { .. } => first_named(entry.frames.as_slice()),
        Event::Handle(frame) => Some(frame.instance()),
        Event::GiveUp(instance) | Event::Recover(instance) => Some(*instance),
        Event::Execute(_) => None,
    }
}

/// This instance, if a message of the kind says that it is committed.
fn committed_as(kind: Kind, instance: InstanceId) -> Option<InstanceId>
    ensures { result ≡ committed_as kind instance }
{
    match kind {
        Kind::Commit => Some(instance),
        _ => None,
    }
}

/// The instance that the frame says is committed.
fn said_by(frame: &Frame) -> Option<InstanceId>
    ensures { result ≡ said_by frame.now }
{
    committed_as(frame.view().kind(), frame.instance())
}

/// The instance that the first of these frames says is committed.
fn first_said(frames: &[Frame]) -> Option<InstanceId>
    ensures { result ≡ first_said frames.now }
{
    match frames.first() {
        Some(frame) => said_by(frame),
        None => None,
    }
}

/// The first of two, if there is one; else the other.
fn or_other(first: Option<InstanceId>, other: Option<InstanceId>) -> Option<InstanceId>
    ensures { result ≡ or_other first other }
{
    match first {
        Some(instance) => Some(instance),
        None => other,
    }
}

/// The instance that the entry learns to be committed: by the Commit that it handles, or by those that it sends.
pub(crate) fn learnt_by(entry: &Entry) -> Option<InstanceId>
    ensures { result ≡ learnt_by entry.now }
{
    match &entry.event {
        Event::Handle(frame) => or_other(said_by(frame), first_said(entry.frames.as_slice())),
        Event::Propose { .. } | Event::GiveUp(_) | Event::Recover(_) | Event::Execute(_) => {
            first_said(entry.frames.as_slice())
        }
    }
}
