//! Which entries of journals are asked for.

ghost use Rattle.std.specs.Prelude.{◌≡◌, ◌<◌, ◌^◌, ℕ, true, None};
ghost use Rattle.ep_view.specs.Kept.{is_one_of, names, sends_of, executes, is_about, is_of_instance, is_of_some, is_of_replica, keeps};
ghost use Rattle.ep_journal.specs.declared.entry.Entry.{Entry as Taken};

use ep_base::{Answer, Deps, InstanceId, ReplicaId};
use ep_frame::Frame;
use ep_journal::{Entry, Event};

/// Which entries of journals are asked for.
#[derive(Drop)]
pub struct Selection {
    /// Those about this instance alone: whose event names it, or that send a frame about it, or execute it.
    pub instance: Option<InstanceId>,
    /// Those about one of these instances alone.
    pub about: Option<Deps>,
    /// Those of this replica alone.
    pub replica: Option<ReplicaId>,
    /// The least stamp.
    pub from: u64,
    /// The greatest stamp.
    pub to: u64,
}

/// Whether the instance is one of these.
pub(crate) fn is_one_of(instances: &[InstanceId], instance: InstanceId) -> bool
    ensures { result ≡ is_one_of instances.now instance }
{
    for other in instances {
        if *other == instance {
            return true;
        }
    }
    false
}

/// Whether the event names one of the instances.
fn names(instances: &[InstanceId], event: &Event) -> bool
    ensures { result ≡ names instances.now event.now }
{
    match event {
        Event::Propose { .. } => false,
        Event::Handle(frame) => is_one_of(instances, frame.instance()),
        Event::GiveUp(other) | Event::Recover(other) | Event::Execute(other) => {
            is_one_of(instances, *other)
        }
    }
}

/// Whether some frame is about one of the instances.
fn sends_of(instances: &[InstanceId], frames: &[Frame]) -> bool
    ensures { result ≡ sends_of instances.now frames.now }
{
    for frame in frames {
        if is_one_of(instances, frame.instance()) {
            return true;
        }
    }
    false
}

/// Whether one of the instances is executed.
fn executes(instances: &[InstanceId], done: &[(InstanceId, Answer)]) -> bool
    ensures { result ≡ executes instances.now done.now }
{
    for (other, _) in done {
        if is_one_of(instances, *other) {
            return true;
        }
    }
    false
}

fn is_about(instances: &[InstanceId], entry: &Entry) -> bool
    ensures { result ≡ is_about instances.now entry.now }
{
    names(instances, &entry.event)
        || sends_of(instances, entry.frames.as_slice())
        || executes(instances, entry.done.as_slice())
}

fn is_of_instance(instance: Option<InstanceId>, entry: &Entry) -> bool
    ensures { result ≡ is_of_instance instance entry.now }
{
    match instance {
        None => true,
        Some(instance) => is_about(&[instance], entry),
    }
}

fn is_of_some(about: &Option<Deps>, entry: &Entry) -> bool
    ensures { result ≡ is_of_some about.now entry.now }
{
    match about {
        None => true,
        Some(instances) => is_about(instances.as_slice(), entry),
    }
}

fn is_of_replica(asked: Option<ReplicaId>, replica: ReplicaId) -> bool
    ensures { result ≡ is_of_replica asked replica }
{
    match asked {
        None => true,
        Some(asked) => replica == asked,
    }
}

impl Selection {
    /// All entries.
    pub fn all() -> Selection
        ensures instance { result.instance ≡ None }
        ensures about { result.about ≡ None }
        ensures replica { result.replica ≡ None }
        ensures all { (r : ℕ) (e : Taken) → e.stamp < 2 ^ 64 → keeps result r e ≡ true }
    {
        Selection {
            instance: None,
            about: None,
            replica: None,
            from: 0,
            to: u64::MAX,
        }
    }

    /// Whether the entry of this replica is asked for.
    pub fn keeps(&self, replica: ReplicaId, entry: &Entry) -> bool
        ensures { result ≡ keeps self.now replica entry.now }
    {
        let stamp = entry.stamp.ticks();
        is_of_replica(self.replica, replica)
            && self.from <= stamp
            && stamp <= self.to
            && is_of_instance(self.instance, entry)
            && is_of_some(&self.about, entry)
    }
}
