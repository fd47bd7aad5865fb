//! One step of a world.

ghost use Rattle.std.specs.Prelude.{◌≡◌, ◌<◌, ◌≤◌, ◌+◌, ◌-◌, ◌++◌, ◌∷◌, [], length, slice_index_or, vec_len, vec_capacity, IfErr, OnOk, OnErr};
ghost use Rattle.ep_world.specs.Replicas.{AreAll, world_of, places_up_to, Took, IsUntaken};

use crate::notes::Notes;
use crate::place::Place;
use ep_base::{ReplicaId, Size};
use ep_journal::{Entry, Event, StepFault};
use ep_replica::Replica;

/// Adds the places of an entry's frames. It takes no memory.
fn add_places(me: ReplicaId, entry: &Entry, messages: &mut Vec<Place>)
    requires few { length entry.now.frames ≤ 1000 }
    requires room { vec_len messages.old + length entry.now.frames ≤ vec_capacity messages.old }
    ensures { messages.new.items ≡ messages.old.items ++ places_up_to me entry.now.number (length entry.now.frames) }
{
    for out in 0..entry.frames.as_slice().len() {
        messages.push_reserved(Place {
            replica: me,
            entry: entry.number,
            out: out as u16,
        });
    }
}

/// The last entry.
fn last_entry(replica: &Replica) -> &Entry
    requires { 0 < length replica.now.entries }
    ensures { result.now ≡ slice_index_or replica.now.entries (length replica.now.entries - 1) result.now }
{
    let entries = replica.journal().entries();
    &entries[entries.len() - 1]
}

/// The replica takes the event, and its entry is noted; or all is left as it was.
#[inline(always)]
pub(crate) fn advance(
    cluster: Size,
    replicas: &mut Vec<Replica>,
    notes: &mut Notes,
    replica: ReplicaId,
    event: Event,
) -> Result<(), StepFault>
    requires { AreAll cluster replicas.old.items }
    ensures ok { OnOk result (Took (world_of cluster replicas.old.items notes.old.steps.items notes.old.messages.items) replica event (world_of cluster replicas.new.items notes.new.steps.items notes.new.messages.items)) }
    ensures refused { IfErr result (λ fault. IsUntaken (world_of cluster replicas.old.items notes.old.steps.items notes.old.messages.items) replica event fault) }
    ensures err { OnErr result ((replicas.new.items ≡ replicas.old.items) × (notes.new.steps.items ≡ notes.old.steps.items) × (notes.new.messages.items ≡ notes.old.messages.items)) }
    ensures replicas { AreAll cluster replicas.new.items }
{
    let place = replica.index() as usize;
    if place >= replicas.len() {
        return Err(StepFault::OutOfRange);
    }
    notes.steps.reserve(1)?;
    notes.messages.reserve(cluster.count() as usize + 1)?;
    match replicas[place].take(event) {
        Ok(()) => {
            let entry = last_entry(&replicas[place]);
            notes.steps.push_reserved((replica, entry.number));
            add_places(replica, entry, &mut notes.messages);
            Ok(())
        }
        Err(fault) => Err(fault),
    }
}
