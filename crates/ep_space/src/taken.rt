//! How many of each replica's first instances have a record.

ghost use Rattle.std.specs.Prelude.{◌≡◌, ◌≤◌, ◌<◌, ◌+◌, ℕ, true, false, None, is_some};
ghost use Rattle.ep_base.specs.Instances.{instance_of, leader_of, number_of, highest_number};
ghost use Rattle.ep_rules.specs.Maps.{get};
ghost use Rattle.ep_rules.specs.States.{is_free};
ghost use Rattle.ep_space.specs.Taken.{taken_by, AreTaken, AreTakenBut};

use crate::table::Table;
use ep_base::{InstanceId, ReplicaId};
use ep_rules::Record;

/// Notes that the instance's record was written, or taken out: each number stays one of first instances that all have a record. Where the
/// record isn't of the next one, nothing is looked up.
#[inline(always)]
pub(crate) fn note(taken: &mut [u16; 7], table: &Table<Record>, id: InstanceId, is_there: bool)
    requires but { AreTakenBut id table.now.held taken.old }
    requires there { is_there ≡ is_some (get table.now.held id) }
    ensures { AreTaken table.now.held taken.new }
{
    let leader = usize::from(id.replica().index());
    let known = taken[leader];
    if !is_there {
        taken[leader] = known.min(id.number() - 1);
    } else if id.number() - 1 == known {
        taken[leader] = advanced(table, id.replica(), id.number());
    }
}

// A number as great or greater of first instances that all have a record.
fn advanced(table: &Table<Record>, leader: ReplicaId, known: u16) -> u16
    requires bounded { known ≤ highest_number }
    requires full { (n : ℕ) → n < known → is_free table.now.held leader n ≡ false }
    ensures bounded { result ≤ highest_number }
    ensures full { (n : ℕ) → n < result → is_free table.now.held leader n ≡ false }
{
    let mut taken = known;
    while taken < InstanceId::HIGHEST_NUMBER && has_record(table, leader, taken) {
        taken += 1;
    }
    taken
}

// Whether the instance of the leader that this many come before has a record.
fn has_record(table: &Table<Record>, leader: ReplicaId, place: u16) -> bool
    requires { place < highest_number }
    ensures { result ≡ is_some (get table.now.held (instance_of leader (place + 1))) }
{
    let id = InstanceId::new(leader, place + 1).unwrap();
    table.get(id).is_some()
}
