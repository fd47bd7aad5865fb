//! What a node says of itself.

ghost use Rattle.std.specs.Prelude.{◌≡◌, ◌≤◌, is_some, IfSome};
ghost use Rattle.ep_base.specs.Instances.{highest_number};
ghost use Rattle.ep_replica.specs.Pending.{state_of};
ghost use Rattle.ep_rules.specs.States.{committed_in};
ghost use Rattle.ep_serve.specs.Answering.{deps_count, last_number, most_own_deps, number_or, reported_state};

use crate::executing::instance_at;
use ep_base::InstanceId;
use ep_journal::Entry;
use ep_replica::Replica;
use ep_wire::{NodeState, taken_as};

/// The number of the instance that a proposal took, or this one.
fn number_or(number: u16, taken: Option<InstanceId>) -> u16
    requires { number ≤ highest_number }
    ensures value { result ≡ number_or number taken }
    ensures range { result ≤ highest_number }
{
    match taken {
        Some(instance) => instance.number(),
        None => number,
    }
}

/// The number of the instance that the last proposal among the entries took; 0 where there is none.
fn last_number(entries: &[Entry]) -> u16
    ensures value { result ≡ last_number 0 entries.now }
    ensures range { result ≤ highest_number }
{
    let mut last = 0;
    for entry in entries {
        last = number_or(last, taken_as(entry));
    }
    last
}

/// How many dependencies the instance has, where it is committed.
fn deps_count(replica: &Replica, instance: InstanceId) -> u16
    ensures { result ≡ deps_count (committed_in (state_of replica.now).records instance) }
{
    match replica.committed(instance) {
        Some(decree) => decree.attrs.deps.len() as u16,
        None => 0,
    }
}

/// How many dependencies one of the replica's own instances up to this number has at most, of those that are committed.
fn most_own_deps(replica: &Replica, used: u16) -> u16
    requires { used ≤ highest_number }
    ensures { result ≡ most_own_deps (state_of replica.now).records replica.now.me used }
{
    let mut most = 0;
    for place in 0..used {
        let instance = instance_at(replica.me(), place + 1);
        most = deps_count(replica, instance).max(most);
    }
    most
}

/// Whether the replica executed a seal.
fn is_sealed(replica: &Replica) -> bool
    ensures { result ≡ is_some (state_of replica.now).store.seal }
{
    replica.seal().is_some()
}

/// What a node of this replica says of itself; none where its entries are past counting. It takes a pass over the entries.
pub(crate) fn reported_state(replica: &Replica) -> Option<NodeState>
    ensures { IfSome result (λ s. s ≡ reported_state replica.now) }
{
    let journal = replica.journal();
    let Ok(entries) = u32::try_from(journal.entries().len()) else {
        return None;
    };
    let used = last_number(journal.entries());
    Some(NodeState {
        generation: replica.version().generation(),
        entries,
        used,
        deps: most_own_deps(replica, used),
        is_sealed: is_sealed(replica),
        stamp: journal.last_stamp(),
    })
}
