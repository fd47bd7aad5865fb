//! The instances that a replica knows of and hasn't committed.

ghost use Rattle.std.specs.Prelude.{◌≡◌, [], ◌∷◌, ◌++◌, ℕ, List, Option, true};
ghost use Rattle.ep_base.specs.Places.{Has};
ghost use Rattle.ep_rules.specs.declared.record.Record.{Record as Recorded};
ghost use Rattle.ep_space.specs.Open.{deps_of, is_above, is_left, first_left, lesser, IsLeast, IsLeastOf, IsLeastIn, IsNextOpen};

use crate::space::Space;
use ep_base::{Deps, InstanceId};
use ep_rules::Record;

/// Whether the instance is above this one, where there is one.
fn is_above(after: &Option<InstanceId>, id: InstanceId) -> bool
    ensures { result ≡ is_above after.now id }
{
    match after {
        None => true,
        Some(after) => *after < id,
    }
}

/// The lesser of two, where there are two.
fn lesser(found: Option<InstanceId>, other: Option<InstanceId>) -> Option<InstanceId>
    ensures { result ≡ lesser found other }
{
    let Some(least) = found else {
        return other;
    };
    let Some(another) = other else {
        return found;
    };
    if another < least { other } else { found }
}

/// Whether the instance is above this one, where there is one, and isn't committed.
fn is_left(space: &Space, after: &Option<InstanceId>, id: InstanceId) -> bool
    ensures { result ≡ is_left space.now.records after.now id }
{
    is_above(after, id) && space.committed(id).is_none()
}

/// The first of the list that is above this one, where there is one, and isn't committed.
fn first_left(space: &Space, after: &Option<InstanceId>, list: &[InstanceId]) -> Option<InstanceId>
    ensures { result ≡ first_left space.now.records after.now list.now }
{
    for id in list {
        if is_left(space, after, *id) {
            return Some(*id);
        }
    }
    None
}

/// The least of the dependencies that is above this one, where there is one, and isn't committed: they rise, so it is the first.
#[tactic(auto, using(crate::proofs::Opening::least_first))]
fn least_dep(space: &Space, after: &Option<InstanceId>, deps: &Deps) -> Option<InstanceId>
    ensures { IsLeast (λ i. Has deps.now i × (is_left space.now.records after.now i ≡ true)) result }
{
    first_left(space, after, deps.as_slice())
}

/// The least dependency of what the record votes for that is above this one, where there is one, and isn't committed.
fn least_named(space: &Space, after: &Option<InstanceId>, written: &Record) -> Option<InstanceId>
    ensures { IsLeast (λ i. Has (deps_of written.now.vote) i × (is_left space.now.records after.now i ≡ true)) result }
{
    match &written.vote {
        None => None,
        Some(vote) => least_dep(space, after, &vote.decree.attrs.deps),
    }
}

/// The instance itself, if it is above this one, where there is one, and isn't committed.
#[tactic(auto, using(crate::proofs::Opening::least_itself))]
fn itself(space: &Space, after: &Option<InstanceId>, id: InstanceId) -> Option<InstanceId>
    ensures { IsLeast (λ i. (id ≡ i) × (is_left space.now.records after.now i ≡ true)) result }
{
    if is_left(space, after, id) {
        Some(id)
    } else {
        None
    }
}

/// The least instance that the entry's record names that is above this one, where there is one, and isn't committed.
#[tactic(auto, using(crate::proofs::Opening::least_entry))]
fn least_of(
    space: &Space,
    after: &Option<InstanceId>,
    id: InstanceId,
    written: &Option<Record>,
) -> Option<InstanceId>
    ensures { IsLeastOf space.now.records after.now id written.now result }
{
    match written {
        None => None,
        Some(record) => lesser(itself(space, after, id), least_named(space, after, record)),
    }
}

/// The least that was found so far and that this entry names.
#[tactic(auto, using(crate::proofs::Opening::least_more))]
fn least_with(
    space: &Space,
    after: &Option<InstanceId>,
    found: Option<InstanceId>,
    id: InstanceId,
    written: &Option<Record>,
) -> Option<InstanceId>
    ensures { (es : List (ℕ × Option Recorded)) → IsLeastIn space.now.records after.now es found → IsLeastIn space.now.records after.now (es ++ (id, written.now) ∷ []) result }
{
    lesser(found, least_of(space, after, id, written))
}

impl Space {
    ghost use Rattle.std.specs.Prelude.{◌≡◌};
    ghost use Rattle.ep_space.specs.Open.{IsNextOpen};

    /// The least instance above this one, where there is one, that a record is of or that what a record votes for depends on, and that isn't
    /// committed. It takes one pass over the records and their dependencies.
    #[tactic(auto, using(crate::proofs::Opening::next_found))]
    pub fn next_open(&self, after: Option<InstanceId>) -> Option<InstanceId>
        ensures { IsNextOpen self.now.records after result }
    {
        let entries = self.entries();
        let mut found = None;
        for (id, record) in entries.iter() {
            found = least_with(self, &after, found, *id, record);
        }
        found
    }
}
