//! Ballots.

ghost use Rattle.std.specs.Prelude.{◌≡◌, ◌≤◌, ◌↔◌, IsOk, IfOk};
ghost use Rattle.ep_base.specs.Ballots.{ballot_of, counter_of, owner_of, highest_counter};

use crate::out_of_range::OutOfRange;
use crate::replica_id::ReplicaId;
use std::marker::Model;

/// A ballot of an instance, ordered by its counter and then by the replica that leads it.
#[derive(Clone, Copy, Debug, PartialEq, Eq, PartialOrd, Ord, Hash)]
pub struct Ballot {
    counter: u16,
    replica: ReplicaId,
}

impl Model for Ballot {
    ghost use Rattle.std.specs.Prelude.{ℕ, ◌≤◌};
    ghost use Rattle.ep_base.specs.Ballots.{ballot_of, counter_of, owner_of};

    ghost Value = { ℕ };

    ghost view = { λ b. ballot_of b.counter b.replica };

    ghost invariant = { λ b. (b.counter ≤ 60000) × (b.replica ≤ 6) };

    ghost inverse = { λ v. record { counter = counter_of v; replica = owner_of v } };
}

impl Ballot {
    /// The ballot of this counter and leader; `OutOfRange` if the counter is above 60,000.
    pub fn new(counter: u16, replica: ReplicaId) -> Result<Ballot, OutOfRange>
        ensures in_range { IsOk result ↔ (counter ≤ highest_counter) }
        ensures value { IfOk result (λ b. b ≡ ballot_of counter replica) }
    {
        if counter > 60_000 {
            return Err(OutOfRange);
        }
        let _index = replica.index();
        Ok(Ballot { counter, replica })
    }

    /// The ballot of this counter, which is at most 60,000, and leader.
    pub fn from_valid(counter: u16, replica: ReplicaId) -> Ballot
        requires { counter ≤ highest_counter }
        ensures { result ≡ ballot_of counter replica }
    {
        let _index = replica.index();
        Ballot { counter, replica }
    }

    /// The default ballot of the instances that this replica leads: counter 0.
    pub fn default_of(leader: ReplicaId) -> Ballot
        ensures { result ≡ leader }
    {
        let _index = leader.index();
        Ballot {
            counter: 0,
            replica: leader,
        }
    }

    /// The ballot's counter, from 0 to 60,000.
    pub fn counter(self) -> u16
        ensures value { result ≡ counter_of self }
        ensures in_range { result ≤ highest_counter }
    {
        self.counter
    }

    /// The replica that leads the ballot.
    pub fn replica(self) -> ReplicaId
        ensures { result ≡ owner_of self }
    {
        self.replica
    }
}
