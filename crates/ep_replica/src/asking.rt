//! What a program asks a replica.

use crate::replica::Replica;
use ep_base::{InstanceId, Key, Value};
use ep_exec::{Contents, ContentsFault};
use ep_phase::LeadPhase;

impl Replica {
    ghost use Rattle.std.specs.FinMap.{entries};
    ghost use Rattle.std.specs.Prelude.{◌≡◌, option_copied, IfOk, IfErr};
    ghost use Rattle.ep_exec.specs.Sorting.{IsBad};
    ghost use Rattle.ep_phase.specs.Progress.{progress_in};
    ghost use Rattle.ep_rules.specs.Maps as maps;
    ghost use Rattle.ep_rules.specs.OneMap.{value_at};
    ghost use Rattle.ep_space.specs.Open.{IsNextOpen};
    ghost use Rattle.ep_replica.specs.Pending.{state_of};

    /// What its map has at the key, after all that it executed.
    ///
    /// A local read, which may be old: other replicas may have executed more. A client's read is a command, which is proposed.
    pub fn get(&self, key: &Key) -> Option<&Value>
        ensures { option_copied result ≡ value_at (state_of self.now).store.contents key.now }
    {
        self.journal().value(key)
    }

    /// What the keys of its map have, after all that it executed, in rising order of keys: a copy. `OutOfRange` if a key isn't of 1 to 255 bytes,
    /// as each command's are.
    pub fn contents(&self) -> Result<Contents, ContentsFault>
        ensures ok { IfOk result (λ c. c ≡ (state_of self.now).store.contents) }
        ensures refused { IfErr result (λ fault. IsBad (entries (state_of self.now).store.contents) fault) }
    {
        self.journal().contents()
    }

    /// The value of the seal that closed its map, if it executed one.
    pub fn seal(&self) -> Option<&Value>
        ensures { option_copied result ≡ (state_of self.now).store.seal }
    {
        self.journal().seal()
    }

    /// The phase in which it leads the instance, and how many other replicas answered in it, 0 to 6; none if it doesn't lead it.
    pub fn leads(&self, instance: InstanceId) -> Option<(LeadPhase, u8)>
        ensures { result ≡ progress_in self.now.faults self.now.me (maps.get (state_of self.now).leads instance) }
    {
        self.journal().leads(instance)
    }

    /// The least instance above this one (if one is given) that it knows of and hasn't committed: that it has a record of, or that what it
    /// voted for or committed in another depends on. It is one to recover.
    ///
    /// It takes one pass over the records and their dependencies.
    pub fn next_open(&self, after: Option<InstanceId>) -> Option<InstanceId>
        ensures { IsNextOpen (state_of self.now).records after result }
    {
        self.journal().next_open(after)
    }
}
