//! Why an event was not taken.

ghost use Rattle.std.specs.Prelude.{◌≡◌, ◌≤◌};
ghost use Rattle.ep_journal.specs.Refusals.{instance_named, name_of};
ghost use Rattle.ep_journal.specs.Refused.{of_decision, of_plan};
ghost use Rattle.ep_journal.specs.declared.step_fault.StepFault.TheVariants.{Memory, SpaceFull as NoNumber};

use ep_base::InstanceId;
use ep_exec::PlanFault;
use ep_phase::DecisionFault;
use ep_space::SpaceFull;
use std::alloc::AllocError;
use std::error::Error;
use std::fmt;

/// Why an event was not taken. The replica's state is then as it was.
#[derive(Clone, Copy, Debug, PartialEq, Eq)]
pub enum StepFault {
    /// There is no memory.
    Memory,
    /// The frame is of another version than the replica.
    OtherVersion,
    /// The frame is of the replica's version, and of another generation.
    OtherGeneration,
    /// The version doesn't have the command or the instance's number, a replica's number is not below the cluster's size, a no-op is
    /// proposed, or a client or a request is 0.
    OutOfRange,
    /// The frame is for another replica.
    NotMine,
    /// The entry's stamp or number would pass its limit.
    StampFull,
    /// The replica has a record of each instance that it leads and that is for the command: 1,000 in version 1, 2,000 in version 2, and in
    /// version 3 9,000 for a seal and 8,990 for any other command.
    SpaceFull,
    /// The sequence number would pass 1,000,000.
    SeqExhausted,
    /// The replica does not lead the instance's default ballot in phase 1, has promised another ballot, or has committed.
    NotLeading,
    /// Fewer replicas have answered than may fail.
    TooFewAnswers,
    /// The replica has committed the instance.
    AlreadyCommitted,
    /// The counter of the new ballot would pass 60,000.
    BallotsExhausted,
    /// The least instance that the root reaches and that is not committed.
    NotCommitted(InstanceId),
}

impl StepFault {
    /// The number and the words in its name: the table of them.
    pub fn name(&self) -> (u8, &'static str)
        ensures code { result.0 ≡ (name_of self.now).0 }
        ensures words { result.1.now ≡ (name_of self.now).1 }
        ensures range { (1 ≤ result.0) × (result.0 ≤ 15) }
    {
        match self {
            StepFault::Memory => (1, "memory"),
            StepFault::OutOfRange => (3, "out of range"),
            StepFault::SpaceFull => (4, "space full"),
            StepFault::SeqExhausted => (5, "seq exhausted"),
            StepFault::NotLeading => (6, "not leading"),
            StepFault::TooFewAnswers => (7, "too few answers"),
            StepFault::AlreadyCommitted => (8, "already committed"),
            StepFault::BallotsExhausted => (9, "ballots exhausted"),
            StepFault::NotCommitted(_) => (10, "not committed"),
            StepFault::NotMine => (13, "not mine"),
            StepFault::OtherVersion => (14, "bad frame"),
            StepFault::OtherGeneration => (14, "bad frame"),
            StepFault::StampFull => (15, "stamp full"),
        }
    }

    /// The instance that it names.
    pub fn instance(&self) -> Option<InstanceId>
        ensures { result ≡ instance_named self.now }
    {
        match self {
            StepFault::NotCommitted(instance) => Some(*instance),
            _ => None,
        }
    }
}

/// Its name, as `E4 space full`.
impl fmt::Display for StepFault {
    ghost use Rattle.std.specs.Prelude.{Some};
    ghost use Rattle.ep_journal.specs.Refusals.{name_of, name_text};

    ghost output = { λ f. Some (name_text (name_of f)) };

    fn fmt<W: fmt::Write>(&self, f: &mut fmt::Formatter<W>) -> fmt::Result {
        let (code, words) = self.name();
        write!(f, "E{code} {words}")
    }
}

impl Error for StepFault {}

impl From<AllocError> for StepFault {
    ghost from_gives = { λ _ e. e ≡ Memory };

    fn from(_fault: AllocError) -> StepFault {
        StepFault::Memory
    }
}

impl From<SpaceFull> for StepFault {
    ghost from_gives = { λ _ e. e ≡ NoNumber };

    fn from(_fault: SpaceFull) -> StepFault {
        StepFault::SpaceFull
    }
}

impl From<DecisionFault> for StepFault {
    ghost from_gives = { λ f e. e ≡ of_decision f };

    fn from(fault: DecisionFault) -> StepFault {
        match fault {
            DecisionFault::Memory => StepFault::Memory,
            DecisionFault::SeqExhausted => StepFault::SeqExhausted,
            DecisionFault::NotLeading => StepFault::NotLeading,
            DecisionFault::TooFewAnswers => StepFault::TooFewAnswers,
            DecisionFault::AlreadyCommitted => StepFault::AlreadyCommitted,
            DecisionFault::BallotsExhausted => StepFault::BallotsExhausted,
        }
    }
}

impl From<PlanFault> for StepFault {
    ghost from_gives = { λ f e. e ≡ of_plan f };

    fn from(fault: PlanFault) -> StepFault {
        match fault {
            PlanFault::Memory => StepFault::Memory,
            PlanFault::NotCommitted(instance) => StepFault::NotCommitted(instance),
        }
    }
}
