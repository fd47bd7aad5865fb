//! Why an event was not applied.

ghost use Rattle.std.specs.Prelude.{◌≡◌};
ghost use Rattle.ep_replica.specs.Faults.{in_numbers};
ghost use Rattle.ep_replica.specs.declared.replica_fault.ReplicaFault.TheVariants.{BadFrame};

use ep_frame::FrameFault;
use ep_journal::StepFault;
use thiserror::Error;

/// Why an event was not applied: the bytes are no frame of the replica's version and generation; or a `StepFault`, whose instance is named by its two numbers. The replica is then as it was.
#[derive(Clone, Copy, Debug, PartialEq, Eq, Error)]
pub enum ReplicaFault {
    #[error("E1 memory")]
    Memory,
    /// The bytes to be handled are no frame; or, with `Version` or `Generation`, the frame is of another one.
    #[error("E14 bad frame")]
    BadFrame(FrameFault),
    /// A replica's number is not below the cluster's size, a no-op is proposed, or a client or a request is 0.
    #[error("E3 out of range")]
    OutOfRange,
    /// The frame is for another replica.
    #[error("E13 not mine")]
    NotMine,
    /// The entry's stamp or number would pass its limit; or, in a generation, the event names a stamp more than 2^40 above the last one.
    #[error("E15 stamp full")]
    StampFull,
    /// The replica has a record of each of its instances that is for the command: 2,000 in version 2, and in version 3 9,000 for a seal and 8,990 for
    /// any other command.
    #[error("E4 space full")]
    SpaceFull,
    /// The sequence number would pass 1,000,000.
    #[error("E5 seq exhausted")]
    SeqExhausted,
    /// The replica does not lead the instance's default ballot in phase 1, has promised another ballot, or has committed.
    #[error("E6 not leading")]
    NotLeading,
    /// Fewer replicas have answered than may fail.
    #[error("E7 too few answers")]
    TooFewAnswers,
    /// The replica has committed the instance.
    #[error("E8 already committed")]
    AlreadyCommitted,
    /// The counter of the new ballot would pass 60,000.
    #[error("E9 ballots exhausted")]
    BallotsExhausted,
    /// The least instance that the root reaches and that is not committed: the replica that leads it, and its number.
    #[error("E10 not committed")]
    NotCommitted { replica: u8, number: u16 },
}

impl From<StepFault> for ReplicaFault {
    ghost from_gives = { λ f e. e ≡ in_numbers f };

    fn from(fault: StepFault) -> ReplicaFault {
        match fault {
            StepFault::Memory => ReplicaFault::Memory,
            StepFault::OtherVersion => ReplicaFault::BadFrame(FrameFault::Version),
            StepFault::OtherGeneration => ReplicaFault::BadFrame(FrameFault::Generation),
            StepFault::OutOfRange => ReplicaFault::OutOfRange,
            StepFault::NotMine => ReplicaFault::NotMine,
            StepFault::StampFull => ReplicaFault::StampFull,
            StepFault::SpaceFull => ReplicaFault::SpaceFull,
            StepFault::SeqExhausted => ReplicaFault::SeqExhausted,
            StepFault::NotLeading => ReplicaFault::NotLeading,
            StepFault::TooFewAnswers => ReplicaFault::TooFewAnswers,
            StepFault::AlreadyCommitted => ReplicaFault::AlreadyCommitted,
            StepFault::BallotsExhausted => ReplicaFault::BallotsExhausted,
            StepFault::NotCommitted(instance) => ReplicaFault::NotCommitted {
                replica: instance.replica().index(),
                number: instance.number(),
            },
        }
    }
}

impl From<FrameFault> for ReplicaFault {
    ghost from_gives = { λ f e. e ≡ BadFrame f };

    fn from(fault: FrameFault) -> ReplicaFault {
        ReplicaFault::BadFrame(fault)
    }
}
