//! Laws of what f+1 replicas can do alone, from any world that a run reaches.

ghost use Rattle.ep_laws.specs.Alone.{AloneIsRun, CanEnd};
ghost use Rattle.ep_laws.specs.Executing.{CanExecute, NothingWaits};
ghost use Rattle.ep_laws.specs.Finishing.{CanFinish, CanSurvey};
ghost use Rattle.ep_laws.specs.InTurn.{InTurn};
ghost use Rattle.ep_laws.specs.Named.{NamedSuffice};
ghost use Rattle.ep_laws.specs.Quiet.{RoundEnds, Unstuck};
ghost use Rattle.ep_laws.specs.Serving.{CanServe, RoomAtFirst, ServedSealCloses};

/// What replicas do alone is a run of the whole cluster, too, with the same states behind it.
pub fn alone_is_run()
    ensures { AloneIsRun }
{}

/// From any world that a run reaches, any f+1 replicas can have any instance committed at any one of them, alone, with
/// two recoveries at most.
pub fn can_end()
    ensures { CanEnd }
{}

/// A round ends its instance, in whatever order its messages are handled, where no other live replica has promised as
/// much as its ballot.
pub fn round_ends()
    ensures { RoundEnds }
{}

/// A second round ends its instance, whatever was promised before the first one.
pub fn unstuck()
    ensures { Unstuck }
{}

/// Where all that an instance reaches is committed, its execution is refused for no reason.
pub fn nothing_waits()
    ensures { NothingWaits }
{}

/// Where all that an instance reaches is committed, it has an execution order, its execution is taken, and behind that
/// it is executed.
pub fn can_execute()
    ensures { CanExecute }
{}

/// Behind two rounds at most for each instance, in turn, all are committed; and the execution of one that reaches no
/// others is refused for no reason.
pub fn in_turn()
    ensures { InTurn }
{}

/// From any world that a run reaches, any f+1 replicas can end all that they know of, alone, at any one of them, with
/// two recoveries at most for each instance that is open there; and then each command that it knows of is executed.
///
/// Premises: limits of counters aren't near, and there is room for as many sequence numbers as there are open
/// instances.
pub fn can_finish()
    ensures { CanFinish }
{}

/// What live replicas know of in such a world, and any one instance, stand in a finite list, with a bound on all its
/// sequence numbers.
pub fn can_survey()
    ensures { CanSurvey }
{}

/// From any world that a run reaches, any command that may be asked for can be proposed at any one of f+1 replicas, and
/// is committed and executed there by them alone: it isn't lost.
///
/// Premises: limits of counters aren't near, the replica leads an instance more of which nobody of them knows, and
/// there is room for two sequence numbers more than there are open instances.
pub fn can_serve()
    ensures { CanServe }
{}

/// Where that command is a seal, the replica's map is closed then: so a generation can always be closed.
pub fn served_seal_closes()
    ensures { ServedSealCloses }
{}

/// The premises of `can_serve` hold of the world in which a run begins.
pub fn room_at_first()
    ensures { RoomAtFirst }
{}

/// From any world that a run reaches, live replicas, among them the F + 1 that are named for an instance, which its leader is
/// none of, can end it alone, at any one of them: with two recoveries at most, in whatever order messages are handled.
pub fn named_suffice()
    ensures { NamedSuffice }
{}
