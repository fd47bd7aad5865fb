//! Laws of any machine that is handed what its replica executes.

ghost use Rattle.ep_rules.specs.MachineChains.{ChainsOneMachine, LivesOneMachine};
ghost use Rattle.ep_rules.specs.Machines.{HandedStays, JournalsOneMachine, KeepersAreMachines, MachinesResume, MapIsMachine, OneMachine, OneState, RunsCloseMachines, RunsOneMachine, RunsOneState};

/// Whatever the machine: each replica's own one replies to an operation as one machine does that is handed the one history.
///
/// Premises: any interleaving of the replicas' own executions, as plans alone; of two interfering committed commands one depends on the other.
pub fn one_machine<S, R>()
    ensures { OneMachine S R }
{}

/// Two replicas that have executed the same operations, at any two times, have their machines in one state.
///
/// The premises are those of `one_machine`.
pub fn one_state<S, R>()
    ensures { OneState S R }
{}

/// What a replica's machine was handed stays, with all that came before it: it may be handed each execution as it comes.
pub fn handed_stays()
    ensures { HandedStays }
{}

/// A machine may stop and go on from the state that it left, and what comes later changes no reply.
pub fn machines_resume<S, R>()
    ensures { MachinesResume S R }
{}

/// In every run, whatever the machine: a replica's own one replies to an operation as one machine does that is handed the run's history, which is a linearization of the run.
pub fn runs_one_machine<S, R>()
    ensures { RunsOneMachine S R }
{}

/// In every run two replicas that have executed the same operations, at any two times, have their machines in one state.
pub fn runs_one_state<S, R>()
    ensures { RunsOneState S R }
{}

/// In every run, whoever has executed a seal has its machine, by the operations up to its first seal, in the state that the history up to its first seal leaves.
pub fn runs_close_machines<S, R>()
    ensures { RunsCloseMachines S R }
{}

/// Of journals that match, whatever the machine: one that is handed what a journal executes replies to it as one machine does that is handed the journals' history.
pub fn journals_one_machine<S, R>()
    ensures { JournalsOneMachine S R }
{}

/// Whatever the machine, it is one through all generations of a chain of journals, each of which begins with the state that the seal of the one before has left.
pub fn chains_one_machine<S, R>()
    ensures { ChainsOneMachine S R }
{}

/// Whatever the machine, it is one through all generations of a life, by the history that makes the life linearizable.
pub fn lives_one_machine<S, R>()
    ensures { LivesOneMachine S R }
{}

/// The map of the core is a machine.
pub fn map_is_machine()
    ensures { MapIsMachine }
{}

/// What keeps to its footprints is a machine: each operation changes at most what its keys have, and nothing if it only reads; what they have then, and its reply, follow from what they had.
pub fn keepers_are_machines<X, R>()
    ensures { KeepersAreMachines X R }
{}
