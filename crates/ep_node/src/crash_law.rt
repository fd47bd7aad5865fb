//! Laws of nodes that crash and come back with what they had handed out: their runs are runs without a crash.

ghost use Rattle.ep_node.specs.Calls.{CallsAreMoves};
ghost use Rattle.ep_node.specs.CrashLives.{CrashingLivesAreChains, CrashingLivesAreLinearizable};
ghost use Rattle.ep_node.specs.Crashes.{CrashesKeepAgreement, CrashesKeepReceipts, CrashesLeaveNoTrace, CrashingRunsAreLinearizable, CrashingRunsAreRuns, HandedOutStays, PlayedRunsAreMoves};
ghost use Rattle.ep_node.specs.LifeCalls.{LifeCallsAreMoves};

/// Whatever crashed, the nodes' entries are the journals of one run without a crash, and no audit of them finds a fault.
pub fn crashing_runs_are_runs()
    ensures { CrashingRunsAreRuns }
{}

/// What is left of a run with crashes, in the order in which it was taken, is a run without a crash, and linearizable.
pub fn crashing_runs_are_linearizable()
    ensures { CrashingRunsAreLinearizable }
{}

/// Whatever moves lead to, moves without a crash lead to: an entry that a crash took is as if it had never been.
pub fn crashes_leave_no_trace()
    ensures { CrashesLeaveNoTrace }
{}

/// Whatever a world plays by the clock, moves without a crash lead to.
pub fn played_runs_are_moves()
    ensures { PlayedRunsAreMoves }
{}

/// No crash takes back an entry that something was handed out of, nor a frame.
pub fn handed_out_stays()
    ensures { HandedOutStays }
{}

/// What was handed out of a node at one point of a run, and what any node commits at a later one, agree: in an instance the same, and of two interfering commands one depends on the other.
pub fn crashes_keep_agreement()
    ensures { CrashesKeepAgreement }
{}

/// Receipts that were handed out are right at every later point: no audit finds a fault in them, and their answers are one map's replies to its history, in each caller's order.
pub fn crashes_keep_receipts()
    ensures { CrashesKeepReceipts }
{}

/// Let nodes crash and come back, open the next generation with one another's maps, lose their disks and begin again there. What is left, in the order
/// in which it was done, is one life without a crash. One history of one map explains each answer of each generation, and
/// keeps real time through all of them.
pub fn crashing_lives_are_linearizable()
    ensures { CrashingLivesAreLinearizable }
{}

/// The journals of such generations, up to one that somebody has opened, are a chain whose clocks go on. So what the laws on chains say holds of them: one
/// history explains each answer, and keeps each caller's order by stamps, whatever the generations.
pub fn crashing_lives_are_chains()
    ensures { CrashingLivesAreChains }
{}

/// What a node's calls do are the moves of these laws: an event that was taken is a `Take`, the replica that is lent a `HandOut`
/// of all entries, a crash and the next `open` a `ComeBack`; a sync is none.
pub fn calls_are_moves()
    ensures { CallsAreMoves }
{}

/// What nodes' calls do through generations are the moves of the law on lives: within a generation as `calls_are_moves` says; a file that `close` hands out is
/// a `HandOut` of all entries; and whoever opens the next generation with it, at whatever later point, makes an `OpensNext`.
pub fn life_calls_are_moves()
    ensures { LifeCallsAreMoves }
{}
