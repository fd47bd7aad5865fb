//! Laws of a cluster's life: generations, each of which opens with the map that the seal of the one before has left.

ghost use Rattle.ep_rules.specs.Chains.{ChainsExplain, ChainsKeepCallers, ClosedEntries, JournalsClose, SameHistory};
ghost use Rattle.ep_rules.specs.Generations.{LivesAreLinearizable, LivesGrow, OneOpening, RunsMakeLives};

/// All who open a generation open it with one map, and know one value of the seal before it.
pub fn one_opening()
    ensures { OneOpening }
{}

/// Every life is linearizable: the generations' histories, each up to its first seal, are one history of one map, which explains each answer and keeps real time across generations.
///
/// What has no place in it was lost, or was answered that the map is closed, and has changed nothing.
pub fn lives_are_linearizable()
    ensures { LivesAreLinearizable }
{}

/// The operations of matched journals' run are the instances of their history.
pub fn same_history()
    ensures { SameHistory }
{}

/// Of matched journals, each that has executed a seal leaves the map that the history up to its first seal writes, with that seal's value.
pub fn journals_close()
    ensures { JournalsClose }
{}

/// If each generation's journals match, and open with a map that one of the generation before leaves, closed by a seal, one map's replies to one history explain each answer of each generation.
pub fn chains_explain()
    ensures { ChainsExplain }
{}

/// Each caller's order is kept across generations, if the stamps of each are above that of an entry that executed a seal of the one before.
pub fn chains_keep_callers()
    ensures { ChainsKeepCallers }
{}

/// The history of a longer life begins with that of the shorter one.
pub fn lives_grow()
    ensures { LivesGrow }
{}

/// If a prefix of a replica's entries leaves a closed map, all of them leave the same.
pub fn closed_entries()
    ensures { ClosedEntries }
{}

/// Turns are a life if each generation's acts are a run from its opening map, whoever steps has opened the generation, and whoever opens one takes the map of one that has closed the generation before.
pub fn runs_make_lives()
    ensures { RunsMakeLives }
{}
