//! Laws of seals: all who have executed one have the same map.

ghost use Rattle.ep_rules.specs.Closing.{ClosedStays, OneSettling, RunsClose, RunsCloseAlike, RunsExecuteAll, SealCloses};
ghost use Rattle.ep_rules.specs.History.{OneClosing};

/// A replica that has executed a seal has the map that the history leaves.
///
/// Premises: any interleaving of the replicas' own runs; of two interfering committed commands one depends on the other.
pub fn one_closing()
    ensures { OneClosing }
{}

/// Operations among which is a seal leave, of an open map, what those up to the first seal write, closed with that seal's value.
pub fn seal_closes()
    ensures { SealCloses }
{}

/// A map that a seal has closed stays as it is.
pub fn closed_stays()
    ensures { ClosedStays }
{}

/// In every run, whoever has executed a seal has the map that the history up to its first seal writes, with that seal's value.
pub fn runs_close()
    ensures { RunsClose }
{}

/// In every run any two replicas that have executed a seal, at any two times, have one map.
pub fn runs_close_alike()
    ensures { RunsCloseAlike }
{}

/// In every run, whoever has executed a seal has executed each operation up to the first seal.
pub fn runs_execute_all()
    ensures { RunsExecuteAll }
{}

/// In every run, whoever has executed a seal has executed whatever is ever answered there by a reply other than `Closed`.
///
/// So a command that is answered `Closed` was done nowhere and never will be: it may be asked again in the next generation.
pub fn one_settling()
    ensures { OneSettling }
{}
