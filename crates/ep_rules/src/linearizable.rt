//! Laws of every run: it is linearizable, and its history only grows.

ghost use Rattle.ep_rules.specs.Linearizable.{HistoryGrows, Linearizability};

/// Every run of 2f+1 replicas is linearizable (Herlihy and Wing, 1990), by the history of its commands in the order of their first executions at any replica.
///
/// Each execution answers one map's reply at its command's place in that history. What was executed at any replica before
/// another command was proposed at any replica stands before it. Each replica executes interfering commands in that order.
pub fn linearizability()
    ensures { Linearizability }
{}

/// The history of a longer run begins with that of the shorter one.
pub fn history_grows()
    ensures { HistoryGrows }
{}
