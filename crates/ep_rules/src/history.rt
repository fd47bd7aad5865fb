//! Laws of the execution order, and of the one history that all executions make.

ghost use Rattle.ep_rules.specs.History.{Components, EarlierFirst, OneHistory, OneOrder, OnePlan, OneReply};

/// An execution of a root has one order at most, given what is committed and what was executed before it.
pub fn one_plan()
    ensures { OnePlan }
{}

/// A component is executed whole in one execution, and what a replica has executed is closed under reach.
///
/// Premise: any interleaving of the replicas' own runs, whose committed attributes agree.
pub fn components()
    ensures { Components }
{}

/// Two interfering commands are executed by each replica in the order in which the history has them.
///
/// Premises: any interleaving of the replicas' own runs; of two interfering committed commands one depends on the other.
pub fn one_order()
    ensures { OneOrder }
{}

/// A command's reply is the same whether a replica's own executions are done in turn or the history is.
///
/// Premises: any interleaving of the replicas' own runs; of two interfering committed commands one depends on the other.
pub fn one_reply()
    ensures { OneReply }
{}

/// Each answer of each execution, not only of the first one of its instance, is the reply of one map to the history, at the instance's place there; a no-op answers lost, and has no place.
///
/// Premises: any interleaving of the replicas' own runs; of two interfering committed commands one depends on the other.
pub fn one_history()
    ensures { OneHistory }
{}

/// What is executed before any execution of an instance stands before it in the history; no-ops aside, which have no place there.
pub fn earlier_first()
    ensures { EarlierFirst }
{}
