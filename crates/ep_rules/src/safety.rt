//! Laws of every run: agreement, permanence, validity and dependency.
//!
//! They hold for 2f+1 replicas and any acts that follow the rule book from the opening world; messages may come in any order, often, or never.

ghost use Rattle.ep_rules.specs.Safety.{Agreement, Dependency, Permanence, Validity};

/// No two replicas commit different commands or attributes in an instance, in any two worlds of one run (EPaxos, section 4.2: consistency).
pub fn agreement()
    ensures { Agreement }
{}

/// What a replica has committed in an instance stays so, whatever it does or handles from then on (EPaxos, section 4.2: stability).
pub fn permanence()
    ensures { Permanence }
{}

/// A committed command other than a no-op is the one that its instance's leader proposed there (EPaxos, section 4.2: nontriviality).
pub fn validity()
    ensures { Validity }
{}

/// Of two interfering commands that are committed, in any two worlds of one run, one depends on the other (EPaxos, section 4.3.1: the commit protocol).
pub fn dependency()
    ensures { Dependency }
{}
