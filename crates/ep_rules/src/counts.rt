//! Laws that count: what a step sends, what a replica executes, and how many instances there are.

ghost use Rattle.ep_rules.specs.Counts.{ExecutedOnce, InstancesAreFew, SendsFew};

/// A step sends no more messages than there are replicas.
pub fn sends_few()
    ensures { SendsFew }
{}

/// A replica executes no instance twice.
pub fn executed_once()
    ensures { ExecutedOnce }
{}

/// There are at most 63,000 instances.
pub fn instances_are_few()
    ensures { InstancesAreFew }
{}
