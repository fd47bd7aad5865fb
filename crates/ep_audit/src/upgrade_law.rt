//! The law of upgraded journals.

ghost use Rattle.ep_audit.specs.Upgraded.{UpgradedSaysTheSame};

/// An audit says of journals that were upgraded to version 2 what it says of those that they were, with any receipts: it accepts the ones
/// exactly where it accepts the others, finds the same first fault, and finds the same schedule, commands, history and replies.
pub fn upgraded_says_the_same()
    ensures { UpgradedSaysTheSame }
{}
