//! A law of what is reported to be committed.

ghost use Rattle.ep_node.specs.Reporting.{CommitsAreReported};

/// What a replica has committed is what some entry of its journal learnt to be committed: so each commit that is reported is one, and none is left out.
pub fn commits_are_reported()
    ensures { CommitsAreReported }
{}
