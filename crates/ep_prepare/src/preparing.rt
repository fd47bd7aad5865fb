//! What a replica does with a Prepare and with a Nack.

ghost use Rattle.std.specs.Prelude.{◌≡◌};
ghost use Rattle.ep_rules.specs.Recovery as rules;
ghost use Rattle.ep_phase.specs.Changes.{change_of};
ghost use Rattle.ep_phase.specs.InstanceViews.{record_of};

use ep_base::{Ballot, ReplicaId};
use ep_phase::{Change, InstanceView, LeadChange, Receivers, Recorded, Sending, What};

/// Handles a Prepare: below the promised ballot it is refused; at that ballot nothing happens; else the replica joins the ballot,
/// and answers its last vote. A replica that has committed answers, too. It takes no memory.
pub fn on_prepare(cell: &InstanceView<'_>, from: ReplicaId, ballot: Ballot) -> Change
    ensures { change_of cell.now result ≡ rules.on_prepare cell.now.instance from ballot (record_of cell.now) }
{
    let promised = cell.promised();
    if ballot < promised {
        return Change::refused(from, ballot, promised);
    }
    if ballot == promised {
        return Change::nothing();
    }
    let out = Sending {
        to: Receivers::One(from),
        what: What::PrepareOk(ballot),
    };
    Change::of(Recorded::Joins(ballot), LeadChange::Stays, Some(out))
}

/// Handles a Nack: the greatest counter that one named for the instance is kept. It takes no memory.
pub fn on_nack(cell: &InstanceView<'_>, promised: Ballot) -> Change
    ensures { change_of cell.now result ≡ rules.on_nack promised cell.now.reported }
{
    Change {
        entry: Recorded::Stays,
        led: LeadChange::Stays,
        reported: Some(cell.reported().max(promised.counter())),
        out: None,
    }
}
