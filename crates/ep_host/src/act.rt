//! What a replica is asked to do with an instance.

ghost use Rattle.std.specs.Prelude.{◌≡◌};
ghost use Rattle.ep_host.specs.Tending.{event_of};

use ep_base::InstanceId;
use ep_journal::Event;

/// What a replica is asked to do with an instance.
#[derive(Clone, Copy, Debug, PartialEq, Eq)]
pub enum Act {
    /// Its leader waits no longer for its fast quorum.
    GiveUp(InstanceId),
    /// The replica takes it over, by explicit prepare.
    Recover(InstanceId),
}

impl Act {
    /// The event.
    pub(crate) fn event(self) -> Event
        ensures { result ≡ event_of self }
    {
        match self {
            Act::GiveUp(instance) => Event::GiveUp(instance),
            Act::Recover(instance) => Event::Recover(instance),
        }
    }
}
