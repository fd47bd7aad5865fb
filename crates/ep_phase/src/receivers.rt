//! Who gets a message.

ghost use Rattle.std.specs.Prelude.{◌≡◌};
ghost use Rattle.ep_base.specs.Quorums.{is_fast};

use ep_base::ReplicaId;

/// Who gets a message about an instance.
#[derive(Clone, Copy, Debug, PartialEq, Eq)]
pub enum Receivers {
    /// This replica.
    One(ReplicaId),
    /// The fast quorum that lacks this replica, but for the instance's leader.
    FastQuorum(ReplicaId),
    /// All replicas but the sender.
    Others,
}

/// Whether the replica is of the leader's fast quorum that lacks the spared one, and not the leader itself.
pub fn is_fast(leader: ReplicaId, spared: ReplicaId, replica: u8) -> bool
    ensures { result ≡ is_fast leader spared replica }
{
    replica != leader.index() && replica != spared.index()
}
