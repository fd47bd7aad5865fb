//! Turns in rounds.

ghost use Rattle.std.specs.Prelude.{ℕ};
ghost use Rattle.ep_host.specs.Pointwise.{Each};
ghost use Rattle.ep_host.specs.Follows.{Settles, Rounds};
ghost use Rattle.ep_host.specs.Host.{IsHost, AllBegin, AllFrom};
ghost use Rattle.ep_host.specs.Turned.{AreRounds, AreSettled, IsTurnIn};

use crate::account::look_at_all;
use crate::ring_node::RingNode;
use crate::turn::Turn;

/// One turn of the node; whether it moved.
fn turn_of(node: &mut RingNode) -> bool
    ensures rounds { Rounds result node.old node.new }
    ensures turn { IsTurnIn result node.old node.new }
{
    match node.turn() {
        Turn::Moved => true,
        Turn::Idle => false,
    }
}

/// One turn of each node; whether one of them moved.
fn round(nodes: &mut [RingNode]) -> bool
    ensures rounds { Each (Rounds result) nodes.old nodes.new }
    ensures turns { Each (IsTurnIn result) nodes.old nodes.new }
{
    let mut moved = false;
    for place in 0..nodes.len() {
        let now = turn_of(&mut nodes[place]);
        moved = now | moved;
    }
    moved
}

/// Turns in rounds, until a round moves nothing or the rounds are used up.
fn turn_all(nodes: &mut [RingNode], rounds: u32)
    ensures nodes { Each (Settles rounds) nodes.old nodes.new }
    ensures rounds { AreRounds rounds nodes.old nodes.new }
{
    for _done in 0..rounds {
        if !round(nodes) {
            return;
        }
    }
}

/// Gives the nodes of a host turns in rounds, until a round moves nothing or the rounds are used up.
pub fn settle(nodes: &mut [RingNode], rounds: u32)
    requires { (f : ℕ) × IsHost f nodes.old }
    ensures nodes { Each (Settles rounds) nodes.old nodes.new }
    ensures rounds { AreSettled rounds nodes.old nodes.new }
    ensures host { (f : ℕ) → IsHost f nodes.old → IsHost f nodes.new }
    ensures begins { AllBegin nodes.new }
    ensures from { AllFrom nodes.new }
{
    turn_all(nodes, rounds);
    look_at_all(nodes);
}
