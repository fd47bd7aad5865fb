//! A section: each node in a thread of its own.

ghost use Rattle.std.specs.Prelude.{◌≡◌, ◌<◌, ℕ, true, length, All, OnOk, IfErr, IfSome, IfNone};
ghost use Rattle.ep_host.specs.Pointwise.{Each};
ghost use Rattle.ep_host.specs.Follows.{Follows, Runs, HasEnded, IsFirstUnended, IsFirstLeft};
ghost use Rattle.ep_host.specs.Host.{IsHost, AllBegin, AllFrom};
ghost use Rattle.ep_host.specs.Node.{Node};
ghost use Rattle.ep_host.specs.Turned.{IsTurned, WereLet};

use crate::account::look_at_all;
use crate::gate::Gate;
use crate::gate_unpassed::GateUnpassed;
use crate::ring_node::RingNode;
use crate::sections::Section;
use std::marker::Sync;
use std::thread;
use std::thread::Threads;

/// The turns of each node, in a thread of its own.
fn run_each<R: Threads + Sync, G: Gate>(rt: &R, nodes: &mut [RingNode], gate: &G, turns: u32)
    ensures runs { Each Runs nodes.old nodes.new }
    ensures turns { Each (IsTurned turns) nodes.old nodes.new }
    ensures gate { WereLet (G.lets gate.now) nodes.new }
{
    let count = nodes.len();
    if count == 0 {
        return;
    }
    thread::for_each_mut(
        rt,
        nodes,
        count,
        &|number, node| { node.run(number, gate, turns) },
    );
}

/// The turns of each node, and then a look at both ends of every ring.
fn turn_each<R: Threads + Sync, G: Gate>(rt: &R, nodes: &mut [RingNode], gate: &G, turns: u32)
    requires host { (f : ℕ) × IsHost f nodes.old }
    ensures runs { Each Runs nodes.old nodes.new }
    ensures turns { Each (IsTurned turns) nodes.old nodes.new }
    ensures gate { WereLet (G.lets gate.now) nodes.new }
    ensures begins { AllBegin nodes.new }
    ensures from { AllFrom nodes.new }
{
    run_each(rt, nodes, gate, turns);
    look_at_all(nodes);
}

/// The place of the first node that hasn't ended.
fn first_unended(nodes: &[RingNode]) -> Option<usize>
    ensures some { IfSome result (IsFirstUnended nodes.now) }
    ensures none { IfNone result (All (λ (n : Node). n.ended ≡ true) nodes.now) }
{
    nodes.iter().position(|node| !node.ended)
}

/// Gives each node of a host so many turns at most, in a thread of its own, or on this one where none can be started, until its agenda is empty and the
/// gate lets it end. All nodes come back, in order. At an `Err` the node that is named is the least that hadn't ended.
pub fn section<R: Threads + Sync, G: Gate>(
    rt: &R,
    mut nodes: Vec<RingNode>,
    gate: &G,
    turns: u32,
) -> Section
    requires host { (f : ℕ) × IsHost f nodes.items }
    ensures nodes { Each Follows nodes.items result.nodes.items }
    ensures turns { Each (IsTurned turns) nodes.items result.nodes.items }
    ensures begins { AllBegin result.nodes.items }
    ensures from { AllFrom result.nodes.items }
    ensures host { (f : ℕ) → IsHost f nodes.items → IsHost f result.nodes.items }
    ensures unpassed { IfErr result.result (λ e. (e.node < length nodes.items) × (e.turns ≡ turns)) }
    ensures first { IfErr result.result (λ e. IsFirstLeft result.nodes.items e.node) }
    ensures ended { OnOk result.result (All HasEnded result.nodes.items) }
    ensures passed { OnOk result.result ((i : ℕ) → i < length nodes.items → G.lets gate.now i) }
{
    turn_each(rt, nodes.as_mut_slice(), gate, turns);
    let result = match first_unended(nodes.as_slice()) {
        Some(node) => Err(GateUnpassed { node, turns }),
        None => Ok(()),
    };
    Section { nodes, result }
}
