//! How the nodes of a host are made.

ghost use Rattle.std.specs.Prelude.{◌≡◌, ◌≤◌, [], All, OnOk};
ghost use Rattle.ep_base.specs.Versions.{version_number};
ghost use Rattle.ep_host.specs.Host.{IsHost, IsFresh, StartsAs};
ghost use Rattle.ep_host.specs.Joins.{Joins, CanJoin};

use crate::held_frames::HeldFrames;
use crate::host_fault::HostFault;
use crate::link::Link;
use crate::ring_node::RingNode;
use crate::task::Task;
use crate::weather::Weather;
use ep_base::{Size, Version};
use ep_journal::Beginning;
use ep_replica::Replica;
use rtrb::RingBuffer;
use std::alloc::{AllocError, Global};

/// Makes the two rings between two nodes.
fn join_nodes(
    alloc: Global,
    a: &mut RingNode,
    b: &mut RingNode,
    capacity: usize,
) -> Result<(), AllocError>
    requires { CanJoin a.old b.old }
    ensures { OnOk result (Joins capacity a.old b.old a.new b.new) }
{
    let (a_to_b, b_from_a) = RingBuffer::new(alloc, capacity)?;
    let (b_to_a, a_from_b) = RingBuffer::new(alloc, capacity)?;
    let (a_me, b_me) = (a.me(), b.me());
    a.add_link(Link {
        peer: b_me,
        to: a_to_b,
        from: a_from_b,
        count: 0,
        held: HeldFrames::new(alloc),
    })?;
    b.add_link(Link {
        peer: a_me,
        to: b_to_a,
        from: b_from_a,
        count: 0,
        held: HeldFrames::new(alloc),
    })?;
    Ok(())
}

/// Adds the nodes of a cluster, of which there is none yet, each joined to those before it.
fn add_nodes(
    nodes: &mut Vec<RingNode>,
    cluster: Size,
    capacity: usize,
    beginning: &Beginning,
) -> Result<(), AllocError>
    requires none { nodes.old.items ≡ [] }
    requires known { 2 ≤ version_number beginning.now.version }
    ensures host { OnOk result (IsHost cluster nodes.new.items) }
    ensures fresh { OnOk result (All (IsFresh capacity) nodes.new.items) }
    ensures start { OnOk result (All (StartsAs beginning.now.version beginning.now.opening) nodes.new.items) }
{
    let alloc = *nodes.allocator();
    for number in 0..cluster.count() {
        let replica = Replica::member(alloc, cluster, number, beginning)?;
        let mut node = RingNode::new(alloc, replica);
        for place in 0..nodes.len() {
            match join_nodes(alloc, &mut nodes[place], &mut node, capacity) {
                Ok(()) => {}
                Err(fault) => {
                    drop(node);
                    return Err(fault);
                }
            }
        }
        nodes.push(node)?;
    }
    Ok(())
}

/// Nodes, each with its replica, that hand frames to one another through rings: one for each ordered pair.
pub struct RingHost;

impl RingHost {
    ghost use Rattle.std.specs.Prelude.{◌≤◌, ◌<◌, ◌≡◌, ℕ, length, IfOk, IfErr, OnOk, OnErr, All};
    ghost use Rattle.ep_base.specs.Versions.{version_number};
    ghost use Rattle.ep_base.specs.declared.version_kind.VersionKind.TheVariants.{V2};
    ghost use Rattle.ep_journal.specs.Openings.{no_opening};
    ghost use Rattle.ep_host.specs.Host.{IsHost, IsFresh, StartsAs};
    ghost use Rattle.ep_host.specs.Pointwise.{Each};
    ghost use Rattle.ep_host.specs.Setting.{SetsWeatherAt, IsUnsetAt, IsReleased};
    ghost use Rattle.ep_host.specs.Turns.{AssignsAt};

    /// The nodes of a cluster of this size, of version 2, before any event and without tasks. Each ring has room for so many frames.
    pub fn new(alloc: Global, cluster: Size, capacity: usize) -> Result<Vec<RingNode>, AllocError>
        requires { (1 ≤ capacity) × (capacity ≤ 4096) }
        ensures host { IfOk result (λ nodes. IsHost cluster nodes.items) }
        ensures fresh { IfOk result (λ nodes. All (IsFresh capacity) nodes.items) }
        ensures start { IfOk result (λ nodes. All (StartsAs V2 no_opening) nodes.items) }
    {
        RingHost::opened(
            alloc,
            cluster,
            capacity,
            &Beginning::new(alloc, Version::V2),
        )
    }

    /// The nodes of a cluster of this size, all of which begin so, in version 2 or 3, before any event and without tasks. Each
    /// ring has room for so many frames.
    pub fn opened(
        alloc: Global,
        cluster: Size,
        capacity: usize,
        beginning: &Beginning,
    ) -> Result<Vec<RingNode>, AllocError>
        requires capacity { (1 ≤ capacity) × (capacity ≤ 4096) }
        requires known { 2 ≤ version_number beginning.now.version }
        ensures host { IfOk result (λ nodes. IsHost cluster nodes.items) }
        ensures fresh { IfOk result (λ nodes. All (IsFresh capacity) nodes.items) }
        ensures start { IfOk result (λ nodes. All (StartsAs beginning.now.version beginning.now.opening) nodes.items) }
    {
        let mut nodes = Vec::new(alloc);
        match add_nodes(&mut nodes, cluster, capacity, beginning) {
            Ok(()) => Ok(nodes),
            Err(fault) => {
                drop(nodes);
                Err(fault)
            }
        }
    }

    /// Assigns a task to one of the nodes of a host, which stays one. When out of memory, the node is as it was.
    pub fn assign(nodes: &mut [RingNode], node: usize, task: Task) -> Result<(), AllocError>
        requires { node < length nodes.old }
        ensures ok { OnOk result (AssignsAt node task nodes.old nodes.new) }
        ensures err { OnErr result (nodes.new ≡ nodes.old) }
        ensures host { (f : ℕ) → IsHost f nodes.old → IsHost f nodes.new }
    {
        nodes[node].assign(task)
    }

    /// Sets the weather of one of the nodes of a host, which stays one, as `RingNode::set_weather` does.
    pub fn set_weather_at(
        nodes: &mut [RingNode],
        node: usize,
        weather: &[Weather],
    ) -> Result<(), HostFault>
        requires { node < length nodes.old }
        ensures ok { OnOk result (SetsWeatherAt node weather.now nodes.old nodes.new) }
        ensures refused { IfErr result (IsUnsetAt node weather.now nodes.old) }
        ensures err { OnErr result (nodes.new ≡ nodes.old) }
        ensures host { (f : ℕ) → IsHost f nodes.old → IsHost f nodes.new }
    {
        nodes[node].set_weather(weather)
    }

    /// Drops the nodes. Whoever does it by this call needs no proof of how their parts are dropped.
    pub fn discard(nodes: Vec<RingNode>) {
        drop(nodes);
    }

    /// Puts the held frames of each node of a host, which stays one, into their rings, as `RingNode::release` does.
    pub fn release(nodes: &mut [RingNode])
        ensures released { Each IsReleased nodes.old nodes.new }
        ensures host { (f : ℕ) → IsHost f nodes.old → IsHost f nodes.new }
    {
        for place in 0..nodes.len() {
            nodes[place].release();
        }
    }
}
