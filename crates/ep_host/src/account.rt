//! What both ends of the rings say together: what was taken was sent.

ghost use Rattle.std.specs.Prelude.{◌≡◌, ℕ, ◌<◌, List, length, slice_index_or, All};
ghost use mathlib.Core.List.{IsPrefix};
ghost use Rattle.rtrb.specs.Ring.{sent, received, IsPair};
ghost use Rattle.ep_host.specs.Pointwise.{Each};
ghost use Rattle.ep_host.specs.Host.{Quiet, Looked, Paired, Begins, HasLink, PairedBoth, BeginsBoth, IsHost, AllBegin, AllSent, AllFrom, Knows};
ghost use Rattle.ep_host.specs.Node.{Node};
ghost use Rattle.ep_host.specs.RingFinishing.{replicas_in, their_journals, their_receipts};
ghost use Rattle.ep_rules.specs.Audits.{IsAccepted};
ghost use Rattle.ep_rules.specs.Verdicts.{AreOwn};
ghost use Rattle.ep_rules.specs.declared.receipt.Receipt.{Receipt};
ghost use Rattle.ep_journal.specs.Entries.{first_opening};
ghost use Rattle.ep_journal.specs.Openings.{opens};

use crate::link::Link;
use crate::putting::place;
use crate::ring_node::RingNode;

/// Looks at the two ends of a ring at once: what was taken is a beginning of what was put.
fn look(from: &mut Link, to: &mut Link)
    requires { IsPair from.old.to to.old.from }
    ensures from { Quiet from.old from.new }
    ensures to { Quiet to.old to.new }
    ensures begins { IsPrefix (received to.old.from) (sent from.old.to) }
{
    to.from.slots_beside(&mut from.to);
}

/// Looks at the two ends of the ring from one node to another.
fn beside(from: &mut RingNode, to: &mut RingNode)
    requires paired { Paired from.old to.old }
    requires links { HasLink from.old to.old.replica.me × HasLink to.old from.old.replica.me }
    ensures from { Looked from.old from.new }
    ensures to { Looked to.old to.new }
    ensures begins { Begins from.old to.old }
{
    let there = place(from.me(), to.me());
    let here = place(to.me(), from.me());
    look(&mut from.links[there], &mut to.links[here]);
}

/// Looks at the ends of the rings between two nodes.
fn both(a: &mut RingNode, b: &mut RingNode)
    requires { PairedBoth a.old b.old }
    ensures a { Looked a.old a.new }
    ensures b { Looked b.old b.new }
    ensures begins { BeginsBoth a.old b.old }
{
    beside(a, b);
    beside(b, a);
}

fn pair_at(nodes: &mut [RingNode], low: usize, high: usize)
    requires places { (low < high) × (high < length nodes.old) }
    requires paired { (d : Node) → PairedBoth (slice_index_or nodes.old low d) (slice_index_or nodes.old high d) }
    ensures looked { Each Looked nodes.old nodes.new }
    ensures begins { (d : Node) → BeginsBoth (slice_index_or nodes.old low d) (slice_index_or nodes.old high d) }
{
    let (front, back) = nodes.split_at_mut(high);
    both(&mut front[low], &mut back[0]);
}

/// Looks at both ends of every ring: of each two nodes, what the one has taken is a beginning of what the other has put for it.
fn account(nodes: &mut [RingNode])
    requires { (f : ℕ) × IsHost f nodes.old }
    ensures looked { Each Looked nodes.old nodes.new }
    ensures begins { AllBegin nodes.old }
{
    for high in 0..nodes.len() {
        for low in 0..high {
            pair_at(nodes, low, high);
        }
    }
}

/// What the node knows by itself: a law, which costs nothing.
fn know(node: &RingNode)
    ensures { Knows node.now }
{
    let journal = node.replica.journal();
    let _run = journal.entries();
    let _opening = journal.opening();
    let _faults = node.replica.size().faults();
}

/// What each node knows by itself.
fn know_all(nodes: &[RingNode])
    ensures { All Knows nodes.now }
{
    for node in nodes {
        know(node);
    }
}

/// Each frame that a node has handled was taken from the ring of the node that it is from, and is a frame out of that node's journal; of each ring, what
/// was taken is a beginning of what was put.
pub fn taken_was_sent(nodes: &mut [RingNode])
    requires { (f : ℕ) × IsHost f nodes.old }
    ensures looked { Each Looked nodes.old nodes.new }
    ensures knows { All Knows nodes.old }
    ensures sent { AllSent nodes.old }
    ensures begins { AllBegin nodes.old }
    ensures from { AllFrom nodes.old }
{
    know_all(nodes);
    account(nodes);
}

/// Each node looks at both ends of its rings: frames taken were sent, of the nodes as they are then.
pub(crate) fn look_at_all(nodes: &mut [RingNode])
    requires { (f : ℕ) × IsHost f nodes.old }
    ensures looked { Each Looked nodes.old nodes.new }
    ensures begins { AllBegin nodes.new }
    ensures from { AllFrom nodes.new }
{
    taken_was_sent(nodes);
}

/// The journals of the nodes of one host are accepted by the audit, with any receipts of which each is some node's own, as all that the nodes give
/// are: a law, for which both ends of every ring are looked at.
pub fn are_accepted(nodes: &mut [RingNode])
    requires { (f : ℕ) × IsHost f nodes.old }
    ensures accepted { (f : ℕ) (receipts : List Receipt) → IsHost f nodes.old → AreOwn (opens (first_opening (replicas_in nodes.old))) f (their_journals (replicas_in nodes.old)) receipts → IsAccepted (opens (first_opening (replicas_in nodes.old))) f (their_journals (replicas_in nodes.old)) receipts }
    ensures own { (f : ℕ) → IsHost f nodes.old → AreOwn (opens (first_opening (replicas_in nodes.old))) f (their_journals (replicas_in nodes.old)) (their_receipts (replicas_in nodes.old)) }
    ensures host { (f : ℕ) → IsHost f nodes.old → IsHost f nodes.new }
    ensures replicas { replicas_in nodes.new ≡ replicas_in nodes.old }
{
    taken_was_sent(nodes);
}
