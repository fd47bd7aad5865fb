//! The turns of a node in a section.

use crate::gate::Gate;
use crate::ring_node::RingNode;

impl RingNode {
    ghost use Rattle.std.specs.Prelude.{◌≡◌, true};
    ghost use Rattle.ep_host.specs.Follows.{Runs};
    ghost use Rattle.ep_host.specs.Turned.{IsTurned};

    /// Turns until the agenda is empty and the gate lets the node end, or the turns are used up.
    pub(crate) fn run<G: Gate>(&mut self, number: usize, gate: &G, turns: u32)
        ensures runs { Runs self.old self.new }
        ensures turns { IsTurned turns self.old self.new }
        ensures gate { self.new.ended ≡ true → G.lets gate.now number }
    {
        for _ in 0..turns {
            self.turn();
            let agenda_empty = self.agenda.is_empty();
            if gate.told(number, agenda_empty) && agenda_empty {
                self.ended = true;
                return;
            }
        }
        self.ended = false;
    }
}
