//! What lets the nodes of a section end.

ghost use Rattle.std.specs.Prelude.{ℕ, IsTrue};

use std::marker::Sync;

/// What lets the nodes of a section end.
pub trait Gate: Sync {
    /// What a yes to the node of this number says. A gate of which nothing is to be known says `λ _ _. ⊤`.
    ghost lets: { Self → ℕ → Type 0 };

    /// Asked by a node after each of its turns: whether it may end, once its agenda is empty.
    fn told(&self, node: usize, agenda_empty: bool) -> bool
        ensures { IsTrue result → lets self.now node };
}
