//! The limits of a run.

ghost use Rattle.std.specs.Prelude.{◌≤◌};

/// The limits of a run.
#[derive(Debug, Drop)]
pub struct Limits {
    /// How many frames an inbox holds, 1 to 4,096.
    pub capacity: usize,
    /// How often a thread pumps a replica in a section, and in how many rounds all are settled, at most: 1 to 10,000,000.
    pub turns: u32,
    ghost capacity_in_range: { (1 ≤ capacity) × (capacity ≤ 4096) },
    ghost turns_in_range: { (1 ≤ turns) × (turns ≤ 10000000) },
}
