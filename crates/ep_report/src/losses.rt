//! What a run in threads didn't do.

use ep_journal::Refusal;

/// What a run in threads didn't do.
#[derive(Clone, Copy, Debug)]
pub struct Losses<'a> {
    /// The lines of agendas that were refused, each with its cause, by rising line.
    pub refused: &'a [(u32, Refusal)],
    /// How many frames were lost to full queues or when out of memory.
    pub lost: u64,
}
