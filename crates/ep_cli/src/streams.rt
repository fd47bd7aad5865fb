//! The standard streams.

/// The streams of a program: where it reads, where it prints, and where it reports its faults.
#[derive(Drop)]
pub struct Streams<S, W, F> {
    /// Standard input.
    pub reader: S,
    /// Standard output.
    pub writer: W,
    /// The fault output, standard error.
    pub fault_writer: F,
}
