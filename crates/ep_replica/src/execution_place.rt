//! Where something was executed.

/// An execution in a journal: the entry that did it, and its place among those of the entry, both counted from 0.
#[derive(Clone, Copy, Debug, PartialEq, Eq)]
pub(crate) struct ExecutionPlace {
    pub entry: usize,
    pub place: usize,
}
