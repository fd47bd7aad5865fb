//! What a port knows.

use std::collections::LinkedList;

/// What a port has put into its inbox, and what it has taken from it, in order. No value of it is made: it stands in proofs
/// alone.
pub struct Hand<T> {
    pub put: LinkedList<T>,
    pub taken: LinkedList<T>,
}
