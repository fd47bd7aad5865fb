//! In what an opening file differs.

use std::fmt;

/// In what an opening file differs from what it should be: the first of these.
#[derive(Clone, Copy, Debug, PartialEq, Eq)]
pub enum Differing {
    /// It is of another generation than was asked for.
    Generation,
    /// It is of a cluster of another size than the first one.
    Size,
    /// It has another map than the first one.
    Map,
}

impl fmt::Display for Differing {
    fn fmt<W: fmt::Write>(&self, f: &mut fmt::Formatter<W>) -> fmt::Result {
        match self {
            Differing::Generation => f.write_str("generation"),
            Differing::Size => f.write_str("size"),
            Differing::Map => f.write_str("map"),
        }
    }
}
