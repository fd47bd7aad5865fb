//! How long the parts of a command are.

use ep_base::Op;

/// The op of a command, and how many bytes its keys and its body have.
#[derive(Clone, Copy)]
pub(crate) struct Lengths {
    pub op: Op,
    pub first: u8,
    pub second: u8,
    pub body: u32,
}
