//! Commands, their parts borrowed.

/// The keys of a command for a machine outside, and whether it only reads.
#[derive(Clone, Copy)]
pub struct Touching<'a> {
    /// The first key.
    pub first: &'a [u8],
    /// The second key, if there is one.
    pub second: Option<&'a [u8]>,
    /// Whether the keys are only read.
    pub reads: bool,
}

/// What a command says, its parts borrowed.
#[derive(Clone, Copy)]
pub enum CommandView<'a> {
    /// Changes nothing, and has no reply.
    Noop,
    /// Asks for the key's value.
    Get(&'a [u8]),
    /// Sets the key's value.
    Put(&'a [u8], &'a [u8]),
    /// Removes the key.
    Del(&'a [u8]),
    /// Exchanges what two keys have.
    Swap(&'a [u8], &'a [u8]),
    /// Gives the key the last value if it has the second; either may be absent.
    Cas(&'a [u8], Option<&'a [u8]>, Option<&'a [u8]>),
    /// Closes the map. The value means what its proposer likes.
    Seal(&'a [u8]),
    /// A command of a machine outside: what it touches, and its body.
    Opaque(Touching<'a>, &'a [u8]),
    /// A command over many keys: its body. `Command::items` gives its items.
    Tx(&'a [u8]),
}
