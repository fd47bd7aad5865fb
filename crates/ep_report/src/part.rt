//! Parts of lines.

use ep_base::{Answer, Command, Deps, InstanceId, Reply};

/// A part of a line.
#[derive(Drop)]
pub enum Part<'a> {
    /// These bytes.
    Text(&'a [u8]),
    /// A number in decimal digits.
    Number(u64),
    /// Bytes as a word.
    Word(&'a [u8]),
    /// An instance.
    Instance(InstanceId),
    /// A set of instances.
    Deps(&'a Deps),
    /// A command.
    Command(&'a Command),
    /// A reply.
    Reply(&'a Reply),
    /// An answer.
    Answer(&'a Answer),
}
