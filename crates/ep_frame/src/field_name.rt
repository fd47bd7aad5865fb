//! The names of a frame's fields.

/// A field of a frame, in the order of docs/FORMATS.md, section 1: of the header, and then of what stands behind it.
#[derive(Clone, Copy, Debug, PartialEq, Eq)]
pub enum FieldName {
    /// The bytes `EP`.
    Magic,
    /// The version.
    Version,
    /// The kind of message.
    Kind,
    /// The replica that sends the frame.
    Sender,
    /// The replica that it is for.
    Receiver,
    /// The place among the frames that the entry sends.
    OutNumber,
    /// The entry's place in the sender's journal.
    EntryNumber,
    /// The entry's stamp.
    Stamp,
    /// The replica that leads the instance.
    InstanceReplica,
    /// The instance's number.
    InstanceNumber,
    /// The counter of the ballot that is led, answered or refused.
    BallotCounter,
    /// The replica that leads this ballot.
    BallotReplica,
    /// How far the vote goes.
    Status,
    /// The counter of the ballot that was voted at, or promised.
    OtherCounter,
    /// The replica that leads this other ballot.
    OtherReplica,
    /// The sequence number.
    Seq,
    /// The command's op.
    Op,
    /// How many bytes the key has, of two the first one.
    KeyLength,
    /// In versions 1 and 2: how many bytes a put's body has, or else the second key.
    TextLength,
    /// In version 3: how many bytes the second key has.
    SecondKeyLength,
    /// How many dependencies there are.
    DependencyCount,
    /// In version 3: the generation.
    Generation,
    /// In version 3: how many bytes the body has.
    BodyLength,
    /// The key, of two the first one.
    Key,
    /// In versions 1 and 2: a put's body, or else the second key.
    Text,
    /// In version 3: the second key.
    SecondKey,
    /// In version 3: the body.
    Body,
    /// A dependency: the replica that leads an instance, and its number.
    Dependency,
}
