//! The fields of bundles.

/// A field of a bundle, in the order of docs/FORMATS.md, section 2.
#[derive(Clone, Copy, Debug, PartialEq, Eq)]
pub enum BundleField {
    /// `EPJB`.
    Magic,
    /// The version.
    Version,
    /// The number of replicas.
    Replicas,
    /// The generation.
    Generation,
    /// The stamp that the clocks go on from.
    BaseStamp,
    /// The number of receipts.
    Receipts,
    /// The number of keys of the opening.
    Keys,
    /// How many bytes a key of the opening has.
    PairKeyLength,
    /// How many bytes its value has.
    PairValueLength,
    /// The key.
    PairKey,
    /// The value.
    PairValue,
    /// The replica that a journal is of.
    Journal,
    /// The number of its entries.
    Entries,
    /// An event's kind.
    Kind,
    /// An entry's stamp.
    Stamp,
    /// A client.
    Client,
    /// A request.
    Request,
    /// The stamp that a client has seen.
    Seen,
    /// The replica that a proposal spares.
    Spared,
    /// A command's op.
    Op,
    /// How many bytes its key has.
    KeyLength,
    /// How many bytes its second key has.
    SecondLength,
    /// How many bytes its body has.
    BodyLength,
    /// In versions 1 and 2: how many bytes its second key or its body has.
    TextLength,
    /// The key.
    Key,
    /// The second key.
    SecondKey,
    /// The body.
    Body,
    /// How many bytes a frame has.
    FrameLength,
    /// A frame.
    Frame,
    /// The replica that leads an instance.
    Leader,
    /// An instance's number.
    Number,
    /// The number of frames that an entry sends.
    Frames,
    /// The number of its executions.
    Executions,
    /// The code of an answer.
    AnswerCode,
    /// How many bytes its value has.
    AnswerLength,
    /// The value.
    AnswerValue,
    /// The number of keys whose values an answer has.
    ReportedKeys,
    /// Whether such a key had a value.
    ReportedMark,
    /// The replica that executed what a receipt is for.
    Executor,
    /// The number of the entry that executed it.
    ExecutorEntry,
    /// The stamp of that entry.
    ExecutorStamp,
    /// Bytes behind the end.
    Rest,
    /// A field of another format, which is read by the same functions.
    Other,
}
