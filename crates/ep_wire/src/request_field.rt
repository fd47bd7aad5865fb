//! The fields of requests.

/// A field of a request.
#[derive(Clone, Copy, Debug, PartialEq, Eq)]
pub enum RequestField {
    /// The request's kind.
    Kind,
    /// The client that proposes.
    Client,
    /// The number of the client's request.
    ClientRequest,
    /// The greatest stamp that the client knows of.
    Seen,
    /// The command's operation.
    Op,
    /// The length of the command's key, in version 2.
    KeyLength,
    /// The length of the command's value, or of a swap's second key, in version 2.
    ValueLength,
    /// A key: of a request that is a key alone, or of a command of version 2.
    Key,
    /// A command's value, or a swap's second key, in version 2.
    Value,
    /// An instance's replica.
    Replica,
    /// An instance's number.
    Number,
    /// Bytes behind the last field.
    Rest,
    /// The length of the command's first key, in version 3.
    FirstLength,
    /// The length of its second key.
    SecondLength,
    /// The length of its body.
    BodyLength,
    /// Its first key.
    FirstKey,
    /// Its second key.
    SecondKey,
    /// Its body.
    Body,
    /// How many entries were reported before.
    After,
    /// How many open instances are asked for at most.
    Most,
    /// The replica that a proposal spares.
    Spared,
    /// How many instances the looks for a read found.
    Count,
    /// These instances.
    Found,
}
