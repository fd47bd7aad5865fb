//! A bundle made of logs and receipts.

/// Where the whole records of a log, or the whole receipts of a file, end.
#[derive(Debug, Drop, PartialEq, Eq)]
pub struct End {
    /// How many bytes they have, with a log's header.
    pub whole: usize,
    /// Whether bytes of a cut record, or receipt, stand behind them.
    pub is_torn: bool,
}

/// A bundle made of logs and receipts.
#[derive(Drop)]
pub struct Assembled {
    /// The bytes of the bundle.
    pub bundle: Vec<u8>,
    /// The end of each log, in the order in which they were handed in.
    pub ends: Vec<End>,
    /// The end of each file of receipts, in the same order.
    pub receipt_ends: Vec<End>,
}
