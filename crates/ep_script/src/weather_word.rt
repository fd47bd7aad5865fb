//! What becomes of a frame.

/// What becomes of a frame.
#[derive(Clone, Copy, Debug, PartialEq, Eq)]
pub enum WeatherWord {
    /// It isn't put.
    Drop,
    /// It is kept until the threads of its section have ended.
    Hold,
    /// It is put twice.
    Repeat,
}
