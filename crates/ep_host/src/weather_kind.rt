//! What the weather does to a frame.

/// What the weather does to a frame.
#[derive(Clone, Copy, Debug, PartialEq, Eq)]
pub enum WeatherKind {
    /// It is not put.
    Drop,
    /// It is kept, and put once the host releases it.
    Hold,
    /// It is put twice.
    Repeat,
}
