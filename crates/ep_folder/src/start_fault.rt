//! Why a replica isn't started.

/// Why a replica isn't started on its folder.
#[derive(Clone, Copy, Debug, PartialEq, Eq)]
pub enum StartFault {
    /// No generation has an opening here.
    Empty,
    /// A new replica was asked for, and this generation is here.
    There(u32),
    /// The replica has begun the log of this generation, whose opening is gone: it must act in none up to it.
    Left(u32),
    /// The opening is of a generation before this one, which is here.
    Older(u32),
    /// This generation has another opening here.
    Other(u32),
    /// Of this generation neither an opening nor a reference is here that can be read, and a later one rests on it.
    Broken(u32),
}
