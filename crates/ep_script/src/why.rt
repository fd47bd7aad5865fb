//! What is wrong with a line.

/// What is wrong with a line of a script, or with a word of it.
#[derive(Clone, Copy, Debug, PartialEq, Eq)]
pub enum Why {
    /// No word by itself.
    Nothing,
    /// The script is over, and has no line `replicas N`.
    Over,
    /// A script has at most 100,000 lines.
    Lines,
    /// A line has at most 8,192 bytes.
    Bytes,
    /// No word stands there.
    Lacks,
    /// A word more than the line has stands there.
    More,
    /// The word is none of those that may stand there.
    Unlike,
    /// The line stands elsewhere.
    Misplaced,
    /// Version 3 has it, and the script is of version 2.
    Late,
    /// Scripts for the other subcommand have such lines.
    Other,
    /// It is no number.
    NoNumber,
    /// It has more digits than such a number.
    Long,
    /// The number is out of its range.
    OutOfRange,
    /// It is no instance.
    NoInstance,
    /// It spells so many bytes, which are too many or too few.
    Length(u64),
    /// It has a byte that has to be escaped, at this place, from 0.
    Byte(usize),
    /// It has a `%` at this place, from 0, that begins no escape.
    Escape(usize),
    /// It is what a word before it is, from which it has to differ.
    Same,
    /// The line with this number has the clocks' stamp.
    SecondStamp(u32),
    /// The line with this number has the key.
    SecondKey(u32),
    /// The line with this number is for the same frame.
    SecondFrame(u32),
    /// An item says such a thing of the key already, by the word at this place.
    SecondItem(u32),
    /// A command over many keys asks for the values of 16 of them at most.
    Reported,
    /// Such a command names 1,024 keys at most.
    Keys,
}
