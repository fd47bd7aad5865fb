//! The words of the command line.

use crate::words_fault::WordsFault;
use std::io::ErrorKind;
use std::rt::Env;

/// The words of the command line, of which the first is the program's own name.
pub fn words<R: Env + AllocGlobal>(rt: &R) -> Result<Vec<String>, WordsFault> {
    match std::env::args(rt) {
        Ok(words) => Ok(words.collect(rt.alloc())?),
        Err(error) if error.kind() == ErrorKind::OutOfMemory => Err(WordsFault::Memory),
        Err(_) => Err(WordsFault::Words(String::from_str(
            rt.alloc(),
            "error: a word is not text in UTF-8\n\nFor more information, try '--help'.\n",
        )?)),
    }
}
