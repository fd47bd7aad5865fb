//! Kinds of scripts.

ghost use Rattle.std.specs.Prelude.{◌≡◌, ℕ, List, Option, Some, None, IfOk, MatchBool};
ghost use Rattle.ep_script.specs.Heads as heads;
ghost use Rattle.ep_script.specs.Parts.{words_of};

use crate::head::Head;
use std::alloc::{AllocError, Global};

/// A script of one kind, as far as its lines have been read.
pub(crate) trait ScriptKind: Drop {
    /// The script without lines that has this head.
    ghost begins: { heads.Head → Self };

    /// The script after a line of this number and these words, behind its head; none where it is refused.
    ghost takes: { ℕ → Self → List (List ℕ) → Option Self };

    /// The script without lines.
    fn begin(alloc: Global, head: Head) -> Self
        ensures { result ≡ begins head };

    /// Takes a line. False where it is refused; what the script is then is left open, as at an `Err`.
    fn take(&mut self, alloc: Global, number: u32, words: &[u8]) -> Result<bool, AllocError>
        ensures { IfOk result (λ b. MatchBool b (takes number self.old (words_of words.now) ≡ Some self.new) (takes number self.old (words_of words.now) ≡ None)) };
}
