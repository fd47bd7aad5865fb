//! A log, and what its generation opened with.

ghost use Rattle.std.specs.Prelude.{◌≡◌};
ghost use Rattle.ep_assemble.specs.Generations.{NamesItsFile};

use ep_opening::digest_in;

/// What a folder has of a generation.
#[derive(Drop)]
pub struct OpenedLog {
    /// The bytes of the file that the generation opened with.
    pub opening: Vec<u8>,
    /// The digest by which the log names it: that of the file, or that of a reference that stood for it.
    pub digest: [u8; 32],
    /// The bytes of its log.
    pub log: Vec<u8>,
}

impl OpenedLog {
    /// Both, of which the log names the digest that the opening file ends with. (What is shorter than a digest is no opening file.)
    pub fn of(opening: Vec<u8>, log: Vec<u8>) -> OpenedLog
        ensures opening { result.opening ≡ opening }
        ensures log { result.log ≡ log }
        ensures named { NamesItsFile result }
    {
        let digest = digest_in(&opening).unwrap_or([0; 32]);
        OpenedLog {
            opening,
            digest,
            log,
        }
    }
}
