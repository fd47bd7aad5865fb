//! What a generation opens with, as its log names it.

ghost use Rattle.std.specs.Prelude.{◌≡◌, IfOk};
ghost use Rattle.ep_opening.specs.Bytes.{file_digest};
ghost use Rattle.ep_server.specs.Replays.{origin_from, HasOpened};

use ep_log::Origin;
use ep_opening::{OpeningFile, SpelledFile};
use std::alloc::{AllocError, Global};

/// What a generation opens with, and the digest by which its log names it: that of its file, or that of the reference that stood for it.
#[derive(Drop)]
pub struct NamedFile {
    pub file: OpeningFile,
    pub digest: [u8; 32],
}

impl NamedFile {
    /// A file that its log names by its own digest.
    pub(crate) fn of(file: SpelledFile) -> NamedFile
        ensures file { result.file ≡ file }
        ensures digest { result.digest ≡ file_digest file }
        ensures opened { HasOpened result }
    {
        let digest = file.digest();
        NamedFile {
            file: file.into_file(),
            digest,
        }
    }

    /// What the replica begins with whose generation opens so.
    pub(crate) fn into_origin(self, alloc: Global) -> Result<Origin, AllocError>
        ensures { IfOk result (λ o. o ≡ origin_from self) }
    {
        let NamedFile { file, digest } = self;
        let generation = file.generation();
        Origin::of(alloc, generation, file.into_opening(), digest)
    }
}
