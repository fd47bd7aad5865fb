//! An opening file with its bytes.

ghost use Rattle.std.specs.Prelude.{◌≡◌, IfOk, IfErr};
ghost use Rattle.ep_opening.specs.Bytes.{file_digest, opening_bytes};
ghost use Rattle.ep_opening.specs.Reading.{IsRefused};

use crate::digest::digest_in;
use crate::opening_fault::OpeningFault;
use crate::opening_file::OpeningFile;
use crate::reading::read_opening;
use crate::writing::write_opening;
use std::alloc::{AllocError, Global};
use std::marker::Model;

/// An opening file with its bytes. The digest in them was computed once, as they were read or written: who has this reads and hashes them no more.
#[derive(Drop)]
pub struct SpelledFile {
    file: OpeningFile,
    bytes: Vec<u8>,
}

impl Model for SpelledFile {
    ghost use Rattle.std.specs.Prelude.{◌≡◌};
    ghost use Rattle.ep_opening.specs.Bytes.{opening_bytes};
    ghost use Rattle.ep_opening.specs.Files as files;
    ghost use Rattle.ep_opening.specs.Files.{file_code};

    ghost Value = { files.File };

    ghost coded = { file_code };

    ghost view = { λ s. s.file };

    ghost invariant = { λ s. s.bytes.items ≡ opening_bytes s.file };
}

impl SpelledFile {
    /// Reads the file that these bytes are, as `read_opening` does.
    pub fn read(alloc: Global, bytes: Vec<u8>) -> Result<SpelledFile, OpeningFault>
        ensures ok { IfOk result (λ f. bytes.items ≡ opening_bytes f) }
        ensures err { IfErr result (λ fault. IsRefused fault bytes.items) }
    {
        let file = read_opening(alloc, &bytes)?;
        Ok(SpelledFile { file, bytes })
    }

    /// Writes the file.
    pub fn write(alloc: Global, file: OpeningFile) -> Result<SpelledFile, AllocError>
        ensures { IfOk result (λ f. f ≡ file) }
    {
        match write_opening(alloc, &file) {
            Ok(bytes) => Ok(SpelledFile { file, bytes }),
            Err(fault) => {
                drop(file);
                Err(fault)
            }
        }
    }

    /// The file.
    pub fn file(&self) -> &OpeningFile
        ensures { result.now ≡ self.now }
    {
        &self.file
    }

    /// Its bytes.
    pub fn bytes(&self) -> &[u8]
        ensures { result.now ≡ opening_bytes self.now }
    {
        self.bytes.as_slice()
    }

    /// The digest that they end with, which the log of its generation names.
    pub fn digest(&self) -> [u8; 32]
        ensures { result ≡ file_digest self.now }
    {
        digest_in(&self.bytes).unwrap()
    }

    /// The file, and no longer its bytes.
    pub fn into_file(self) -> OpeningFile
        ensures { result ≡ self }
    {
        let SpelledFile { file, bytes: _ } = self;
        file
    }
}
