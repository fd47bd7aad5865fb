//! Readers and writers as sources and sinks.

ghost use Rattle.std.specs.Prelude.{◌≡◌, false};

use crate::read_failed::ReadFailed;
use crate::sink::Sink;
use crate::source::Source;
use crate::write_failed::WriteFailed;
use std::io::{Read, Write};
use std::marker::Model;

/// A reader or a writer, and whether it has failed. Its bytes are those of the reader or writer.
#[derive(Drop)]
pub struct Noted<T> {
    inner: T,
    failed: bool,
}

impl<T> Model for Noted<T> {
    ghost use Rattle.ep_base.specs.Devices.{Watched};

    ghost Value = { Watched T };

    ghost view = { λ s. record { inner = s.inner; failed = s.failed } };
}

impl<T> Noted<T> {
    /// The reader or writer, which hasn't failed so far.
    pub fn new(inner: T) -> Noted<T>
        ensures { result ≡ record { inner = inner; failed = false } }
    {
        Noted {
            inner,
            failed: false,
        }
    }

    /// The reader or writer.
    pub fn inner(&self) -> &T
        ensures { result.now ≡ self.now.inner }
    {
        &self.inner
    }

    /// The reader or writer alone.
    pub fn into_inner(self) -> T
        ensures { result ≡ self.inner }
    {
        let Noted { inner, failed: _ } = self;
        inner
    }
}

impl<T: Read> Source for Noted<T> {
    ghost left = { λ s. T.remaining s.inner };

    ghost has_failed = { λ s. s.failed };

    fn failed(&self) -> bool {
        self.failed
    }

    fn pull(&mut self, buf: &mut [u8]) -> Result<usize, ReadFailed> {
        match self.inner.read(buf) {
            Ok(count) => Ok(count),
            Err(_) => {
                self.failed = true;
                Err(ReadFailed)
            }
        }
    }
}

impl<T: Write> Sink for Noted<T> {
    ghost held = { λ s. T.contents s.inner };

    ghost has_failed = { λ s. s.failed };

    fn failed(&self) -> bool {
        self.failed
    }

    fn put(&mut self, bytes: &[u8]) -> Result<(), WriteFailed> {
        match self.inner.write_all(bytes) {
            Ok(()) => Ok(()),
            Err(_) => {
                self.failed = true;
                Err(WriteFailed)
            }
        }
    }
}
