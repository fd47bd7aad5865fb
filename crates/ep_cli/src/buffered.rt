//! Reading ahead.

ghost use Rattle.std.specs.Prelude.{◌≡◌, false, IfOk, IfErr};
ghost use Rattle.std.specs.Io.Buffered.{reader_capacity};
ghost use Rattle.ep_cli.specs.declared.words_fault.WordsFault.TheVariants.{Memory};

use crate::words_fault::WordsFault;
use ep_base::{ReadFailed, Source};
use std::alloc::Global;
use std::io::{BufRead, BufReader, Read};

/// A reader that is read ahead, and whether it has failed.
#[derive(Drop)]
pub struct Buffered<R> {
    reader: BufReader<R>,
    failed: bool,
}

impl<R: Read> Buffered<R> {
    ghost use Rattle.std.specs.Prelude.{◌≤◌, length};
    ghost use Rattle.std.specs.Io.Buffered.{reader_remaining};
    ghost use Rattle.ep_base.specs.Devices.{Pulls};

    /// Pulls where what was read ahead isn't enough.
    #[cold]
    #[inline(never)]
    fn read(&mut self, buf: &mut [u8]) -> Result<usize, ReadFailed>
        ensures bound { IfOk result (λ n. n ≤ length buf.new) }
        ensures bytes { Pulls (reader_remaining R.remaining self.old.reader) (reader_remaining R.remaining self.new.reader) self.old.failed self.new.failed result buf.new }
    {
        match self.reader.read(buf) {
            Ok(count) => Ok(count),
            Err(_) => {
                self.failed = true;
                Err(ReadFailed)
            }
        }
    }
}

impl<R: Read> Source for Buffered<R> {
    ghost use Rattle.std.specs.Io.Buffered.{reader_remaining};

    ghost left = { λ s. reader_remaining R.remaining s.reader };

    ghost has_failed = { λ s. s.failed };

    fn failed(&self) -> bool {
        self.failed
    }

    #[inline(always)]
    fn pull(&mut self, buf: &mut [u8]) -> Result<usize, ReadFailed> {
        let len = buf.len();
        let ahead = self.reader.buffer();
        if len > ahead.len() {
            return self.read(buf);
        }
        buf.copy_from_slice(&ahead[..len]);
        self.reader.consume(len);
        Ok(len)
    }
}

/// The reader as a source that reads 8 KiB of it at a time, however little is pulled at once. Where such a read fails, the
/// pull that it was made for fails.
pub fn read_ahead<R: Read + Drop>(alloc: Global, reader: R) -> Result<Buffered<R>, WordsFault>
    ensures left { IfOk result (λ source. ⟦<Buffered<R> as Source>⟧.left source ≡ R.remaining reader) }
    ensures fresh { IfOk result (λ source. ⟦<Buffered<R> as Source>⟧.has_failed source ≡ false) }
    ensures room { IfOk result (λ source. reader_capacity source.reader ≡ 8192) }
    ensures memory { IfErr result (λ d. d ≡ Memory) }
{
    match BufReader::new(alloc, reader) {
        Ok(reader) => Ok(Buffered {
            reader,
            failed: false,
        }),
        Err(_) => Err(WordsFault::Memory),
    }
}
