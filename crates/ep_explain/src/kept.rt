//! A source that can be looked at before it is read, and that keeps what was read of it.

ghost use Rattle.std.specs.Prelude.{◌≡◌, ◌≤◌, ◌<◌, [], false, length, take, drop, IfOk, IfErr};
ghost use Rattle.std.specs.Io.KnownBytes.{Keeps};
ghost use Rattle.ep_base.specs.Devices.{Pulls, FailsAsReported};
ghost use Rattle.ep_explain.specs.Kept.{known_left, ends, Gives, is_read_failed};

use crate::explain_fault::ExplainFault;
use ep_base::{ReadFailed, Source};
use std::alloc::Global;
use std::marker::Model;

/// How many bytes are pulled at once while a source is looked at.
const ROOM: usize = 8192;

/// A source. Once it was looked at, it keeps all bytes that it gave, and those that it is going to give first.
#[derive(Drop)]
pub struct Kept<S> {
    source: S,
    bytes: Vec<u8>,
    /// How many of the bytes were pulled.
    at: usize,
    /// Whether the source has reported its end. It isn't pulled from then on.
    is_over: bool,
    keeps: bool,
    /// Whether all bytes are kept since they are: memory may have been refused.
    is_whole: bool,
}

impl<S> Model for Kept<S> {
    ghost use Rattle.std.specs.Prelude.{◌≤◌, length};
    ghost use Rattle.ep_explain.specs.Kept.{Keeper};

    ghost Value = { Keeper S };

    ghost view = { λ k. record { source = k.source; bytes = k.bytes.items; at = k.at; is_over = k.is_over } };

    ghost invariant = { λ k. k.at ≤ length k.bytes.items };
}

impl<S: Source> Kept<S> {
    /// The source, of which nothing is kept.
    pub fn new(alloc: Global, source: S) -> Kept<S>
        ensures { result ≡ record { source = source; bytes = []; at = 0; is_over = false } }
    {
        Kept {
            source,
            bytes: Vec::new(alloc),
            at: 0,
            is_over: false,
            keeps: false,
            is_whole: true,
        }
    }

    /// Pulls until so many bytes are kept, or the source is at its end, and from now on keeps what it gives. What is left to be pulled from it
    /// stays as it was, unless memory is refused.
    pub fn look_ahead(&mut self, count: usize) -> Result<(), ExplainFault>
        ensures left { IfOk result (λ _. Keeps (known_left S.left self.old) (known_left S.left self.new)) }
        ensures failed { FailsAsReported is_read_failed result (S.has_failed self.old.source) (S.has_failed self.new.source) }
    {
        self.keeps = true;
        let mut room = [0; ROOM];
        for _ in 0..count {
            if self.is_over || self.bytes.len() >= count {
                return Ok(());
            }
            self.look(&mut room)?;
        }
        Ok(())
    }

    // Pulls once from the source, and keeps what it gives.
    fn look(&mut self, room: &mut [u8]) -> Result<(), ExplainFault>
        requires { self.old.is_over ≡ false }
        ensures left { IfOk result (λ _. Keeps (known_left S.left self.old) (known_left S.left self.new)) }
        ensures failed { FailsAsReported is_read_failed result (S.has_failed self.old.source) (S.has_failed self.new.source) }
    {
        let count = self.pull_source(room)?;
        self.bytes.extend_from_slice(&room[..count])?;
        Ok(())
    }

    // Pulls from the source, which hasn't reported its end, and notes whether it reports it now.
    fn pull_source(&mut self, buf: &mut [u8]) -> Result<usize, ReadFailed>
        requires { self.old.is_over ≡ false }
        ensures bound { IfOk result (λ n. n ≤ length buf.new) }
        ensures bytes { Pulls (S.left self.old.source) (S.left self.new.source) (S.has_failed self.old.source) (S.has_failed self.new.source) result buf.new }
        ensures over { IfOk result (λ n. self.new.is_over ≡ ends n (length buf.new)) }
        ensures goes_on { IfErr result (λ _. self.new.is_over ≡ false) }
        ensures kept { self.new.bytes ≡ self.old.bytes }
        ensures at { self.new.at ≡ self.old.at }
    {
        let count = self.source.pull(buf)?;
        self.is_over = ends(count, buf.len());
        Ok(count)
    }

    /// The bytes that are kept: all that it gave since it was looked at, and those that it is going to give first. None where memory was
    /// refused for some of them.
    pub fn bytes(&self) -> Option<&[u8]> {
        if self.is_whole {
            Some(self.bytes.as_slice())
        } else {
            None
        }
    }

    /// The bytes that are kept and weren't pulled.
    pub fn ahead(&self) -> &[u8]
        ensures { result.now ≡ drop self.now.at self.now.bytes }
    {
        &self.bytes[self.at..]
    }

    // Gives the first bytes that are kept and weren't pulled.
    fn give(&mut self, buf: &mut [u8]) -> usize
        requires { self.old.at < length self.old.bytes }
        ensures bound { result ≤ length buf.new }
        ensures some { 0 < length buf.new → 0 < result }
        ensures gives { Gives self.old self.new (take result buf.new) }
    {
        let rest = &self.bytes[self.at..];
        let count = rest.len().min(buf.len());
        buf[..count].copy_from_slice(&rest[..count]);
        self.at += count;
        count
    }

    // Keeps these bytes, which were pulled, if any are to be kept.
    fn keep(&mut self, bytes: &[u8])
        requires { self.old.at ≡ length self.old.bytes }
        ensures source { self.new.source ≡ self.old.source }
        ensures over { self.new.is_over ≡ self.old.is_over }
        ensures given { self.new.at ≡ length self.new.bytes }
    {
        if self.keeps {
            self.append(bytes);
        }
    }

    fn append(&mut self, bytes: &[u8])
        requires { self.old.at ≡ length self.old.bytes }
        ensures source { self.new.source ≡ self.old.source }
        ensures over { self.new.is_over ≡ self.old.is_over }
        ensures given { self.new.at ≡ length self.new.bytes }
    {
        match self.bytes.extend_from_slice(bytes) {
            Ok(()) => self.at = self.bytes.len(),
            Err(_) => self.is_whole = false,
        }
    }

    // Pulls from the source, which hasn't reported its end, where all bytes that are kept were pulled.
    fn pull_more(&mut self, buf: &mut [u8]) -> Result<usize, ReadFailed>
        requires given { self.old.at ≡ length self.old.bytes }
        requires goes_on { self.old.is_over ≡ false }
        ensures bound { IfOk result (λ n. n ≤ length buf.new) }
        ensures given { self.new.at ≡ length self.new.bytes }
        ensures bytes { Pulls (S.left self.old.source) (S.left self.new.source) (S.has_failed self.old.source) (S.has_failed self.new.source) result buf.new }
        ensures over { IfOk result (λ n. self.new.is_over ≡ ends n (length buf.new)) }
        ensures goes_on { IfErr result (λ _. self.new.is_over ≡ false) }
    {
        let count = self.pull_source(buf)?;
        self.keep(&buf[..count]);
        Ok(count)
    }
}

// Whether a source has reported its end that gave so many bytes where there was room for so many.
fn ends(count: usize, room: usize) -> bool
    ensures { result ≡ ends count room }
{
    count == 0 && room != 0
}

impl<S: Source> Source for Kept<S> {
    ghost left = { λ k. known_left S.left k };

    ghost has_failed = { λ k. S.has_failed k.source };

    fn failed(&self) -> bool {
        self.source.failed()
    }

    fn pull(&mut self, buf: &mut [u8]) -> Result<usize, ReadFailed> {
        if self.at < self.bytes.len() {
            return Ok(self.give(buf));
        }
        if self.is_over {
            return Ok(0);
        }
        self.pull_more(buf)
    }
}
