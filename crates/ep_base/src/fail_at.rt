//! Sources and sinks that fail at one call, for tests.

ghost use Rattle.std.specs.Prelude.{◌≡◌, ◌≢◌, ◌≤◌, ◌-◌, ◌==◌, ◌||◌, true, false, length, IfOk, IsErr};
ghost use Rattle.ep_base.specs.Devices.{Pulls, Puts};

use crate::read_failed::ReadFailed;
use crate::sink::Sink;
use crate::source::Source;
use crate::write_failed::WriteFailed;
use std::marker::Model;

/// A source or a sink that fails at its k-th call, counted from 1, and otherwise does what the one that it wraps does.
#[derive(Drop)]
pub struct FailAt<T> {
    inner: T,
    call: u64,
    failed: bool,
}

impl<T> Model for FailAt<T> {
    ghost use Rattle.ep_base.specs.Devices.{Staged};

    ghost Value = { Staged T };

    ghost view = { λ s. record { inner = s.inner; call = s.call; failed = s.failed } };
}

impl<T> FailAt<T> {
    /// The source or sink, whose k-th call from here on fails; none does at 0.
    pub fn new(inner: T, call: u64) -> FailAt<T>
        ensures { result ≡ record { inner = inner; call = call; failed = false } }
    {
        FailAt {
            inner,
            call,
            failed: false,
        }
    }

    /// The source or sink.
    pub fn inner(&self) -> &T
        ensures { result.now ≡ self.now.inner }
    {
        &self.inner
    }

    /// The source or sink, which fails at no call of its own any more.
    pub fn into_inner(self) -> T
        ensures { result ≡ self.inner }
    {
        let FailAt {
            inner,
            call: _,
            failed: _,
        } = self;
        inner
    }

    // Counts the call, and says whether it is the one that fails.
    fn fails(&mut self) -> bool
        ensures test { result ≡ (self.old.call == 1) }
        ensures value { self.new ≡ record { inner = self.old.inner; call = self.old.call - 1; failed = result || self.old.failed } }
    {
        let fails = self.call == 1;
        self.call = self.call.saturating_sub(1);
        self.failed = fails || self.failed;
        fails
    }
}

impl<T: Source> Source for FailAt<T> {
    ghost left = { λ s. T.left s.inner };

    ghost has_failed = { λ s. s.failed || T.has_failed s.inner };

    fn failed(&self) -> bool {
        self.failed || self.inner.failed()
    }

    fn pull(&mut self, buf: &mut [u8]) -> Result<usize, ReadFailed>
        ensures bound { IfOk result (λ n. n ≤ length buf.new) }
        ensures bytes { Pulls (T.left self.old.inner) (T.left self.new.inner) (self.old.failed || T.has_failed self.old.inner)
            (self.new.failed || T.has_failed self.new.inner) result buf.new }

        // Its own fault leaves what it wraps as it was, and each other call is that of what it wraps.
        ensures fails { self.old.call ≡ 1 → IsErr result × (self.new ≡ record { inner = self.old.inner; call = 0; failed = true }) }
        ensures passes { self.old.call ≢ 1 → Pulls (T.left self.old.inner) (T.left self.new.inner) (T.has_failed self.old.inner)
            (T.has_failed self.new.inner) result buf.new }
        ensures counts { self.new.call ≡ self.old.call - 1 }
        ensures kept { self.old.call ≢ 1 → self.new.failed ≡ self.old.failed }
    {
        if self.fails() {
            return Err(ReadFailed);
        }
        self.inner.pull(buf)
    }
}

impl<T: Sink> Sink for FailAt<T> {
    ghost held = { λ s. T.held s.inner };

    ghost has_failed = { λ s. s.failed || T.has_failed s.inner };

    fn failed(&self) -> bool {
        self.failed || self.inner.failed()
    }

    fn put(&mut self, bytes: &[u8]) -> Result<(), WriteFailed>
        ensures bytes { Puts (T.held self.old.inner) (T.held self.new.inner) (self.old.failed || T.has_failed self.old.inner)
            (self.new.failed || T.has_failed self.new.inner) result bytes.now }

        // Its own fault leaves what it wraps as it was, and each other call is that of what it wraps.
        ensures fails { self.old.call ≡ 1 → IsErr result × (self.new ≡ record { inner = self.old.inner; call = 0; failed = true }) }
        ensures passes { self.old.call ≢ 1 → Puts (T.held self.old.inner) (T.held self.new.inner) (T.has_failed self.old.inner)
            (T.has_failed self.new.inner) result bytes.now }
        ensures counts { self.new.call ≡ self.old.call - 1 }
        ensures kept { self.old.call ≢ 1 → self.new.failed ≡ self.old.failed }
    {
        if self.fails() {
            return Err(WriteFailed);
        }
        self.inner.put(bytes)
    }
}
