//! The call at which a device in memory fails.

ghost use Rattle.std.specs.Prelude.{◌≡◌, ◌-◌, ◌==◌, ◌||◌, ◌↔◌, None, Some, IsOk, IfErr, IfSome, MatchResult, is_err, is_some};

use crate::device_failed::DeviceFailed;
use crate::device_fault::DeviceFault;
use crate::system_fault::SystemFault;

/// How many calls on the one that fails is (1 is the next one, 0 means none), and why one has failed first.
#[derive(Drop)]
pub(crate) struct Countdown {
    pub(crate) call: u64,
    pub(crate) failed: Option<SystemFault>,
}

impl Countdown {
    /// Counts a call. `Err` where it fails: the one that is to fail, and each one after it.
    pub(crate) fn count(&mut self) -> Result<(), DeviceFailed>
        ensures failed { is_some self.new.failed ≡ (self.old.call == 1 || is_some self.old.failed) }
        ensures reported { MatchResult result (λ _. self.new.failed ≡ None) (λ e. self.new.failed ≡ Some e.cause) }
        ensures first { IfSome self.old.failed (λ cause. self.new.failed ≡ Some cause) }
        ensures call { self.new.call ≡ self.old.call - 1 }
    {
        let is_last = self.call == 1;
        self.call = self.call.saturating_sub(1);
        match self.failed {
            Some(cause) => Err(DeviceFailed { cause }),
            None if is_last => {
                let cause = SystemFault::InputOutput;
                self.failed = Some(cause);
                Err(DeviceFailed { cause })
            }
            None => Ok(()),
        }
    }

    /// Notes a fault, out of memory too, and reports the first one.
    pub(crate) fn reported(&mut self, answer: Result<(), DeviceFault>) -> Result<(), DeviceFailed>
        ensures result { IsOk result ↔ IsOk answer }
        ensures failed { is_some self.new.failed ≡ (is_err result || is_some self.old.failed) }
        ensures reported { IfErr result (λ e. self.new.failed ≡ Some e.cause) }
        ensures first { IfSome self.old.failed (λ cause. self.new.failed ≡ Some cause) }
    {
        let why = match answer {
            Ok(()) => return Ok(()),
            Err(DeviceFault::Memory) => SystemFault::NoMemory,
            Err(DeviceFault::Failed(cause)) => cause,
        };
        let cause = self.failed.unwrap_or(why);
        self.failed = Some(cause);
        Err(DeviceFailed { cause })
    }
}
