//! How far a walk over the lines of a script is at a node.

ghost use Rattle.std.specs.Prelude.{◌≡◌, ◌+◌, ◌<◌, ◌^◌, IfOk};

use ep_journal::StepFault;
use std::alloc::AllocError;

/// How far a walk over the lines of a script is at a node.
#[derive(Clone, Copy)]
pub(crate) struct Cursor {
    /// How many of the node's lines came before: the place of the next one.
    place: u32,
    /// How many of the node's refusals were reported.
    reported: usize,
}

/// The place after this one. No script has as many lines as it can count.
fn next(place: u32) -> Result<u32, AllocError>
    ensures after { IfOk result (λ n. n ≡ place + 1) }
    ensures in_range { IfOk result (λ n. n < 2 ^ 32) }
{
    match place.checked_add(1) {
        Some(next) => Ok(next),
        None => Err(AllocError),
    }
}

impl Cursor {
    ghost use Rattle.std.specs.Prelude.{◌≡◌, List, drop, IfOk, OnOk};
    ghost use Rattle.ep_host.specs.Tasks.{Use};
    ghost use Rattle.ep_run.specs.Walks.{fault_at, next_refusal, IsAt};

    /// Before any line.
    pub(crate) fn new() -> Cursor
        ensures { result ≡ record { place = 0; reported = 0 } }
    {
        Cursor {
            place: 0,
            reported: 0,
        }
    }

    /// Why the node's next line was refused, if its next refusal is that line's.
    fn fault(&self, refused: &[(u32, StepFault)]) -> Option<StepFault>
        ensures { result ≡ fault_at self.now.place (drop self.now.reported refused.now) }
    {
        let Some((place, fault)) = refused.get(self.reported) else {
            return None;
        };
        if *place == self.place {
            Some(*fault)
        } else {
            None
        }
    }

    /// Passes the node's next line: why it was refused, if it was.
    pub(crate) fn pass(
        &mut self,
        refused: &[(u32, StepFault)],
    ) -> Result<Option<StepFault>, AllocError>
        ensures fault { IfOk result (λ f. (uses : List Use) → IsAt self.old refused.now uses → f ≡ next_refusal uses) }
        ensures rest { OnOk result ((uses : List Use) → IsAt self.old refused.now uses → IsAt self.new refused.now (drop 1 uses)) }
    {
        let next = next(self.place)?;
        let fault = self.fault(refused);
        if fault.is_some() {
            self.reported += 1;
        }
        self.place = next;
        Ok(fault)
    }
}
