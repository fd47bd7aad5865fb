//! The list of what was refused.

ghost use Rattle.std.specs.Prelude.{◌≡◌, ◌≢◌, ◌++◌, ◌∷◌, [], OnOk};
ghost use Rattle.ep_journal.specs.declared.refusal.Refusal.TheVariants.{Step};
ghost use Rattle.ep_journal.specs.declared.step_fault.StepFault.TheVariants.{Memory};

use ep_journal::{Refusal, StepFault};
use std::alloc::AllocError;

/// Whether the refusal is listed: out of memory is none that is.
fn reported(refusal: Refusal) -> Result<(), AllocError>
    ensures { OnOk result (refusal ≢ Step Memory) }
{
    match refusal {
        Refusal::Step(StepFault::Memory) => Err(AllocError),
        Refusal::Step(_) => Ok(()),
        Refusal::BadFrame => Ok(()),
        Refusal::NoSuchMessage(_) => Ok(()),
    }
}

/// Lists a refusal with the number of its line; out of memory is none.
pub(crate) fn list(
    refused: &mut Vec<(u32, Refusal)>,
    line: u32,
    refusal: Refusal,
) -> Result<(), AllocError>
    ensures listed { OnOk result (refused.new.items ≡ refused.old.items ++ (line, refusal) ∷ []) }
    ensures reported { OnOk result (refusal ≢ Step Memory) }
{
    let listed = refusal;
    reported(refusal)?;
    refused.push((line, listed))?;
    Ok(())
}
