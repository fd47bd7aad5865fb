//! Audits of bundles.

ghost use Rattle.std.specs.Prelude.{◌≡◌, ℕ, List, Some, IfOk, IfErr, false};
ghost use Rattle.ep_base.specs.Devices.{FailsAsReported};
ghost use Rattle.ep_main.specs.Audits.{Says};
ghost use Rattle.ep_main.specs.Faults.{is_read, is_write};
ghost use Rattle.ep_cli.specs.Printed.{Makes};
ghost use Rattle.ep_main.specs.Runs.{Does, IsVerdict};
ghost use Rattle.ep_main.specs.declared.asked.Asked.TheVariants.{Audit};
ghost use Rattle.ep_main.specs.declared.engine_fault.EngineFault.TheVariants.{Memory};

use crate::engine_fault::EngineFault;
use crate::form::Form;
use crate::forms::judged_in;
use ep_base::Source;
use ep_bundle::{Bundle, read_bundle};
use ep_cli::{Made, Status};
use ep_report::Judgement;
use std::alloc::Global;
use std::mem::forget;

/// Reads a bundle to its end, and audits it: what the audit says.
pub(crate) fn audit_of<S: Source>(
    alloc: Global,
    form: Form,
    reader: &mut S,
) -> Result<Made, EngineFault>
    ensures finishes { (zs : List ℕ) → S.left reader.old ≡ Some zs → Makes (Does (Audit form)) result zs }
    ensures verdict { IfOk result (λ m. IsVerdict m.status) }
    ensures read { FailsAsReported is_read result (S.has_failed reader.old) (S.has_failed reader.new) }
    ensures unwritten { IfErr result (λ e. is_write e ≡ false) }
{
    let bundle = read_bundle(alloc, reader)?;
    let judged = judge_bundle(alloc, form, &bundle);
    // The system takes memory back at the process's end, all at once.
    forget(bundle);
    judged
}

/// What the audit says of a bundle.
fn judge_bundle(alloc: Global, form: Form, bundle: &Bundle) -> Result<Made, EngineFault>
    ensures value { IfOk result (λ j. Says form bundle.now.journals bundle.now.receipts.items j.status j.text.items) }
    ensures memory { IfErr result (λ e. e ≡ Memory) }
{
    let Ok(judgement) = judged_in(alloc, form, &bundle.journals, bundle.receipts.as_slice()) else {
        return Err(EngineFault::Memory);
    };
    let Judgement { is_accepted, text } = judgement;
    if is_accepted {
        Ok(Made {
            status: Status::Done,
            text,
        })
    } else {
        Ok(Made {
            status: Status::AuditRefused,
            text,
        })
    }
}
