//! Why bundles and scripts are refused.

ghost use Rattle.std.specs.Prelude.{◌≡◌, ℕ, List, Some, IfErr, false};
ghost use Rattle.ep_explain.specs.Kept.{known_left};
ghost use Rattle.ep_base.specs.Devices.{FailsAsReported};
ghost use Rattle.ep_cli.specs.Printed.{Makes};
ghost use Rattle.ep_viewer.specs.Faults.{is_read, is_write, status_found};
ghost use Rattle.ep_viewer.specs.Views.{Does};
ghost use Rattle.ep_viewer.specs.declared.viewer_asked.ViewerAsked.TheVariants.{Explain};

use crate::viewer_fault::ViewerFault;
use ep_base::Source;
use ep_cli::{Made, Status};
use ep_explain::{Finding, Kept, explain};
use std::alloc::Global;

/// Reads a bundle or a script to its end, or to its first field or line at fault, and makes what is found of it, and why.
pub(crate) fn explanation_of<S: Source>(
    alloc: Global,
    reader: &mut Kept<S>,
) -> Result<Made, ViewerFault>
    ensures made { (zs : List ℕ) → known_left S.left reader.old ≡ Some zs → Makes (Does Explain) result zs }
    ensures read { FailsAsReported is_read result (S.has_failed reader.old.source) (S.has_failed reader.new.source) }
    ensures unwritten { IfErr result (λ e. is_write e ≡ false) }
{
    let reported = explain(alloc, reader)?;
    let status = status_found(reported.finding);
    Ok(Made {
        text: reported.text,
        status,
    })
}

/// How the program ends that has explained a bundle or a script.
fn status_found(finding: Finding) -> Status
    ensures { result ≡ status_found finding }
{
    match finding {
        Finding::Accepted | Finding::Script => Status::Done,
        Finding::Refused => Status::AuditRefused,
        Finding::Unreadable => Status::Refused,
    }
}
