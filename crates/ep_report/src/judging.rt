//! Audits of bundles.

ghost use Rattle.std.specs.Prelude.{IfOk};
ghost use Rattle.ep_report.specs.Judging.{IsSaid};

use crate::findings::Findings;
use crate::judgement::Judgement;
use crate::lives::{life_of, reported_contents};
use crate::reports::{accepted, refusal};
use ep_audit::{VerdictFault, audit_summary};
use ep_journal::Journals;
use ep_rules::Receipt;
use std::alloc::{AllocError, Global};

/// What an audit says of these journals and receipts.
pub fn judge(
    alloc: Global,
    journals: &Journals,
    receipts: &[Receipt],
) -> Result<Judgement, AllocError>
    ensures { IfOk result (λ j. IsSaid journals.now receipts.now j.is_accepted j.text.items) }
{
    match audit_summary(alloc, journals, receipts) {
        Ok(summary) => {
            let contents = reported_contents(alloc, journals, &summary.history)?;
            let life = life_of(journals, summary.closing.as_ref(), &contents);
            let found = Findings {
                life: life.as_ref(),
                committed: summary.committed.as_slice(),
                history: summary.history.as_slice(),
                receipts,
            };
            let text = accepted(alloc, &found)?;
            Ok(Judgement {
                is_accepted: true,
                text,
            })
        }
        Err(VerdictFault::Fault(fault)) => Ok(Judgement {
            is_accepted: false,
            text: refusal(alloc, fault)?,
        }),
        Err(VerdictFault::Memory) => Err(AllocError),
    }
}
