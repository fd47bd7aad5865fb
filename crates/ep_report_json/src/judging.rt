//! Audits of bundles.

ghost use Rattle.std.specs.Prelude.{IfOk};
ghost use Rattle.ep_report_json.specs.Judging.{IsJudged};

use crate::reports::{accepted_json, refusal_json};
use ep_audit::{VerdictFault, audit_summary};
use ep_journal::Journals;
use ep_report::{Findings, Judgement, life_of, reported_contents};
use ep_rules::Receipt;
use std::alloc::{AllocError, Global};

/// What an audit says of these journals and receipts, as one object.
pub fn judge_json(
    alloc: Global,
    journals: &Journals,
    receipts: &[Receipt],
) -> Result<Judgement, AllocError>
    ensures { IfOk result (λ j. IsJudged journals.now receipts.now j.is_accepted j.text.items) }
{
    match audit_summary(alloc, journals, receipts) {
        Ok(summary) => {
            let contents = reported_contents(alloc, journals, &summary.history)?;
            let life = life_of(journals, summary.closing.as_ref(), &contents);
            let found = Findings {
                life: life.as_ref(),
                committed: summary.committed.as_slice(),
                history: summary.history.as_slice(),
                receipts,
            };
            let text = accepted_json(alloc, &found)?;
            Ok(Judgement {
                is_accepted: true,
                text,
            })
        }
        Err(VerdictFault::Fault(fault)) => Ok(Judgement {
            is_accepted: false,
            text: refusal_json(alloc, fault)?,
        }),
        Err(VerdictFault::Memory) => Err(AllocError),
    }
}
