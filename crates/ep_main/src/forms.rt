//! Reports in each form.

ghost use Rattle.std.specs.Prelude.{◌≡◌, IfOk};
ghost use Rattle.std.specs.Option.{option_copied};
ghost use Rattle.ep_audit.specs.Faults.{fault_of};
ghost use Rattle.ep_main.specs.Forms.{IsJudgedIn, chain_refusal_in, refusal_in, report_in, run_report_in};

use crate::form::Form;
use ep_audit::{AuditFault, ChainFault};
use ep_journal::{Journals, Refusal};
use ep_report::{Findings, Judgement, Losses, chain_refusal, judge, refusal, report, run_report};
use ep_report_json::{chain_refusal_json, judge_json, refusal_json, report_json, run_report_json};
use ep_rules::Receipt;
use std::alloc::{AllocError, Global};

/// What an audit says of these journals and receipts.
pub(crate) fn judged_in(
    alloc: Global,
    form: Form,
    journals: &Journals,
    receipts: &[Receipt],
) -> Result<Judgement, AllocError>
    ensures { IfOk result (λ j. IsJudgedIn form journals.now receipts.now j.is_accepted j.text.items) }
{
    match form {
        Form::Lines => judge(alloc, journals, receipts),
        Form::Json => judge_json(alloc, journals, receipts),
    }
}

/// The report of a script's run that the audit accepts.
pub(crate) fn report_in(
    alloc: Global,
    form: Form,
    found: &Findings<'_>,
    refused: &[(u32, Refusal)],
) -> Result<Vec<u8>, AllocError>
    ensures { IfOk result (λ t. t.items ≡ report_in form (option_copied found.now.life) found.now.committed.now found.now.history.now found.now.receipts.now refused.now) }
{
    match form {
        Form::Lines => report(alloc, found, refused),
        Form::Json => report_json(alloc, found, refused),
    }
}

/// The report of a run in threads that the audit accepts.
pub(crate) fn run_report_in(
    alloc: Global,
    form: Form,
    found: &Findings<'_>,
    losses: Losses<'_>,
) -> Result<Vec<u8>, AllocError>
    ensures { IfOk result (λ t. t.items ≡ run_report_in form (option_copied found.now.life) found.now.committed.now found.now.history.now found.now.receipts.now losses.entry.refused.now losses.entry.lost) }
{
    match form {
        Form::Lines => run_report(alloc, found, losses),
        Form::Json => run_report_json(alloc, found, losses),
    }
}

/// The report of what an audit refuses.
pub(crate) fn refusal_in(
    alloc: Global,
    form: Form,
    fault: AuditFault,
) -> Result<Vec<u8>, AllocError>
    ensures { IfOk result (λ t. t.items ≡ refusal_in form (fault_of fault)) }
{
    match form {
        Form::Lines => refusal(alloc, fault),
        Form::Json => refusal_json(alloc, fault),
    }
}

/// The report of what an audit refuses in a chain.
pub(crate) fn chain_refusal_in(
    alloc: Global,
    form: Form,
    generation: u32,
    fault: &ChainFault,
) -> Result<Vec<u8>, AllocError>
    ensures { IfOk result (λ t. t.items ≡ chain_refusal_in form generation fault.now) }
{
    match form {
        Form::Lines => chain_refusal(alloc, generation, fault),
        Form::Json => chain_refusal_json(alloc, generation, fault),
    }
}
