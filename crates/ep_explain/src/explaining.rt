//! What is reported of bytes that are to be a bundle.

ghost use Rattle.std.specs.Prelude.{◌≡◌, ◌++◌, ℕ, List, Some, IfOk, IfErr, OnOk};
ghost use Rattle.ep_base.specs.Devices.{FailsAsReported, reports};
ghost use Rattle.ep_bundle.specs.Reading.{is_read_failed as is_bundle_unread};
ghost use Rattle.ep_explain.specs.Kept.{is_read_failed, known_left};
ghost use Rattle.ep_explain.specs.declared.explain_fault.ExplainFault.TheVariants.{Memory};
ghost use Rattle.ep_explain.specs.Explained.{IsExplained, IsJudged, IsNoBundle, IsRefusalReported, IsScriptReported, IsVerdictReported, script_finding};
ghost use Rattle.ep_explain.specs.Sections.{AreReported, fault_section};
ghost use Rattle.ep_report.specs.Reports.{text_of};
ghost use Rattle.ep_view.specs.Editions.{edition_line};

use crate::advice::Advice;
use crate::bad_fields::add_field;
use crate::claims::{add_misordered, add_unknown};
use crate::explain_fault::ExplainFault;
use crate::explained::Explained;
use crate::finding::Finding;
use crate::guess::subcommand_of;
use crate::handled::add_handling;
use crate::kept::Kept;
use crate::reasons::{Reasons, push_section};
use crate::scripts::explain_script;
use crate::stepping::add_step;
use crate::subcommand::Subcommand;
use ep_audit::{AuditFault, faults};
use ep_base::Source;
use ep_bundle::{Bundle, BundleFault, read_bundle};
use ep_ending::push_endings;
use ep_view::push_edition;
use std::alloc::{AllocError, Global};

/// How many bytes are looked at before it is known what they are.
const AHEAD: usize = 65_536;

/// What is found of the bytes of a source, and why, in words. They are taken for a script by their first 65,536 bytes, as `subcommand_of` says, and
/// never where they begin as a bundle does; or else for a bundle. Past the first field or line at fault nothing is read, so a source without an end is explained too.
///
/// First comes what the reader or an audit says: `bundle refused ..`, where they are no bundle; `verdict accepted`, and then what
/// would end what is open; or `verdict refused`, and then all faults in the audit's order, of which the first is the audit's. Under each fault
/// stand its reasons, a line each, indented by two spaces. Under the verdict of a bundle of version 3 stands the line of its
/// edition. Of a script see `explain_script`.
pub fn explain<S: Source>(alloc: Global, source: &mut Kept<S>) -> Result<Explained, ExplainFault>
    ensures reported { (bytes : List ℕ) → known_left S.left source.old ≡ Some bytes → IfOk result (λ reported. IsExplained bytes reported.finding reported.text.items) }
    ensures failed { FailsAsReported is_read_failed result (S.has_failed source.old.source) (S.has_failed source.new.source) }
{
    source.look_ahead(AHEAD)?;
    match subcommand_of(source.ahead()) {
        Some(subcommand) => explain_as(alloc, subcommand, source),
        None => explain_bytes(alloc, source),
    }
}

/// What is reported of a script.
fn explain_as<S: Source>(
    alloc: Global,
    subcommand: Subcommand,
    source: &mut Kept<S>,
) -> Result<Explained, ExplainFault>
    ensures reported { (bytes : List ℕ) → known_left S.left source.old ≡ Some bytes → IfOk result (λ reported. IsScriptReported bytes subcommand reported.finding reported.text.items) }
    ensures failed { FailsAsReported is_read_failed result (S.has_failed source.old.source) (S.has_failed source.new.source) }
{
    let Advice { is_read, text } = explain_script(alloc, subcommand, source)?;
    Ok(Explained {
        finding: script_finding(is_read),
        text,
    })
}

fn script_finding(is_read: bool) -> Finding
    ensures { result ≡ script_finding is_read }
{
    if is_read {
        Finding::Script
    } else {
        Finding::Unreadable
    }
}

/// What is reported of bytes that are taken for a bundle.
fn explain_bytes<S: Source>(alloc: Global, source: &mut Kept<S>) -> Result<Explained, ExplainFault>
    ensures reported { (bytes : List ℕ) → known_left S.left source.old ≡ Some bytes → IfOk result (λ reported. IsExplained bytes reported.finding reported.text.items) }
    ensures failed { FailsAsReported is_read_failed result (S.has_failed source.old.source) (S.has_failed source.new.source) }
{
    match read_bundle(alloc, source) {
        Ok(bundle) => {
            let reported = explain_bundle(alloc, &bundle);
            drop(bundle);
            reported
        }
        Err(fault) => explain_refusal(alloc, source.bytes(), fault),
    }
}

/// What is reported where the reader refuses the bytes.
fn explain_refusal(
    alloc: Global,
    bytes: Option<&[u8]>,
    fault: BundleFault,
) -> Result<Explained, ExplainFault>
    ensures reported { IfOk result (λ reported. IsRefusalReported fault reported.finding reported.text.items) }
    ensures named { IfOk result (λ _. IsNoBundle fault) }
    ensures failed { reports is_read_failed result ≡ is_bundle_unread fault }
{
    match fault {
        BundleFault::Memory => Err(ExplainFault::Memory),
        BundleFault::ReadFailed => Err(ExplainFault::ReadFailed),
        BundleFault::BadBundle(_) => Ok(say_refusal(alloc, bytes, fault)?),
        BundleFault::NotARun(_, _) => Ok(say_refusal(alloc, bytes, fault)?),
    }
}

fn say_refusal(
    alloc: Global,
    bytes: Option<&[u8]>,
    fault: BundleFault,
) -> Result<Explained, AllocError>
    ensures { IfOk result (λ reported. IsRefusalReported fault reported.finding reported.text.items) }
{
    let line = fault.to_string(alloc)?;
    let reasons = refusal_reasons(alloc, bytes, fault);
    let mut text = Vec::new(alloc);
    let reported = push_section(&mut text, line.as_bytes(), &reasons);
    drop(reasons);
    reported?;
    Ok(Explained {
        finding: Finding::Unreadable,
        text,
    })
}

/// Why the reader refuses the bytes.
fn refusal_reasons(alloc: Global, bytes: Option<&[u8]>, fault: BundleFault) -> Reasons {
    let mut reasons = Reasons::new(alloc);
    match bytes {
        Some(bytes) => add_refusal(alloc, bytes, fault, &mut reasons),
        None => reasons.cut(),
    }
    reasons
}

/// Memory and reading aren't reported as reasons.
fn add_refusal(alloc: Global, bytes: &[u8], fault: BundleFault, reasons: &mut Reasons) {
    match fault {
        BundleFault::Memory | BundleFault::ReadFailed => reasons.cut(),
        BundleFault::BadBundle(field) => add_field(alloc, bytes, &field, reasons),
        BundleFault::NotARun(replica, entry) => add_step(alloc, bytes, replica, entry, reasons),
    }
}

/// What is reported of a bundle.
fn explain_bundle(alloc: Global, bundle: &Bundle) -> Result<Explained, ExplainFault>
    ensures reported { IfOk result (λ reported. IsJudged bundle.now.journals bundle.now.receipts.items reported.finding reported.text.items) }
    ensures memory { IfErr result (λ e. e ≡ Memory) }
{
    let found = faults(alloc, &bundle.journals, &bundle.receipts)?;
    Ok(say_verdict(alloc, bundle, &found)?)
}

/// A verdict, and under it the line of the bundle's edition.
fn headed(alloc: Global, bundle: &Bundle, verdict: &[u8]) -> Result<Vec<u8>, AllocError>
    ensures { IfOk result (λ text. text.items ≡ verdict.now ++ edition_line bundle.now.journals.version bundle.now.journals.opening) }
{
    let mut text = Vec::from_slice(alloc, verdict)?;
    let journals = &bundle.journals;
    push_edition(&mut text, journals.version(), journals.opening())?;
    Ok(text)
}

/// What an audit says that finds these faults, and the reasons.
fn say_verdict(
    alloc: Global,
    bundle: &Bundle,
    found: &[AuditFault],
) -> Result<Explained, AllocError>
    ensures { IfOk result (λ reported. IsVerdictReported bundle.now.journals found.now reported.finding reported.text.items) }
{
    if found.is_empty() {
        let mut text = headed(alloc, bundle, b"verdict accepted\n")?;
        push_endings(alloc, &mut text, &bundle.journals)?;
        return Ok(Explained {
            finding: Finding::Accepted,
            text,
        });
    }
    let mut text = headed(alloc, bundle, b"verdict refused\n")?;
    push_faults(alloc, &mut text, bundle, found)?;
    Ok(Explained {
        finding: Finding::Refused,
        text,
    })
}

/// Appends each fault's line, with its reasons.
fn push_faults(
    alloc: Global,
    text: &mut Vec<u8>,
    bundle: &Bundle,
    found: &[AuditFault],
) -> Result<(), AllocError>
    ensures { OnOk result ((reported : List ℕ) × AreReported found.now reported × (text.new.items ≡ text.old.items ++ reported)) }
{
    for fault in found {
        push_fault(alloc, text, bundle, *fault)?;
    }
    Ok(())
}

/// Appends the fault's line, and its reasons.
fn push_fault(
    alloc: Global,
    text: &mut Vec<u8>,
    bundle: &Bundle,
    fault: AuditFault,
) -> Result<(), AllocError>
    ensures { OnOk result ((reasons : List (List ℕ)) × (text.new.items ≡ text.old.items ++ text_of (fault_section fault reasons))) }
{
    let line = fault.to_string(alloc)?;
    let reasons = reasons_of(alloc, bundle, fault);
    let reported = push_section(text, line.as_bytes(), &reasons);
    drop(reasons);
    reported
}

/// The reasons of a fault of the bundle.
fn reasons_of(alloc: Global, bundle: &Bundle, fault: AuditFault) -> Reasons {
    let journals = &bundle.journals;
    let receipts = bundle.receipts.as_slice();
    let mut reasons = Reasons::new(alloc);
    match fault {
        AuditFault::UnsentFrame(replica, number)
        | AuditFault::ChangedFrame(replica, number)
        | AuditFault::StampOrder(replica, number) => {
            add_handling(journals, replica, number, &mut reasons);
        }
        AuditFault::UnknownReceipt(place) => add_unknown(journals, receipts, place, &mut reasons),
        AuditFault::CallerOrder(place) => add_misordered(journals, receipts, place, &mut reasons),
    }
    reasons
}
