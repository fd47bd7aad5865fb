//! Whole reports.

ghost use Rattle.std.specs.Prelude.{◌≡◌, ◌++◌, OnOk, IfOk, codes, map};
ghost use Rattle.std.specs.Option.{option_copied};
ghost use Rattle.ep_report.specs.Lives.{generation_lines, closing_lines};
ghost use Rattle.ep_audit.specs.Faults.{fault_of};
ghost use Rattle.ep_report.specs.Reports.{text_of, counted, committed_line, history_lines, receipt_line, accepted_lines, refused_lines, replay_lines, run_lines, refusal_lines, chain_refusal_lines};

use crate::faults::push_chain_fault;
use crate::findings::Findings;
use crate::life::Life;
use crate::lines::{
    push_closing, push_committed_line, push_contents_line, push_generation, push_heading,
    push_history_line, push_lost_line, push_receipt_line, push_refused_line,
};
use crate::losses::Losses;
use crate::part::Part;
use crate::parts::push_parts;
use ep_audit::{AuditFault, ChainFault, Happening};
use ep_base::{Decree, InstanceId};
use ep_journal::Refusal;
use ep_rules::Receipt;
use std::alloc::{AllocError, Global};

fn push_committed(text: &mut Vec<u8>, committed: &[(InstanceId, Decree)]) -> Result<(), AllocError>
    ensures { OnOk result (text.new.items ≡ text.old.items ++ text_of (counted (codes "committed") (map committed_line committed.now))) }
{
    push_heading(text, b"committed", committed.len())?;
    for (instance, decree) in committed {
        push_committed_line(text, *instance, decree)?;
    }
    Ok(())
}

fn push_history(text: &mut Vec<u8>, history: &[Happening]) -> Result<(), AllocError>
    ensures { OnOk result (text.new.items ≡ text.old.items ++ text_of (counted (codes "history") (history_lines 1 history.now))) }
{
    push_heading(text, b"history", history.len())?;
    push_history_lines(text, history)?;
    Ok(())
}

fn push_history_lines(text: &mut Vec<u8>, history: &[Happening]) -> Result<(), AllocError>
    ensures { OnOk result (text.new.items ≡ text.old.items ++ text_of (history_lines 1 history.now)) }
{
    for (index, happening) in history.iter().enumerate() {
        push_history_line(text, index as u64 + 1, happening)?;
    }
    Ok(())
}

fn push_receipts(text: &mut Vec<u8>, receipts: &[Receipt]) -> Result<(), AllocError>
    ensures { OnOk result (text.new.items ≡ text.old.items ++ text_of (counted (codes "receipts") (map receipt_line receipts.now))) }
{
    push_heading(text, b"receipts", receipts.len())?;
    for receipt in receipts {
        push_receipt_line(text, receipt)?;
    }
    Ok(())
}

fn push_refused(
    alloc: Global,
    text: &mut Vec<u8>,
    refused: &[(u32, Refusal)],
) -> Result<(), AllocError>
    ensures { OnOk result (text.new.items ≡ text.old.items ++ text_of (refused_lines refused.now)) }
{
    push_heading(text, b"refused", refused.len())?;
    for (line, cause) in refused {
        push_refused_line(alloc, text, *line, *cause)?;
    }
    Ok(())
}

// Appends which generation it is, in version 3.
fn push_generation_lines(text: &mut Vec<u8>, life: Option<&Life<'_>>) -> Result<(), AllocError>
    ensures { OnOk result (text.new.items ≡ text.old.items ++ text_of (generation_lines (option_copied life.entry))) }
{
    let Some(life) = life else {
        return Ok(());
    };
    push_generation(text, life)
}

// Appends the first seal and what the keys have after the history, in version 3.
fn push_closing_lines(text: &mut Vec<u8>, life: Option<&Life<'_>>) -> Result<(), AllocError>
    ensures { OnOk result (text.new.items ≡ text.old.items ++ text_of (closing_lines (option_copied life.entry))) }
{
    let Some(life) = life else {
        return Ok(());
    };
    push_closing(text, life.closing(), b"\n")?;
    push_contents_line(text, life.contents())
}

// How many bytes such a report usually has at most, where keys and values are short. It is room that is made at once.
fn usual_length(found: &Findings<'_>) -> usize {
    let lines = found
        .committed
        .len()
        .saturating_add(found.history.len())
        .saturating_add(found.receipts.len());
    lines.saturating_mul(48)
}

/// The report of what an audit accepts: in version 3 its generation, the committed instances with their decrees, the history, in version 3 the
/// first seal and what the keys have after the history, and the receipts.
pub fn accepted(alloc: Global, found: &Findings<'_>) -> Result<Vec<u8>, AllocError>
    ensures { IfOk result (λ t. t.items ≡ text_of (accepted_lines (option_copied found.now.life) found.now.committed.now found.now.history.now found.now.receipts.now)) }
{
    let mut text = Vec::from_slice(alloc, b"verdict accepted\n")?;
    text.reserve(usual_length(found))?;
    push_generation_lines(&mut text, found.life)?;
    push_committed(&mut text, found.committed)?;
    push_history(&mut text, found.history)?;
    push_closing_lines(&mut text, found.life)?;
    push_receipts(&mut text, found.receipts)?;
    Ok(text)
}

/// The report of a script's run that the audit accepts: `accepted`, and then the lines of the script whose events were
/// refused, each with its cause, in the order given.
pub fn report(
    alloc: Global,
    found: &Findings<'_>,
    refused: &[(u32, Refusal)],
) -> Result<Vec<u8>, AllocError>
    ensures { IfOk result (λ t. t.items ≡ text_of (replay_lines (option_copied found.now.life) found.now.committed.now found.now.history.now found.now.receipts.now refused.now)) }
{
    let mut text = accepted(alloc, found)?;
    push_refused(alloc, &mut text, refused)?;
    Ok(text)
}

/// The report of a run in threads that the audit accepts: the `report` of the lines that were refused, and then the line that
/// counts the frames that were lost.
pub fn run_report(
    alloc: Global,
    found: &Findings<'_>,
    losses: Losses<'_>,
) -> Result<Vec<u8>, AllocError>
    ensures { IfOk result (λ t. t.items ≡ text_of (run_lines (option_copied found.now.life) found.now.committed.now found.now.history.now found.now.receipts.now losses.entry.refused.now losses.entry.lost)) }
{
    let mut text = report(alloc, found, losses.refused)?;
    push_lost_line(&mut text, losses.lost)?;
    Ok(text)
}

/// The report of what an audit refuses: its first fault, and nothing else.
pub fn refusal(alloc: Global, fault: AuditFault) -> Result<Vec<u8>, AllocError>
    ensures { IfOk result (λ t. t.items ≡ text_of (refusal_lines (fault_of fault))) }
{
    let line = fault.to_string(alloc)?;
    let mut text = Vec::new(alloc);
    push_parts(
        &mut text,
        &[
            Part::Text(b"verdict refused\n"),
            Part::Text(line.as_bytes()),
            Part::Text(b"\n"),
        ],
    )?;
    Ok(text)
}

/// The report of what an audit refuses in a chain: the number of the first generation that has a fault, and its first fault.
pub fn chain_refusal(
    alloc: Global,
    generation: u32,
    fault: &ChainFault,
) -> Result<Vec<u8>, AllocError>
    ensures { IfOk result (λ t. t.items ≡ text_of (chain_refusal_lines generation fault.now)) }
{
    let mut text = Vec::new(alloc);
    push_parts(
        &mut text,
        &[
            Part::Text(b"verdict refused\ngeneration "),
            Part::Number(generation as u64),
            Part::Text(b"\n"),
        ],
    )?;
    push_chain_fault(&mut text, fault)?;
    text.push(b'\n')?;
    Ok(text)
}
