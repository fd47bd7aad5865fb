//! Whole reports.

ghost use Rattle.std.specs.Prelude.{◌≡◌, ◌++◌, [], ◌∷◌, Some, true, false, IfOk, OnOk, codes, map};
ghost use Rattle.std.specs.Option.{option_copied};
ghost use Rattle.ep_audit.specs.Faults.{fault_of};
ghost use Rattle.ep_json.specs.Strings.{string_text};
ghost use Rattle.ep_json.specs.Values.{array, joined, member};
ghost use Rattle.ep_report_json.specs.Items.{committed_item, history_items, receipt_item};
ghost use Rattle.ep_report_json.specs.JsonReports.{accepted_json, accepted_members, closing_members, generation_members, lost_members, refusal_json, refused_members, replay_json, run_json, verdict_object};
ghost use Rattle.ep_report_json.specs.Members.{member_of};

use crate::arrays::{
    push_array_start, push_committed_items, push_history_items, push_receipt_items,
    push_refused_items,
};
use crate::items::{push_closing_value, push_contents_value};
use crate::member::Member;
use crate::members::{first_word, push_members};
use ep_audit::{AuditFault, Happening};
use ep_base::{Decree, InstanceId};
use ep_journal::Refusal;
use ep_json::{push_comma, push_name};
use ep_report::{Findings, Life, Losses, Part};
use ep_rules::Receipt;
use std::alloc::{AllocError, Global};

/// The beginning of an object that says this verdict.
pub(crate) fn begun(alloc: Global, verdict: &[u8]) -> Result<Vec<u8>, AllocError>
    ensures { IfOk result (λ t. t.items ≡ codes "{" ++ member (codes "verdict") (string_text verdict.now)) }
{
    let mut text = Vec::from_slice(alloc, b"{")?;
    push_members(
        &mut text,
        true,
        &[Member {
            name: b"verdict",
            value: Part::Text(verdict),
        }],
    )?;
    Ok(text)
}

/// Appends the end of the object, and the line feed.
pub(crate) fn push_end(text: &mut Vec<u8>) -> Result<(), AllocError>
    ensures { OnOk result (text.new.items ≡ text.old.items ++ codes "}\n") }
{
    text.extend_from_slice(b"}\n")
}

/// The object that says that the audit refuses, with these members.
pub(crate) fn refused(alloc: Global, members: &[Member<'_>]) -> Result<Vec<u8>, AllocError>
    ensures { IfOk result (λ t. t.items ≡ verdict_object (codes "refused") (map member_of members.now)) }
{
    let mut text = begun(alloc, b"refused")?;
    push_members(&mut text, false, members)?;
    push_end(&mut text)?;
    Ok(text)
}

/// Appends which generation it is, in version 3.
pub(crate) fn push_generation_members(
    text: &mut Vec<u8>,
    life: Option<&Life<'_>>,
) -> Result<(), AllocError>
    ensures { OnOk result (text.new.items ≡ text.old.items ++ joined false (generation_members (option_copied life.entry))) }
{
    let Some(life) = life else {
        return Ok(());
    };
    push_generation(text, false, life)
}

/// Appends which generation it is; these members may be the object's first.
pub(crate) fn push_generation(
    text: &mut Vec<u8>,
    is_first: bool,
    life: &Life<'_>,
) -> Result<(), AllocError>
    ensures { OnOk result (text.new.items ≡ text.old.items ++ joined is_first (generation_members (Some life.now))) }
{
    let generation = life.generation();
    push_members(
        text,
        is_first,
        &[
            Member {
                name: b"generation",
                value: Part::Number(generation.number() as u64),
            },
            Member {
                name: b"since",
                value: Part::Number(life.base_stamp()),
            },
        ],
    )
}

/// Appends the first seal and what the keys have after the history, in version 3.
fn push_closing_members(text: &mut Vec<u8>, life: Option<&Life<'_>>) -> Result<(), AllocError>
    ensures { OnOk result (text.new.items ≡ text.old.items ++ joined false (closing_members (option_copied life.entry))) }
{
    let Some(life) = life else {
        return Ok(());
    };
    push_closing(text, life)
}

/// Appends the first seal and what the keys have after the history.
pub(crate) fn push_closing(text: &mut Vec<u8>, life: &Life<'_>) -> Result<(), AllocError>
    ensures { OnOk result (text.new.items ≡ text.old.items ++ joined false (closing_members (Some life.now))) }
{
    push_comma(text, false)?;
    push_name(text, b"closed")?;
    push_closing_value(text, life.closing())?;
    push_comma(text, false)?;
    push_name(text, b"contents")?;
    push_contents_value(text, life.contents())?;
    Ok(())
}

fn push_committed(text: &mut Vec<u8>, committed: &[(InstanceId, Decree)]) -> Result<(), AllocError>
    ensures { OnOk result (text.new.items ≡ text.old.items ++ joined false (member (codes "committed") (array (map committed_item committed.now)) ∷ [])) }
{
    push_array_start(text, b"committed")?;
    push_committed_items(text, committed)?;
    text.push(b']')?;
    Ok(())
}

fn push_history(text: &mut Vec<u8>, history: &[Happening]) -> Result<(), AllocError>
    ensures { OnOk result (text.new.items ≡ text.old.items ++ joined false (member (codes "history") (array (history_items 1 history.now)) ∷ [])) }
{
    push_array_start(text, b"history")?;
    push_history_items(text, history)?;
    text.push(b']')?;
    Ok(())
}

fn push_receipts(text: &mut Vec<u8>, receipts: &[Receipt]) -> Result<(), AllocError>
    ensures { OnOk result (text.new.items ≡ text.old.items ++ joined false (member (codes "receipts") (array (map receipt_item receipts.now)) ∷ [])) }
{
    push_array_start(text, b"receipts")?;
    push_receipt_items(text, receipts)?;
    text.push(b']')?;
    Ok(())
}

fn push_refused(
    alloc: Global,
    text: &mut Vec<u8>,
    refused: &[(u32, Refusal)],
) -> Result<(), AllocError>
    ensures { OnOk result (text.new.items ≡ text.old.items ++ joined false (refused_members refused.now)) }
{
    push_array_start(text, b"refused")?;
    push_refused_items(alloc, text, refused)?;
    text.push(b']')?;
    Ok(())
}

fn push_lost(text: &mut Vec<u8>, lost: u64) -> Result<(), AllocError>
    ensures { OnOk result (text.new.items ≡ text.old.items ++ joined false (lost_members lost)) }
{
    push_members(
        text,
        false,
        &[Member {
            name: b"lost",
            value: Part::Number(lost),
        }],
    )
}

// Appends what an audit that accepts found.
fn push_found(text: &mut Vec<u8>, found: &Findings<'_>) -> Result<(), AllocError>
    ensures { OnOk result (text.new.items ≡ text.old.items ++ joined false (accepted_members (option_copied found.now.life) found.now.committed.now found.now.history.now found.now.receipts.now)) }
{
    push_generation_members(text, found.life)?;
    push_committed(text, found.committed)?;
    push_history(text, found.history)?;
    push_closing_members(text, found.life)?;
    push_receipts(text, found.receipts)?;
    Ok(())
}

/// The report of what an audit accepts, as one object: its verdict, in version 3 its generation, the committed instances with their decrees, the
/// history, in version 3 the first seal and what the keys then have, and the receipts.
pub fn accepted_json(alloc: Global, found: &Findings<'_>) -> Result<Vec<u8>, AllocError>
    ensures { IfOk result (λ t. t.items ≡ accepted_json (option_copied found.now.life) found.now.committed.now found.now.history.now found.now.receipts.now) }
{
    let mut text = begun(alloc, b"accepted")?;
    push_found(&mut text, found)?;
    push_end(&mut text)?;
    Ok(text)
}

/// The report of a script's run that the audit accepts, as one object: what `accepted_json` has, and then the lines of the script whose events were
/// refused, each with its cause, in the order given.
pub fn report_json(
    alloc: Global,
    found: &Findings<'_>,
    refused: &[(u32, Refusal)],
) -> Result<Vec<u8>, AllocError>
    ensures { IfOk result (λ t. t.items ≡ replay_json (option_copied found.now.life) found.now.committed.now found.now.history.now found.now.receipts.now refused.now) }
{
    let mut text = begun(alloc, b"accepted")?;
    push_found(&mut text, found)?;
    push_refused(alloc, &mut text, refused)?;
    push_end(&mut text)?;
    Ok(text)
}

/// The report of a run in threads that the audit accepts, as one object: what `report_json` has of the lines that were refused, and then how many
/// frames were lost.
pub fn run_report_json(
    alloc: Global,
    found: &Findings<'_>,
    losses: Losses<'_>,
) -> Result<Vec<u8>, AllocError>
    ensures { IfOk result (λ t. t.items ≡ run_json (option_copied found.now.life) found.now.committed.now found.now.history.now found.now.receipts.now losses.entry.refused.now losses.entry.lost) }
{
    let mut text = begun(alloc, b"accepted")?;
    push_found(&mut text, found)?;
    push_refused(alloc, &mut text, losses.refused)?;
    push_lost(&mut text, losses.lost)?;
    push_end(&mut text)?;
    Ok(text)
}

/// The report of what an audit refuses, as one object: its first fault, by its code and by its line.
pub fn refusal_json(alloc: Global, fault: AuditFault) -> Result<Vec<u8>, AllocError>
    ensures { IfOk result (λ t. t.items ≡ refusal_json (fault_of fault)) }
{
    let message = fault.to_string(alloc)?;
    refused(
        alloc,
        &[
            Member {
                name: b"code",
                value: Part::Text(first_word(message.as_bytes())),
            },
            Member {
                name: b"message",
                value: Part::Text(message.as_bytes()),
            },
        ],
    )
}
