//! The arrays of a report.

ghost use Rattle.std.specs.Prelude.{◌≡◌, ◌++◌, true, OnOk, codes, map};
ghost use Rattle.ep_json.specs.Values.{comma, joined, name_text};
ghost use Rattle.ep_report_json.specs.Items.{committed_item, history_items, receipt_item, refused_item};

use crate::items::{push_committed_item, push_history_item, push_receipt_item, push_refused_item};
use ep_audit::Happening;
use ep_base::{Decree, InstanceId};
use ep_journal::Refusal;
use ep_json::{push_comma, push_name};
use ep_rules::Receipt;
use std::alloc::{AllocError, Global};

/// Appends what stands before the items of an array that is a member, not the first one, with this name.
pub(crate) fn push_array_start(text: &mut Vec<u8>, name: &[u8]) -> Result<(), AllocError>
    ensures { OnOk result (text.new.items ≡ text.old.items ++ (codes "," ++ name_text name.now ++ codes "[")) }
{
    text.push(b',')?;
    push_name(text, name)?;
    text.push(b'[')?;
    Ok(())
}

/// Appends the items of the instances that are committed.
pub(crate) fn push_committed_items(
    text: &mut Vec<u8>,
    committed: &[(InstanceId, Decree)],
) -> Result<(), AllocError>
    ensures { OnOk result (text.new.items ≡ text.old.items ++ joined true (map committed_item committed.now)) }
{
    let mut at_start = true;
    for (instance, decree) in committed {
        push_comma(text, at_start)?;
        push_committed_item(text, *instance, decree)?;
        at_start = false;
    }
    Ok(())
}

/// Appends the items of the history.
pub(crate) fn push_history_items(
    text: &mut Vec<u8>,
    history: &[Happening],
) -> Result<(), AllocError>
    ensures { OnOk result (text.new.items ≡ text.old.items ++ joined true (history_items 1 history.now)) }
{
    let mut at_start = true;
    for (index, happening) in history.iter().enumerate() {
        push_comma(text, at_start)?;
        push_history_item(text, index as u64 + 1, happening)?;
        at_start = false;
    }
    Ok(())
}

/// Appends the items of the receipts.
pub(crate) fn push_receipt_items(text: &mut Vec<u8>, receipts: &[Receipt]) -> Result<(), AllocError>
    ensures { OnOk result (text.new.items ≡ text.old.items ++ joined true (map receipt_item receipts.now)) }
{
    let mut at_start = true;
    for receipt in receipts {
        push_comma(text, at_start)?;
        push_receipt_item(text, receipt)?;
        at_start = false;
    }
    Ok(())
}

/// Appends the items of the events that were refused.
pub(crate) fn push_refused_items(
    alloc: Global,
    text: &mut Vec<u8>,
    refused: &[(u32, Refusal)],
) -> Result<(), AllocError>
    ensures { OnOk result (text.new.items ≡ text.old.items ++ joined true (map refused_item refused.now)) }
{
    let mut at_start = true;
    for (line, cause) in refused {
        push_comma(text, at_start)?;
        push_refused_item(alloc, text, *line, *cause)?;
        at_start = false;
    }
    Ok(())
}
