//! Faults, in words.

ghost use Rattle.std.specs.Prelude.{◌≡◌, ◌++◌, OnOk, codes};
ghost use Rattle.ep_audit.specs.Faults.{fault_of, fault_text};
ghost use Rattle.ep_report.specs.Refusals.{chain_fault_text};
ghost use Rattle.ep_script.specs.Word.{word_of};

use crate::part::Part;
use crate::parts::push_parts;
use ep_audit::{AuditFault, ChainFault};
use ep_base::Key;
use std::alloc::AllocError;

/// Appends the fault, in the words of its line, without a line feed.
pub fn push_chain_fault(text: &mut Vec<u8>, fault: &ChainFault) -> Result<(), AllocError>
    ensures { OnOk result (text.new.items ≡ text.old.items ++ chain_fault_text fault.now) }
{
    match fault {
        ChainFault::Audit(fault) => push_audit_fault(text, *fault),
        ChainFault::NotConsecutive => text.extend_from_slice(b"A6 not consecutive"),
        ChainFault::OpeningDiffers(key) => push_differing(text, key),
        ChainFault::StampsGoBack => text.extend_from_slice(b"A8 stamps go back"),
        ChainFault::NotClosed => text.extend_from_slice(b"A9 not closed"),
    }
}

fn push_audit_fault(text: &mut Vec<u8>, fault: AuditFault) -> Result<(), AllocError>
    ensures { OnOk result (text.new.items ≡ text.old.items ++ fault_text (fault_of fault)) }
{
    let words = fault.to_string(*text.allocator())?;
    text.extend_from_slice(words.as_bytes())
}

fn push_differing(text: &mut Vec<u8>, key: &Key) -> Result<(), AllocError>
    ensures { OnOk result (text.new.items ≡ text.old.items ++ (codes "A7 opening differs at key " ++ word_of key.now)) }
{
    push_parts(
        text,
        &[
            Part::Text(b"A7 opening differs at key "),
            Part::Word(key.as_slice()),
        ],
    )
}
