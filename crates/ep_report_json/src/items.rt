//! The items of a report's arrays, and the objects in it.

ghost use Rattle.std.specs.Prelude.{◌≡◌, ◌<◌, ◌^◌, ◌++◌, OnOk, length};
ghost use Rattle.std.specs.FinMap.{entries};
ghost use Rattle.std.specs.Option.{option_copied};
ghost use Rattle.ep_report_json.specs.Items.{closed_value, closing_value, committed_item, contents_value, history_item, receipt_item, refused_item};

use crate::member::Member;
use crate::members::{first_word, push_object};
use ep_audit::{Closing, Happening};
use ep_base::{Decree, InstanceId};
use ep_exec::Contents;
use ep_journal::Refusal;
use ep_report::{Part, push_digest};
use ep_rules::Receipt;
use std::alloc::{AllocError, Global};

/// Appends an instance that is committed.
pub(crate) fn push_committed_item(
    text: &mut Vec<u8>,
    instance: InstanceId,
    decree: &Decree,
) -> Result<(), AllocError>
    ensures { OnOk result (text.new.items ≡ text.old.items ++ committed_item (instance, decree.now)) }
{
    push_object(
        text,
        &[
            Member {
                name: b"instance",
                value: Part::Instance(instance),
            },
            Member {
                name: b"seq",
                value: Part::Number(decree.attrs.seq.number() as u64),
            },
            Member {
                name: b"deps",
                value: Part::Deps(&decree.attrs.deps),
            },
            Member {
                name: b"command",
                value: Part::Command(&decree.command),
            },
        ],
    )
}

/// Appends a command of the history, at this place of it.
pub(crate) fn push_history_item(
    text: &mut Vec<u8>,
    place: u64,
    happening: &Happening,
) -> Result<(), AllocError>
    ensures { OnOk result (text.new.items ≡ text.old.items ++ history_item place happening.now) }
{
    push_object(
        text,
        &[
            Member {
                name: b"place",
                value: Part::Number(place),
            },
            Member {
                name: b"instance",
                value: Part::Instance(happening.instance),
            },
            Member {
                name: b"command",
                value: Part::Command(&happening.command),
            },
            Member {
                name: b"reply",
                value: Part::Reply(&happening.reply),
            },
        ],
    )
}

/// Appends a receipt.
pub(crate) fn push_receipt_item(text: &mut Vec<u8>, receipt: &Receipt) -> Result<(), AllocError>
    ensures { OnOk result (text.new.items ≡ text.old.items ++ receipt_item receipt.now) }
{
    push_object(
        text,
        &[
            Member {
                name: b"client",
                value: Part::Number(receipt.client as u64),
            },
            Member {
                name: b"request",
                value: Part::Number(receipt.request as u64),
            },
            Member {
                name: b"instance",
                value: Part::Instance(receipt.instance),
            },
            Member {
                name: b"answer",
                value: Part::Answer(&receipt.answer),
            },
        ],
    )
}

/// Appends an event that was refused, at this line of the script.
pub(crate) fn push_refused_item(
    alloc: Global,
    text: &mut Vec<u8>,
    line: u32,
    cause: Refusal,
) -> Result<(), AllocError>
    ensures { OnOk result (text.new.items ≡ text.old.items ++ refused_item (line, cause)) }
{
    let message = cause.to_string(alloc)?;
    push_object(
        text,
        &[
            Member {
                name: b"line",
                value: Part::Number(line as u64),
            },
            Member {
                name: b"code",
                value: Part::Text(first_word(message.as_bytes())),
            },
            Member {
                name: b"message",
                value: Part::Text(message.as_bytes()),
            },
        ],
    )
}

/// Appends the seal that closed the map, or that none did.
pub(crate) fn push_closing_value(
    text: &mut Vec<u8>,
    closing: Option<&Closing>,
) -> Result<(), AllocError>
    ensures { OnOk result (text.new.items ≡ text.old.items ++ closing_value (option_copied closing.entry)) }
{
    match closing {
        None => text.extend_from_slice(b"null"),
        Some(closing) => push_closed_value(text, closing),
    }
}

fn push_closed_value(text: &mut Vec<u8>, closing: &Closing) -> Result<(), AllocError>
    ensures { OnOk result (text.new.items ≡ text.old.items ++ closed_value closing.now) }
{
    push_object(
        text,
        &[
            Member {
                name: b"instance",
                value: Part::Instance(closing.instance),
            },
            Member {
                name: b"value",
                value: Part::Word(closing.value.as_slice()),
            },
            Member {
                name: b"stamp",
                value: Part::Number(closing.stamp.ticks()),
            },
        ],
    )
}

/// Appends how many keys a map has, and its digest.
pub(crate) fn push_contents_value(text: &mut Vec<u8>, contents: &Contents) -> Result<(), AllocError>
    requires { length (entries contents.now) < 2 ^ 32 }
    ensures { OnOk result (text.new.items ≡ text.old.items ++ contents_value contents.now) }
{
    let mut digest = Vec::new(*text.allocator());
    push_digest(&mut digest, contents)?;
    let listing = contents.listing()?;
    push_object(
        text,
        &[
            Member {
                name: b"keys",
                value: Part::Number(listing.entries().len() as u64),
            },
            Member {
                name: b"digest",
                value: Part::Text(digest.as_slice()),
            },
        ],
    )
}
