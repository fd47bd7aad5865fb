//! Reports of chains.

ghost use Rattle.std.specs.Prelude.{◌≡◌, ◌++◌, ◌<◌, ◌^◌, Some, true, IfOk, OnOk, codes, length, map};
ghost use Rattle.std.specs.Option.{option_copied};
ghost use Rattle.ep_json.specs.Values.{joined};
ghost use Rattle.ep_report_json.specs.Chains.{chain_json, chain_refusal_json, life_value, link_value, link_values};
ghost use Rattle.ep_report_json.specs.JsonReports.{link_item};

use crate::arrays::push_array_start;
use crate::member::Member;
use crate::members::{first_word, push_members};
use crate::reports::{begun, push_closing, push_end, push_generation, refused};
use ep_audit::{ChainFault, ChainLink, Verdict};
use ep_json::push_comma;
use ep_report::{Life, Part, life_of, push_chain_fault, reported_contents};
use std::alloc::{AllocError, Global};

/// The report of a chain that the audit accepts, as one object with an item for each generation.
pub fn chain_json(
    alloc: Global,
    links: &[ChainLink],
    verdicts: &[Verdict],
) -> Result<Vec<u8>, AllocError>
    requires { length verdicts.now ≡ length links.now }
    ensures { IfOk result (λ t. t.items ≡ chain_json links.now verdicts.now) }
{
    let mut text = begun(alloc, b"accepted")?;
    push_array_start(&mut text, b"generations")?;
    push_link_values(alloc, &mut text, links, verdicts)?;
    text.push(b']')?;
    push_end(&mut text)?;
    Ok(text)
}

fn push_link_values(
    alloc: Global,
    text: &mut Vec<u8>,
    links: &[ChainLink],
    verdicts: &[Verdict],
) -> Result<(), AllocError>
    requires { length verdicts.now ≡ length links.now }
    ensures { OnOk result (text.new.items ≡ text.old.items ++ joined true (link_values links.now verdicts.now)) }
{
    let mut at_start = true;
    for place in 0..links.len() {
        push_comma(text, at_start)?;
        push_link_value(alloc, text, &links[place], &verdicts[place])?;
        at_start = false;
    }
    Ok(())
}

/// Appends the item of a generation; a bundle of version 1 or 2 has none.
fn push_link_value(
    alloc: Global,
    text: &mut Vec<u8>,
    link: &ChainLink,
    verdict: &Verdict,
) -> Result<(), AllocError>
    ensures { OnOk result (text.new.items ≡ text.old.items ++ link_value link.now verdict.now) }
{
    let contents = reported_contents(alloc, &link.journals, &verdict.history)?;
    let life = life_of(&link.journals, verdict.closing.as_ref(), &contents);
    push_life_value(
        text,
        life.as_ref(),
        verdict.committed.len(),
        verdict.history.len(),
    )
}

fn push_life_value(
    text: &mut Vec<u8>,
    life: Option<&Life<'_>>,
    committed: usize,
    history: usize,
) -> Result<(), AllocError>
    ensures { OnOk result (text.new.items ≡ text.old.items ++ life_value (option_copied life.entry) committed history) }
{
    match life {
        None => text.extend_from_slice(b"null"),
        Some(life) => push_link_item(text, life, committed, history),
    }
}

/// Appends the item of a generation: which one it is, how many instances it commits, how many commands its history has, the seal that closed its
/// map, or that none did, and what the keys then have.
fn push_link_item(
    text: &mut Vec<u8>,
    life: &Life<'_>,
    committed: usize,
    history: usize,
) -> Result<(), AllocError>
    ensures { OnOk result (text.new.items ≡ text.old.items ++ link_item life.now committed history) }
{
    text.push(b'{')?;
    push_generation(text, true, life)?;
    push_members(
        text,
        false,
        &[
            Member {
                name: b"committed",
                value: Part::Number(committed as u64),
            },
            Member {
                name: b"history",
                value: Part::Number(history as u64),
            },
        ],
    )?;
    push_closing(text, life)?;
    text.push(b'}')?;
    Ok(())
}

/// The report of what an audit refuses in a chain, as one object: the number of the first generation that has a fault, and its first fault, by its
/// code and by its line.
pub fn chain_refusal_json(
    alloc: Global,
    generation: u32,
    fault: &ChainFault,
) -> Result<Vec<u8>, AllocError>
    ensures { IfOk result (λ t. t.items ≡ chain_refusal_json generation fault.now) }
{
    let mut message = Vec::new(alloc);
    push_chain_fault(&mut message, fault)?;
    refused(
        alloc,
        &[
            Member {
                name: b"generation",
                value: Part::Number(generation as u64),
            },
            Member {
                name: b"code",
                value: Part::Text(first_word(message.as_slice())),
            },
            Member {
                name: b"message",
                value: Part::Text(message.as_slice()),
            },
        ],
    )
}
