//! Audits of chains, whose bundles are files.

ghost use Rattle.std.specs.Prelude.{◌≡◌, ◌<◌, ◌++◌, codes, length, map, string_bytes, IfOk, IfErr, OnOk};
ghost use Rattle.ep_audit.specs.Chained.{IsChained, IsChainFault};
ghost use Rattle.ep_main.specs.Chains.{Chains, ChainsFiles, EndsOfFiles, IsFaultText, IsWritten, SaysOfChain, chain_in, chain_text, link_text};
ghost use Rattle.ep_cli.specs.Outputs.{became};
ghost use Rattle.ep_main.specs.declared.engine_fault.EngineFault.TheVariants.{Memory};

use crate::chain_files::read_links;
use crate::engine_fault::EngineFault;
use crate::form::Form;
use crate::forms::chain_refusal_in;
use crate::program::concluded;
use ep_audit::{ChainFault, ChainLink, ChainVerdictFault, Verdict, audit_chain};
use ep_base::Sink;
use ep_cli::{Made, Status, Streams, turned_away};
use ep_report::{life_of, push_link_line, reported_contents};
use ep_report_json::chain_json;
use std::alloc::{AllocError, Global};
use std::mem::forget;
use std::rt::Files;

/// Reads the files with these names, each a bundle of version 3, audits their chain, and prints what the audit says in one go. What stops it is
/// reported by one line on the fault output; where that fails, the status stays.
pub(crate) fn print_chain<R: Files + AllocGlobal, S, W: Sink, F: Sink>(
    rt: &R,
    form: Form,
    names: &[String],
    streams: &mut Streams<S, W, F>,
) -> Status
    ensures unread { streams.new.reader ≡ streams.old.reader }
    ensures chains { ChainsFiles form (map string_bytes names.now) result (became W.held W.has_failed streams.old.writer streams.new.writer) (became F.held F.has_failed streams.old.fault_writer streams.new.fault_writer) }
    ensures ends { EndsOfFiles result (became W.held W.has_failed streams.old.writer streams.new.writer) (became F.held F.has_failed streams.old.fault_writer streams.new.fault_writer) }
{
    match read_links(rt, names) {
        Ok(links) => write_chain(rt.alloc(), form, links, streams),
        Err(fault) => turned_away(fault, &mut streams.fault_writer),
    }
}

/// Writes what the audit of these says, in one go, or says what stops it.
fn write_chain<S, W: Sink, F: Sink>(
    alloc: Global,
    form: Form,
    links: Vec<ChainLink>,
    streams: &mut Streams<S, W, F>,
) -> Status
    ensures unread { streams.new.reader ≡ streams.old.reader }
    ensures chains { Chains form links.items result (became W.held W.has_failed streams.old.writer streams.new.writer) (became F.held F.has_failed streams.old.fault_writer streams.new.fault_writer) }
    ensures ends { EndsOfFiles result (became W.held W.has_failed streams.old.writer streams.new.writer) (became F.held F.has_failed streams.old.fault_writer streams.new.fault_writer) }
{
    let judged = judge_chain(alloc, form, &links);
    // The system takes memory back at the process's end, all at once.
    forget(links);
    match judged {
        Ok(judged) => write_judged(&judged, streams),
        Err(fault) => concluded(Err(fault), &mut streams.fault_writer),
    }
}

/// Writes what an audit says, in one go, or says that it failed.
fn write_judged<S, W: Sink, F: Sink>(judged: &Made, streams: &mut Streams<S, W, F>) -> Status
    ensures unread { streams.new.reader ≡ streams.old.reader }
    ensures written { IsWritten judged.now.status judged.now.text.items result (became W.held W.has_failed streams.old.writer streams.new.writer) (became F.held F.has_failed streams.old.fault_writer streams.new.fault_writer) }
{
    match streams.writer.put(judged.text.as_slice()) {
        Ok(()) => judged.status,
        Err(_) => concluded(Err(EngineFault::Write), &mut streams.fault_writer),
    }
}

/// What the audit says of the chain.
fn judge_chain(alloc: Global, form: Form, links: &[ChainLink]) -> Result<Made, EngineFault>
    ensures value { IfOk result (λ j. SaysOfChain form links.now j.status j.text.items) }
    ensures memory { IfErr result (λ e. e ≡ Memory) }
{
    match audit_chain(alloc, links) {
        Ok(verdicts) => {
            let text = reported_chain(alloc, form, links, &verdicts)?;
            forget(verdicts);
            Ok(Made {
                status: Status::Done,
                text,
            })
        }
        Err(ChainVerdictFault::Fault(place, fault)) => Ok(Made {
            status: Status::AuditRefused,
            text: refused_chain(alloc, form, links, place, &fault)?,
        }),
        Err(ChainVerdictFault::Memory) => Err(EngineFault::Memory),
    }
}

/// What is said of a chain that is accepted.
fn reported_chain(
    alloc: Global,
    form: Form,
    links: &[ChainLink],
    verdicts: &[Verdict],
) -> Result<Vec<u8>, AllocError>
    requires { length verdicts.now ≡ length links.now }
    ensures { IfOk result (λ t. t.items ≡ chain_in form links.now verdicts.now) }
{
    match form {
        Form::Lines => accepted_chain(alloc, links, verdicts),
        Form::Json => chain_json(alloc, links, verdicts),
    }
}

/// The lines of a chain that is accepted.
fn accepted_chain(
    alloc: Global,
    links: &[ChainLink],
    verdicts: &[Verdict],
) -> Result<Vec<u8>, AllocError>
    requires { length verdicts.now ≡ length links.now }
    ensures { IfOk result (λ t. t.items ≡ chain_text links.now verdicts.now) }
{
    let mut text = Vec::from_slice(alloc, b"verdict accepted\n")?;
    for place in 0..links.len() {
        push_link(alloc, &mut text, &links[place], &verdicts[place])?;
    }
    Ok(text)
}

/// Appends the line of a generation.
#[tactic(auto, using(crate::proofs::Linked::link_reported, crate::proofs::Linked::link_silent))]
fn push_link(
    alloc: Global,
    text: &mut Vec<u8>,
    link: &ChainLink,
    verdict: &Verdict,
) -> Result<(), AllocError>
    ensures { OnOk result (text.new.items ≡ text.old.items ++ link_text link.now verdict.now) }
{
    let contents = reported_contents(alloc, &link.journals, &verdict.history)?;
    let Some(life) = life_of(&link.journals, verdict.closing.as_ref(), &contents) else {
        return Ok(());
    };
    push_link_line(text, &life, verdict.committed.len(), verdict.history.len())
}

/// What is said of a chain that is refused, for this fault of the generation at this place.
fn refused_chain(
    alloc: Global,
    form: Form,
    links: &[ChainLink],
    place: usize,
    fault: &ChainFault,
) -> Result<Vec<u8>, AllocError>
    requires there { place < length links.now }
    requires fault { IsChainFault links.now place fault.now }
    ensures { IfOk result (λ t. IsFaultText form links.now t.items) }
{
    let link = &links[place];
    let text = chain_refusal_in(alloc, form, link.journals.version().generation(), fault)?;
    Ok(text)
}
