//! Dependency graphs for Graphviz.

ghost use Rattle.std.specs.Prelude.{◌≡◌, ◌++◌, IfOk, OnOk, codes, option_copied};
ghost use Rattle.ep_audit.specs.Tables.{agreed_in};
ghost use Rattle.ep_report.specs.Parts.{command_text, reply_text};
ghost use Rattle.ep_view.specs.Graphs.{reply_in, replied, node_start, node_text, edge_text, edges_text, lines_of, lines_in, generation_title, edition_title, graph_start, graph_text, whole_text, IsHistoryOf, IsGraph};
ghost use Rattle.ep_view.specs.Labels.{dot_words};

use crate::beginning::begun;
use crate::edges::{agreed, drawn};
use crate::editions::generation_words;
use crate::events::command_words;
use crate::labels::push_dot_words;
use crate::selection::Selection;
use ep_audit::{Happening, Summary};
use ep_base::{Command, Decree, InstanceId, Reply, Version, VersionKind};
use ep_journal::{Journals, Opening};
use ep_report::{Part, push_parts, push_reply};
use std::alloc::{AllocError, Global};

// The first reply to the instance.
fn reply_in(history: &[Happening], instance: InstanceId) -> Option<&Reply>
    ensures { option_copied result ≡ reply_in history.now instance }
{
    for happening in history {
        if happening.instance == instance {
            return Some(&happening.reply);
        }
    }
    None
}

fn reply_words(alloc: Global, reply: &Reply) -> Result<Vec<u8>, AllocError>
    ensures { IfOk result (λ words. words.items ≡ reply_text reply.now) }
{
    let mut words = Vec::new(alloc);
    push_reply(&mut words, reply)?;
    Ok(words)
}

// Appends a reply on a line of its own, if there is one.
fn push_replied(text: &mut Vec<u8>, reply: Option<&Reply>) -> Result<(), AllocError>
    ensures { OnOk result (text.new.items ≡ text.old.items ++ replied (option_copied reply.entry)) }
{
    match reply {
        None => Ok(()),
        Some(reply) => push_given_reply(text, reply),
    }
}

fn push_given_reply(text: &mut Vec<u8>, reply: &Reply) -> Result<(), AllocError>
    ensures { OnOk result (text.new.items ≡ text.old.items ++ (codes "\\n" ++ dot_words (reply_text reply.now))) }
{
    let words = reply_words(*text.allocator(), reply)?;
    text.extend_from_slice(b"\\n")?;
    push_dot_words(text, &words)
}

// Appends the beginning of an instance's node, up to its command.
fn push_node_start(text: &mut Vec<u8>, instance: InstanceId) -> Result<(), AllocError>
    ensures { OnOk result (text.new.items ≡ text.old.items ++ node_start instance) }
{
    push_parts(
        text,
        &[
            Part::Text(b"  \""),
            Part::Instance(instance),
            Part::Text(b"\" [style=solid, label=\""),
            Part::Instance(instance),
            Part::Text(b" "),
        ],
    )
}

fn push_labelled(text: &mut Vec<u8>, command: &Command) -> Result<(), AllocError>
    ensures { OnOk result (text.new.items ≡ text.old.items ++ dot_words (command_text command.now)) }
{
    let words = command_words(*text.allocator(), command)?;
    push_dot_words(text, &words)
}

// Appends the node of what is committed in the instance.
fn push_node(
    text: &mut Vec<u8>,
    instance: InstanceId,
    decree: &Decree,
    reply: Option<&Reply>,
) -> Result<(), AllocError>
    ensures { OnOk result (text.new.items ≡ text.old.items ++ node_text instance decree.now (option_copied reply.entry)) }
{
    push_node_start(text, instance)?;
    push_labelled(text, &decree.command)?;
    push_replied(text, reply)?;
    text.extend_from_slice(b"\"];\n")
}

fn push_edge(text: &mut Vec<u8>, from: InstanceId, to: InstanceId) -> Result<(), AllocError>
    ensures { OnOk result (text.new.items ≡ text.old.items ++ edge_text from to) }
{
    push_parts(
        text,
        &[
            Part::Text(b"  \""),
            Part::Instance(from),
            Part::Text(b"\" -> \""),
            Part::Instance(to),
            Part::Text(b"\";\n"),
        ],
    )
}

fn push_edges(text: &mut Vec<u8>, from: InstanceId, all: &[InstanceId]) -> Result<(), AllocError>
    ensures { OnOk result (text.new.items ≡ text.old.items ++ edges_text from all.now) }
{
    for to in all {
        push_edge(text, from, *to)?;
    }
    Ok(())
}

// Appends the node and the edges of what is committed in the instance, if something is.
fn push_lines(
    text: &mut Vec<u8>,
    journals: &Journals,
    history: &[Happening],
    kept: &[InstanceId],
    instance: InstanceId,
) -> Result<(), AllocError>
    ensures { OnOk result (text.new.items ≡ text.old.items ++ lines_of journals.now history.now kept.now instance (agreed_in journals.now instance)) }
{
    match agreed(journals, instance) {
        None => Ok(()),
        Some(decree) => {
            let all = drawn(*text.allocator(), journals, kept, decree)?;
            push_node(text, instance, decree, reply_in(history, instance))?;
            push_edges(text, instance, &all)
        }
    }
}

// Appends those of all these instances.
fn push_all(
    text: &mut Vec<u8>,
    journals: &Journals,
    history: &[Happening],
    kept: &[InstanceId],
    instances: &[InstanceId],
) -> Result<(), AllocError>
    ensures { OnOk result (text.new.items ≡ text.old.items ++ lines_in journals.now history.now kept.now instances.now) }
{
    for instance in instances {
        push_lines(text, journals, history, kept, *instance)?;
    }
    Ok(())
}

#[tactic(auto, unfolding(crate::specs::Graphs::graph_start))]
fn push_graph_start(text: &mut Vec<u8>) -> Result<(), AllocError>
    ensures { OnOk result (text.new.items ≡ text.old.items ++ graph_start) }
{
    text.extend_from_slice(
        b"digraph dependencies {\n  rankdir=BT;\n  node [shape=box, style=dashed, fontname=\"monospace\"];\n",
    )
}

fn push_generation_title(
    text: &mut Vec<u8>,
    generation: u32,
    opening: &Opening,
) -> Result<(), AllocError>
    ensures { OnOk result (text.new.items ≡ text.old.items ++ generation_title generation opening.now) }
{
    let words = generation_words(*text.allocator(), generation, opening)?;
    text.extend_from_slice(b"  labelloc=t;\n  label=\"")?;
    push_dot_words(text, &words)?;
    text.extend_from_slice(b"\";\n")
}

// Appends, in version 3, the generation and what it begins with as title.
fn push_edition_title(
    text: &mut Vec<u8>,
    version: Version,
    opening: &Opening,
) -> Result<(), AllocError>
    ensures { OnOk result (text.new.items ≡ text.old.items ++ edition_title version opening.now) }
{
    match version.kind() {
        VersionKind::V1 | VersionKind::V2 => Ok(()),
        VersionKind::V3(generation) => push_generation_title(text, generation, opening),
    }
}

// Appends the graph of these instances.
fn push_graph(
    text: &mut Vec<u8>,
    journals: &Journals,
    history: &[Happening],
    kept: &[InstanceId],
) -> Result<(), AllocError>
    ensures { OnOk result (text.new.items ≡ text.old.items ++ whole_text journals.now history.now kept.now) }
{
    push_graph_start(text)?;
    push_edition_title(text, journals.version(), journals.opening())?;
    push_all(text, journals, history, kept, kept)?;
    text.extend_from_slice(b"}\n")
}

// What the journals say of their history.
fn history_of(alloc: Global, journals: &Journals) -> Result<Vec<Happening>, AllocError>
    ensures { IfOk result (λ v. IsHistoryOf journals.now v.items) }
{
    let summary = Summary::of(alloc, journals)?;
    let Summary {
        committed,
        history,
        closing,
    } = summary;
    drop(committed);
    drop(closing);
    Ok(history)
}

// The graph of these instances, where this is the history.
fn graph_of(
    alloc: Global,
    journals: &Journals,
    history: &[Happening],
    kept: &[InstanceId],
) -> Result<Vec<u8>, AllocError>
    ensures { IfOk result (λ text. text.items ≡ whole_text journals.now history.now kept.now) }
{
    let mut text = Vec::new(alloc);
    push_graph(&mut text, journals, history, kept)?;
    Ok(text)
}

/// The dependency graph of what the journals commit, for Graphviz: in rising order the committed instances that entries propose or recover that the
/// part keeps, each with its command, the reply that its first execution reported, and an arrow to each instance that it depends on, but for those
/// that another dependency which is kept implies: one of a seq between theirs, which depends on it too. A dashed node isn't
/// committed, or isn't kept. Of journals of version 3 the title reports their generation and what they begin with. Graphviz reads the words of commands
/// and replies as they are (`are_labels`).
#[tactic(auto, using(crate::proofs::Graphed::is_graph))]
pub fn graph(alloc: Global, journals: &Journals, part: &Selection) -> Result<Vec<u8>, AllocError>
    ensures { IfOk result (λ text. IsGraph journals.now part.now text.items) }
{
    let kept = begun(alloc, journals, part)?;
    let history = history_of(alloc, journals)?;
    let text = graph_of(alloc, journals, &history, kept.as_slice());
    drop(history);
    drop(kept);
    text
}
