//! The lines of a run over rings that their nodes refused.

ghost use Rattle.std.specs.Prelude.{◌≡◌, ℕ, ◌<◌, ◌≤◌, List, [], ◌∷◌, length, replicate, IfOk, OnOk, slice_index_or};
ghost use Rattle.ep_host.specs.Node.{Node};
ghost use Rattle.ep_host.specs.Tasks.{Use, refusals_in};
ghost use Rattle.ep_rules.specs.declared.receipt.Receipt.{Receipt};
ghost use Rattle.ep_run.specs.Asking.{asked_of, asked_by, asked_in};
ghost use Rattle.ep_run.specs.Lines.{replica_of, refused_in};
ghost use Rattle.ep_run.specs.Rings.{without_next, lines_of};
ghost use Rattle.ep_run.specs.Walks.{next_refusal, AreAt, Lists};

use crate::cursor::Cursor;
use ep_base::ReplicaId;
use ep_host::RingNode;
use ep_journal::{Refusal, StepFault};
use ep_script::{AgendaLine, ScriptSection};
use std::alloc::{AllocError, Global};

/// A cursor for each of so many nodes, before any line.
fn cursors(alloc: Global, nodes: usize) -> Result<Vec<Cursor>, AllocError>
    ensures { IfOk result (λ cursors. cursors.items ≡ replicate nodes (record { place = 0; reported = 0 })) }
{
    let mut cursors = Vec::new(alloc);
    for _ in 0..nodes {
        cursors.push(Cursor::new())?;
    }
    Ok(cursors)
}

/// The replica that the line asks.
fn replica(line: &AgendaLine) -> ReplicaId
    ensures { result ≡ replica_of line.now }
{
    match line {
        AgendaLine::Propose {
            replica,
            client: _,
            command: _,
            spared: _,
        } => *replica,
        AgendaLine::GiveUp(replica, _) => *replica,
        AgendaLine::Recover(replica, _) => *replica,
    }
}

/// Passes the replica's next line: why its node refused it, if it did.
fn pass(
    cursors: &mut [Cursor],
    nodes: &[RingNode],
    replica: ReplicaId,
) -> Result<Option<StepFault>, AllocError>
    requires { length cursors.old ≡ length nodes.now }
    ensures fault { IfOk result (λ f. (uses : ℕ → List Use) → AreAt cursors.old nodes.now uses → f ≡ next_refusal (uses replica)) }
    ensures rest { OnOk result ((uses : ℕ → List Use) → AreAt cursors.old nodes.now uses → AreAt cursors.new nodes.now (without_next replica uses)) }
{
    let place = replica.index() as usize;
    if place >= nodes.len() {
        return Ok(None);
    }
    let fault = cursors[place].pass(nodes[place].refused())?;
    Ok(fault)
}

/// Adds the line of this number if it was refused.
fn list_line(
    refused: &mut Vec<(u32, Refusal)>,
    cursors: &mut [Cursor],
    nodes: &[RingNode],
    number: u32,
    line: &AgendaLine,
) -> Result<(), AllocError>
    requires { length cursors.old ≡ length nodes.now }
    ensures { OnOk result ((ps : List ℕ) (ts : List Receipt) → Lists ((number, asked_of ps ts line.now) ∷ []) nodes.now cursors.old cursors.new refused.old.items refused.new.items) }
{
    let fault = pass(cursors, nodes, replica(line))?;
    if let Some(fault) = fault {
        refused.push((number, Refusal::Step(fault)))?;
    }
    Ok(())
}

/// Adds the refused ones of the section's lines.
fn list_section(
    refused: &mut Vec<(u32, Refusal)>,
    cursors: &mut [Cursor],
    nodes: &[RingNode],
    section: &ScriptSection,
) -> Result<(), AllocError>
    requires { length cursors.old ≡ length nodes.now }
    ensures { OnOk result ((ps : List ℕ) (ts : List Receipt) → Lists (asked_by ps ts section.now.lines) nodes.now cursors.old cursors.new refused.old.items refused.new.items) }
{
    for (number, line) in section.lines() {
        list_line(refused, cursors, nodes, *number, line)?;
    }
    Ok(())
}

/// Adds the refused ones of the sections' lines.
fn list_all(
    refused: &mut Vec<(u32, Refusal)>,
    cursors: &mut [Cursor],
    nodes: &[RingNode],
    sections: &[ScriptSection],
) -> Result<(), AllocError>
    requires { length cursors.old ≡ length nodes.now }
    ensures { OnOk result ((before : List (List Receipt)) → length before ≡ length sections.now → Lists (asked_in [] sections.now before) nodes.now cursors.old cursors.new refused.old.items refused.new.items) }
{
    for section in sections {
        list_section(refused, cursors, nodes, section)?;
    }
    Ok(())
}

/// The lines of the sections that their nodes refused, in the script's order, each with the cause.
pub(crate) fn refused_lines(
    alloc: Global,
    sections: &[ScriptSection],
    nodes: &[RingNode],
) -> Result<Vec<(u32, Refusal)>, AllocError>
    ensures { IfOk result (λ refused. (before : List (List Receipt)) (uses : ℕ → List Use) → (length before ≡ length sections.now) → ((i : ℕ) (d : Node) → i < length nodes.now → (slice_index_or nodes.now i d).refused ≡ refusals_in 0 (uses i)) → ((i : ℕ) → length nodes.now ≤ i → uses i ≡ []) → refused.items ≡ refused_in (lines_of (asked_in [] sections.now before) uses)) }
{
    let mut cursors = cursors(alloc, nodes.len())?;
    let mut refused = Vec::new(alloc);
    list_all(&mut refused, &mut cursors, nodes, sections)?;
    Ok(refused)
}
