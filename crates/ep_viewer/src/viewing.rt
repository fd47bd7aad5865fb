//! Views of bundles.

ghost use Rattle.std.specs.Prelude.{◌≡◌, ℕ, List, Some, IfOk, IfErr, false};
ghost use Rattle.ep_base.specs.Devices.{FailsAsReported};
ghost use Rattle.ep_cli.specs.Printed.{Makes};
ghost use Rattle.ep_viewer.specs.Faults.{is_read, is_write};
ghost use Rattle.ep_viewer.specs.Views.{Does, Displays};
ghost use Rattle.ep_viewer.specs.declared.viewer_asked.ViewerAsked.TheVariants.{View as OfBundle};
ghost use Rattle.ep_viewer.specs.declared.viewer_fault.ViewerFault.TheVariants.{Memory};
ghost use Rattle.ep_viewer.specs.declared.view.View.TheVariants.{Show, Page, Sequence, Graph, Events};

use crate::parts::{HEAD, TAIL};
use crate::view::View;
use crate::viewer_fault::ViewerFault;
use ep_base::Source;
use ep_bundle::read_bundle;
use ep_cli::{Made, Status};
use ep_journal::Journals;
use ep_view::{Wanted, columns, graph, page, sequence, show, trace_events};
use std::alloc::Global;
use std::mem::forget;

/// Reads a bundle to its end, and makes this of its journals.
pub(crate) fn view_of<S: Source>(
    alloc: Global,
    view: &View,
    reader: &mut S,
) -> Result<Made, ViewerFault>
    ensures made { (zs : List ℕ) → S.left reader.old ≡ Some zs → Makes (Does (OfBundle view.now)) result zs }
    ensures read { FailsAsReported is_read result (S.has_failed reader.old) (S.has_failed reader.new) }
    ensures unwritten { IfErr result (λ e. is_write e ≡ false) }
{
    let bundle = read_bundle(alloc, reader)?;
    let text = text_of(alloc, view, &bundle.journals);
    // The system takes memory back at the process's end, all at once.
    forget(bundle);
    match text {
        Ok(text) => Ok(Made {
            text,
            status: Status::Done,
        }),
        Err(fault) => Err(fault),
    }
}

/// What is printed of the journals.
fn text_of(alloc: Global, view: &View, journals: &Journals) -> Result<Vec<u8>, ViewerFault>
    ensures reports { IfOk result (λ text. Displays view.now journals.now text.items) }
    ensures refused { IfErr result (λ e. e ≡ Memory) }
{
    match view {
        View::Show(wanted) => lines_of(alloc, wanted, journals),
        View::Columns(wanted) => columns_of(alloc, wanted, journals),
        View::Page(wanted) => page_of(alloc, wanted, journals),
        View::Sequence(wanted) => sequence_of(alloc, wanted, journals),
        View::Graph(wanted) => graph_of(alloc, wanted, journals),
        View::Events(wanted) => events_of(alloc, wanted, journals),
    }
}

/// The entries that are wanted, a line each.
fn lines_of(alloc: Global, wanted: &Wanted, journals: &Journals) -> Result<Vec<u8>, ViewerFault>
    ensures reports { IfOk result (λ text. Displays (Show wanted.now) journals.now text.items) }
    ensures refused { IfErr result (λ e. e ≡ Memory) }
{
    let part = wanted.part(alloc, journals)?;
    let text = show(alloc, journals, &part)?;
    Ok(text)
}

/// The entries that are wanted, in a column a replica.
fn columns_of(alloc: Global, wanted: &Wanted, journals: &Journals) -> Result<Vec<u8>, ViewerFault>
    ensures refused { IfErr result (λ e. e ≡ Memory) }
{
    let part = wanted.part(alloc, journals)?;
    let text = columns(alloc, journals, &part)?;
    Ok(text)
}

/// A page for a browser, of the entries that are wanted.
fn page_of(alloc: Global, wanted: &Wanted, journals: &Journals) -> Result<Vec<u8>, ViewerFault>
    ensures reports { IfOk result (λ text. Displays (Page wanted.now) journals.now text.items) }
    ensures refused { IfErr result (λ e. e ≡ Memory) }
{
    let part = wanted.part(alloc, journals)?;
    let text = page(alloc, journals, &part, HEAD, TAIL)?;
    Ok(text)
}

/// A sequence diagram of the entries that are wanted, for Mermaid.
fn sequence_of(alloc: Global, wanted: &Wanted, journals: &Journals) -> Result<Vec<u8>, ViewerFault>
    ensures reports { IfOk result (λ text. Displays (Sequence wanted.now) journals.now text.items) }
    ensures refused { IfErr result (λ e. e ≡ Memory) }
{
    let part = wanted.part(alloc, journals)?;
    let text = sequence(alloc, journals, &part)?;
    Ok(text)
}

/// The dependency graph of what the entries propose and recover that are wanted, for Graphviz.
fn graph_of(alloc: Global, wanted: &Wanted, journals: &Journals) -> Result<Vec<u8>, ViewerFault>
    ensures reports { IfOk result (λ text. Displays (Graph wanted.now) journals.now text.items) }
    ensures refused { IfErr result (λ e. e ≡ Memory) }
{
    let part = wanted.part(alloc, journals)?;
    let text = graph(alloc, journals, &part)?;
    Ok(text)
}

/// The entries that are wanted, as trace events.
fn events_of(alloc: Global, wanted: &Wanted, journals: &Journals) -> Result<Vec<u8>, ViewerFault>
    ensures reports { IfOk result (λ text. Displays (Events wanted.now) journals.now text.items) }
    ensures refused { IfErr result (λ e. e ≡ Memory) }
{
    let part = wanted.part(alloc, journals)?;
    let text = trace_events(alloc, journals, &part)?;
    Ok(text)
}
