//! What is printed of a bundle.

use ep_view::Wanted;

/// What is printed of a bundle's journals.
#[derive(Drop)]
pub enum View {
    /// These entries, a line each.
    Show(Wanted),
    /// These entries, in a column a replica.
    Columns(Wanted),
    /// A page for a browser, of these entries.
    Page(Wanted),
    /// A sequence diagram of these entries, for Mermaid.
    Sequence(Wanted),
    /// The dependency graph of what these entries propose and recover, for Graphviz.
    Graph(Wanted),
    /// These entries, as trace events.
    Events(Wanted),
}
