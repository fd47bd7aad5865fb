//! Runs to look at: in words, and as data for tools that draw.
//!
//! - `show` and `columns` give the entries of journals in words, a line each or in a column a replica.
//! - `page` gives a page for a browser: what `show` writes, as a string of JSON between two fixed parts.
//! - `trace_events` gives JSON in the Trace Event Format, which Perfetto and chrome://tracing open.
//! - `sequence` gives a sequence diagram for Mermaid, `graph` the dependency graph of what is committed for Graphviz.
//!
//! `Selection` is which entries are asked for, `Wanted` as a command line asks. One walk (`walk.rt`) goes over them by stamp and then by replica, with a printer for
//! each format. Keys and values are printed as words of bytes, as in scripts and reports (docs/CLI.md, section 3), and quoted as each format asks: no byte of a
//! journal ends a string, a line or a tag (`ep_json`, specs/Labels.antt). What of it other views of runs need is public too.
//!
//! Start with specs/Words.antt, which says the text of a message and of an event, then `showing.rt` and specs/Lines.antt, which says a
//! line; the order of entries is `IsSchedule` of `ep_rules`, as `ep_audit` makes it.
#![tactic(auto)]

mod beginning;
mod edges;
mod editions;
mod events;
mod graphing;
mod handled;
mod labels;
mod lines;
mod messages;
mod paging;
mod selection;
mod sequence_lines;
mod sequencing;
mod showing;
mod side_by_side;
mod trace_entries;
mod trace_parts;
mod tracing;
mod walk;
mod wanted;

pub use editions::{push_edition, push_generation};
pub use events::push_event;
pub use graphing::graph;
pub use handled::Handled;
pub use labels::are_labels;
pub use lines::{push_between, push_done, push_taken, words_of};
pub use messages::{push_ballot, push_message, push_origin};
pub use paging::page;
pub use selection::Selection;
pub use sequencing::sequence;
pub use showing::{schedule, show};
pub use side_by_side::columns;
pub use tracing::trace_events;
pub use wanted::Wanted;
