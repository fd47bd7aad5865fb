//! JSON: strings, with a proof that a reader takes them for the words that they were written for, and what joins arrays and objects.
//!
//! `ep_report_json` writes reports with it, and `ep_view` pages and trace events. Start with specs/Values.antt.
#![tactic(auto)]

mod strings;
mod values;

pub use strings::push_string;
pub use values::{push_comma, push_name};
