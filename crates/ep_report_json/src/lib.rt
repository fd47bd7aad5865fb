//! Reports as JSON, for scripts: one object, and a line feed.
//!
//! It has what the lines of `ep_report` have, in the same order, and the same words (docs/CLI.md, section 5.3). `ep_main` prints it.
//!
//! Start with specs/JsonReports.antt, which says the members in order, and specs/Items.antt, the items of its arrays.
#![tactic(auto)]

mod arrays;
mod chains;
mod items;
mod judging;
mod member;
mod members;
mod reports;

pub use chains::{chain_json, chain_refusal_json};
pub use judging::judge_json;
pub use reports::{accepted_json, refusal_json, report_json, run_report_json};
