//! The reports of a replicated key-value core: what the program prints of a run, byte for byte.
//!
//! `ep_main` prints them, and `ep_library` hands out what an audit says (`judging.rt`). They say what `ep_audit` finds, a verdict or a fault, and the lines that `ep_replay` and `ep_run` name as refused, each by its `Refusal`.
//! It keeps to docs/CLI.md, section 5.
//!
//! Start with `reports.rt` and specs/Reports.antt, which says the lines in order.
//!
//! Each text of a fault is written in specs/ and in code, and the check compares them: change both, and
//! docs/FORMATS.md. Those of refusals are in `ep_journal` (`step_fault.rt`).
#![tactic(auto)]

mod digest;
mod faults;
mod findings;
mod judgement;
mod judging;
mod life;
mod lines;
mod lives;
mod losses;
mod part;
mod parts;
mod reports;

pub use faults::push_chain_fault;
pub use findings::Findings;
pub use judgement::Judgement;
pub use judging::judge;
pub use life::Life;
pub use lines::{push_contents, push_digest, push_link_line};
pub use lives::{life_of, reported_contents};
pub use losses::Losses;
pub use part::Part;
pub use parts::{
    push_answer, push_command, push_deps, push_instance, push_number, push_part, push_parts,
    push_reply,
};
pub use reports::{accepted, chain_refusal, refusal, report, run_report};
