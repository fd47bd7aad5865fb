//! Why a bundle or a script is refused, in words.
//!
//! A program that shows bundles calls `explain`, whose first line is that of the reader or of the audit. Of a bundle
//! all faults come then, each with its reasons: what to do, what usually brings it about, what stands where, and what
//! differs. An audit stops at its first fault; `faults` of `ep_audit` finds all of them, in the audit's order. Where
//! there are none, what would end what is open is reported by `ep_ending`. Of a script the reader's line comes, and
//! which word of it is at fault, what stands there, and what may. `subcommand_of` says from the first bytes whether
//! they are a script, and for which subcommand: `Kept` is a source that can be looked at before it is read.
//!
//! Start with `explaining.rt` and specs/Explained.antt. `handled.rt` and `claims.rt` name what an audit refuses,
//! `stepping.rt` and `step.rt` of an entry that isn't its replica's next step, `bad_fields.rt` puts into
//! words which field the reader of `ep_bundle` refuses. `scripts.rt` and
//! specs/Advice.antt are of scripts: `refusals.rt` puts into words what `Refusal` of `ep_script` finds.
//!
//! Reasons are words for people. What is promised of them is where they stand, that each is one indented line, and of a script that the first
//! one names the line that the reader refuses.
#![tactic(auto)]

mod advice;
mod bad_fields;
mod claims;
mod explain_fault;
mod explained;
mod explaining;
mod finding;
mod frame_field;
mod frames;
mod guess;
mod handled;
mod kept;
mod numbers;
mod other_input;
mod reasons;
mod refusals;
mod region;
mod scripts;
mod side;
mod step;
mod stepping;
mod subcommand;
mod wording;

pub use explain_fault::ExplainFault;
pub use explained::Explained;
pub use explaining::explain;
pub use finding::Finding;
pub use kept::Kept;
