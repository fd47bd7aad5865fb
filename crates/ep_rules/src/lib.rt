//! The rule book: what a replica knows, the definitions of its steps, and the laws of every run.
//!
//! Every crate above cites it. Its definitions, in specs/, are what the words of all contracts mean; compare them with
//! docs/PROTOCOL.md. Its code is the plain data that they speak of, and laws: public functions with empty bodies, whose
//! contracts are theorems.
//!
//! Start with specs/Phases.antt and specs/Recovery.antt (the rules), then specs/Steps.antt (one step of a replica) and
//! specs/Worlds.antt (runs). The laws are the public modules below; docs/SAFETY.md says how their proof goes.
//!
//! A rule that is changed has to be changed in the code that follows it too (`ep_phase`, `ep_prepare`), and copied by
//! tools/generate; tools/wrong-rules shows which laws a wrong one breaks.
#![tactic(auto)]

mod answers;
pub mod closing;
pub mod counts;
mod duplicate;
pub mod generations;
pub mod history;
mod led_instance;
pub mod linearizable;
pub mod machines;
pub mod merging;
mod outgoing;
mod receipt;
mod record;
pub mod safety;

pub use answers::Answers;
pub use duplicate::Duplicate;
pub use led_instance::LedInstance;
pub use outgoing::Outgoing;
pub use receipt::Receipt;
pub use record::Record;
