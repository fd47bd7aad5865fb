//! Laws over the rule book, of every run; and worked runs, computed from it.
//!
//! `reads` has those of reads that write nothing. A read makes no event and no entry: F + 1 replicas are looked at, and one
//! replica answers by its map once it has executed all that was found. Start with specs/Reads.antt.
//!
//! `progress` says that nothing gets stuck. The laws of `ep_rules` say what can't happen; those here say what can: from any
//! world that a run reaches, any F + 1 replicas that can talk among themselves end each instance that is open, whatever the
//! others did before they stopped. Start with specs/Alone.antt (what live replicas can do), specs/Quiet.antt (rounds,
//! whatever the order of messages), specs/Finishing.antt (all that a command leads to, and its execution),
//! specs/Serving.antt (new commands, and seals) and specs/Named.antt (which replicas suffice).
//!
//! docs/SAFETY.md says how both proofs go.
//!
//! The rule book's maps don't compute. So specs/Rows has its modules on runs once more, word for word, over maps that are
//! plain lists, and there they do: in proofs/Rows.antt each line is an event of a worked example and what has to come of it.
//! Never edit specs/Rows but for `Maps` and `KeyMaps`: tools/generate writes the others, and the gate refuses copies that
//! differ. Rows may be added.
#![tactic(auto)]

pub mod progress;
pub mod reads;
