//! What would end what is open in a cluster, in lines.
//!
//! `push_endings` reads the journals of a cluster. An instance is *open* if a replica knows of it and hasn't committed it: its line
//! names f+1 replicas, and whoever reaches them can end it by recovering it. An instance is *owed* if its leader has committed it and
//! hasn't executed it: its line is the execution, or what has to be committed first.
//!
//! Start with `endings.rt` and specs/Endings.antt. That the named replicas suffice is a law,
//! as is that crashes change nothing of it: `named_suffice` of `ep_laws` and `crashes_keep_progress` of `ep_crash_laws`.
#![tactic(auto)]

mod endings;
mod named;
mod opened;
mod owed;

pub use endings::push_endings;
