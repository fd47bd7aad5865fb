//! What a C program holds of a node, of a `Patience`, and of a `Checkpoint`.
//!
//! A handle is one pointer: null, or what it stands for on the heap, which it owns. Start with `handle.rt` and specs/Held.antt.
#![tactic(auto)]

mod checkpoint_handle;
mod handle;
mod loose;
mod patience_handle;

pub use checkpoint_handle::CheckpointHandle;
pub use handle::Handle;
pub use patience_handle::PatienceHandle;
