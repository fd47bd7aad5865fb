//! The folder of a replica that lives through generations.
//!
//! FOLDER/G has what the replica has of generation G: `opening`, the file that the generation opens with, or `reference`, which names the log before it that
//! leaves the opening, or both, and `whole`, which says that they stand for one another; `log`; and `left`, the mark that says
//! that the replica has begun the log of a later generation, and which. A start reads what is there (`look`), and `plan_for` says in which
//! generation it goes on, whether an opening is written first, and whether a log may be begun: never in a generation that was left, and never a
//! log that was begun before.
//!
//! Start with `planning.rt` and specs/Plans.antt; then `making.rt`. What files do no contract can say; docs/FORMATS.md, section 13, and rows of
//! .ci/disks/runs.py do.
#![tactic(auto)]

mod generation_folder;
mod log_start;
mod looking;
mod making;
mod named;
mod paths;
mod plan;
mod planning;
mod start_fault;
mod wish;

pub use generation_folder::GenerationFolder;
pub use log_start::LogStart;
pub use looking::{has_generations, has_log, look, read_bytes};
pub use making::{leave_earlier, lock_folder, make_folder, make_place, write_whole};
pub use named::{generation_in, left_in};
pub use paths::{
    binding_path, file_path, generation_path, log_path, mark_path, opening_path, reference_path,
};
pub use plan::Plan;
pub use planning::{first_of, is_referred, newest_in, plan_for};
pub use start_fault::StartFault;
pub use wish::Wish;
