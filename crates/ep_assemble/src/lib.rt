//! The logs of a cluster, in any order, made into one bundle with files of receipts, or shown: from bytes to bytes.
//!
//! `epaxos collect` calls it, of the logs of replicas of version 2 (`assemble`), and of those of a generation, each with its opening file
//! (`assemble_generation`). `collect` answers `Journals` exactly where there is one journal for each replica of one cluster, of one version.
//! `epaxos contents` calls it of the newest generation in the folder of a node: `show_map` reads an opening file and the log beside it, and
//! answers the lines of docs/CLI.md, section 6.3. A log or a file of receipts whose end is torn is taken up to it, which is reported; whatever
//! else is wrong is reported as the first fault, by the names of the files in `collect_files`, `collect_generation` and `show_files`.
//!
//! Start with `assembling.rt` and specs/Logs.antt: `IsAssembled`, `IsRefused`; specs/Clusters.antt: `AreOfOne`, `Collects`; then
//! specs/Receipts.antt, `Hold`; then `generation.rt` and specs/Generations.antt: `IsAssembledOf`, `IsRefusedIn`; and `showing.rt` and
//! specs/Shown.antt.
#![tactic(auto)]

mod assemble_fault;
mod assembled;
mod assembling;
mod checking;
mod collect_fault;
mod collecting;
mod differing;
mod files;
mod firsts;
mod generation;
mod generation_fault;
mod generation_files;
mod generation_lines;
mod generation_names;
mod kept;
mod lines;
mod logs;
mod map_files;
mod map_lines;
mod opened_cluster;
mod opened_log;
mod opened_names;
mod openings;
mod ordering;
mod plain_lines;
mod receipts;
mod show_fault;
mod showing;
mod shown;

pub use assemble_fault::AssembleFault;
pub use assembled::{Assembled, End};
pub use assembling::assemble;
pub use collect_fault::CollectFault;
pub use collecting::collect;
pub use differing::Differing;
pub use files::collect_files;
pub use firsts::first_file;
pub use generation::assemble_generation;
pub use generation_fault::GenerationFault;
pub use generation_files::{collect_generation, read_opened_log, read_present};
pub use generation_lines::push_named;
pub use generation_names::GenerationNames;
pub use map_files::show_files;
pub use opened_log::OpenedLog;
pub use opened_names::OpenedNames;
pub use show_fault::ShowFault;
pub use showing::show_map;
pub use shown::Shown;
