//! The file that a generation opens with.
//!
//! A node of a generation keeps what it opened with in a file of docs/FORMATS.md, section 12: the map and the stamp, the seal that began the
//! generation, the instances that the one before executed up to that seal, and a digest of it all, which the generation's log names. A file is
//! read exactly where its bytes are those that are written for it; other bytes are refused by the first field that is wrong, and its offset.
//!
//! A journal that has executed a seal gives the next generation's file (`closing.rt`, specs/Closing.antt).
//!
//! Start with `opening_file.rt` and specs/Bytes.antt; then `writing.rt`, and `reading.rt` with specs/Reading.antt. `SpelledFile` is a file with
//! its bytes, by its type.
//!
//! The digest is judged before all fields behind the version: a field's fault says that somebody wrote it so.
#![tactic(auto)]

mod answered;
mod binding;
mod checkpoint;
mod closing;
mod closing_fault;
mod digest;
mod front;
mod laws;
mod opening_fault;
mod opening_field;
mod opening_file;
mod opening_reference;
mod parts;
mod parts_fault;
mod past;
mod reading;
mod reference_reading;
mod reference_writing;
mod spelled_file;
mod stage;
mod stages;
mod writing;

pub use binding::write_binding;
pub use checkpoint::Checkpoint;
pub use closing::{closing_from, closing_of, next_generation};
pub use closing_fault::ClosingFault;
pub use digest::{digest_in, digest_of};
pub use laws::{
    closing_is_one, closings_agree, closings_go_on, files_are_read_back, learn_file,
    references_are_read_back,
};
pub use opening_fault::OpeningFault;
pub use opening_field::OpeningField;
pub use opening_file::OpeningFile;
pub use opening_reference::OpeningReference;
pub use parts_fault::PartsFault;
pub use reading::read_opening;
pub use reference_reading::read_reference;
pub use reference_writing::write_reference;
pub use spelled_file::SpelledFile;
pub use writing::write_opening;
