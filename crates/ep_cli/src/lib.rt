//! What the programs share: their commands, words and files, the standard streams, the lines of their faults and how they end, and what contracts
//! say of their outputs.
//!
//! Each program is its table of commands above it. Start with `streams.rt` and specs/Outputs.antt (what was written, and which device
//! failed), and specs/Lines.antt, which says each line, as docs/CLI.md, section 6, lists them.
#![tactic(auto)]

mod arg_kind;
mod arg_row;
mod arguments;
mod buffered;
mod causes;
mod command_row;
mod commands;
mod endings;
mod files;
mod files_fault;
mod made;
mod printing;
mod printout;
mod reporting;
mod status;
mod streams;
mod words_fault;

pub use arg_kind::ArgKind;
pub use arg_row::ArgRow;
pub use arguments::words;
pub use buffered::{Buffered, read_ahead};
pub use causes::{push_cause, push_number};
pub use command_row::CommandRow;
pub use commands::program;
pub use endings::{decline, put_printout, reported, turned_away};
pub use files::{read_file, read_files, unread};
pub use files_fault::FilesFault;
pub use made::Made;
pub use printing::{put_made, put_text};
pub use printout::Printout;
pub use reporting::{
    write_bad_bundle, write_not_a_run, write_number, write_script_refused, write_words_refused,
};
pub use status::Status;
pub use streams::Streams;
pub use words_fault::WordsFault;
