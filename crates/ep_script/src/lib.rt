//! Scripts of a replicated key-value core: words of bytes, lines, and whole scripts from a source.
//!
//! `ep_replay` plays what `read_script` reads, and `ep_report` prints keys and values by `push_word`. `read_run` reads what is
//! to run in threads. It keeps to docs/CLI.md, sections 3 and 4, byte for byte: a script is read whole, or its first line
//! at fault is reported.
//!
//! Start with `reader.rt` and `line.rt`, then specs/Grammar.antt and specs/Plan.antt. `Refusal` finds which word of a refused line is at
//! fault, and what may stand there: by `form.rt`, a table of the forms of lines, and by the functions that read words.
//!
//! It knows nothing of the protocol. A new line of the grammar is a case of `Line`, of `RunLine`, or of `AgendaLine` where
//! both kinds of scripts have it, with its words in specs/Grammar.antt first, and a row of `form.rt`. What lines say of the cluster and of what it opens with is a
//! script's `Head`.
#![tactic(auto)]

mod agenda_line;
mod clause;
mod form;
mod got;
mod head;
mod item_words;
mod line;
mod line_fault;
mod lines;
mod messages;
mod numbers;
mod open_head;
mod open_run;
mod opening_entries;
mod opening_line;
mod operand;
mod operands;
mod reader;
mod reading;
mod reading_head;
mod reading_replay;
mod reading_run;
mod reading_tx;
mod refusal;
mod run_line;
mod run_script;
mod script;
mod script_draft;
mod script_fault;
mod script_kind;
mod script_opening;
mod script_section;
mod section_weather;
mod stage;
mod standing;
mod tx_item;
mod tx_items;
mod weather_line;
mod weather_word;
mod why;
mod window;
mod window_line;
mod word;
mod words;

pub use agenda_line::AgendaLine;
pub use form::{COMMANDS, Form, LINES};
pub use head::Head;
pub use line::Line;
pub use lines::Lines;
pub use messages::Messages;
pub use numbers::{long_number, number, number_in};
pub use operand::Operand;
pub use reader::{read_run, read_script};
pub use refusal::Refusal;
pub use run_script::RunScript;
pub use script::Script;
pub use script_fault::ScriptFault;
pub use script_opening::ScriptOpening;
pub use script_section::ScriptSection;
pub use standing::Standing;
pub use tx_items::merging_law;
pub use weather_line::WeatherLine;
pub use weather_word::WeatherWord;
pub use why::Why;
pub use word::{push_word, read_word, word_law};
pub use words::next_word;
