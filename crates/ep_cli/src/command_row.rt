//! A command.

use crate::arg_row::ArgRow;

/// A command, as its help has it.
#[derive(Drop)]
pub struct CommandRow {
    /// Its name.
    pub name: &'static str,
    /// What it does.
    pub about: &'static str,
    /// What its help says at the end.
    pub after_help: &'static str,
    /// Its words and options.
    pub args: &'static [ArgRow],
    /// Those that follow, which other commands may have too.
    pub more: &'static [ArgRow],
}
