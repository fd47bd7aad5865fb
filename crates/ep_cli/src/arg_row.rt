//! A word or an option of a command.

use crate::arg_kind::ArgKind;
use clap::ArgAction;

/// A word or an option of a command.
pub struct ArgRow {
    /// Its name. An option is written with two hyphens before it.
    pub name: &'static str,
    /// How it is written.
    pub kind: ArgKind,
    /// What is done with it: whether it may stand more than once.
    pub action: ArgAction,
    /// Whether it can't be left out.
    pub is_required: bool,
    /// What help says of it.
    pub help: &'static str,
}
