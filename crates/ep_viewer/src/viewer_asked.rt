//! What the program is asked for.

use crate::view::View;

/// What the words of the command line ask for.
#[derive(Drop)]
pub enum ViewerAsked {
    /// To print this of a bundle.
    View(View),
    /// To trace a script's replay.
    Trace,
    /// To explain why a bundle or a script is refused.
    Explain,
    /// The program's name and its version.
    Version,
    /// Help: this text.
    Help(String),
}
