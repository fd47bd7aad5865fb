//! What the program is asked for.

use crate::form::Form;
use crate::run_options::RunOptions;
use crate::target::Target;

/// What the words of the command line ask for.
#[derive(Drop)]
pub enum Asked {
    /// To replay a script, and to print this of it.
    Replay(Emit),
    /// To run a script in threads, in this way.
    Run(RunOptions),
    /// To audit a bundle, and to say so in this form.
    Audit(Form),
    /// To upgrade a bundle to this version.
    Upgrade(Target),
    /// The program's name and its version.
    Version,
    /// Help: this text.
    Help(String),
}

/// What is printed of a run.
#[derive(Clone, Copy, Debug, PartialEq, Eq)]
pub enum Emit {
    /// The report, in this form: what is committed, the history, the receipts, and what was refused.
    Report(Form),
    /// The bundle: the journals and the receipts, as bytes.
    Bundle,
}
