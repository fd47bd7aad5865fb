//! What came of a pump, or of a turn.

ghost use Rattle.std.specs.Prelude.{◌≡◌};
ghost use Rattle.ep_host.specs.Asking.{turn_of};

/// What came of a pump, or of a turn.
#[derive(Clone, Copy, Debug, PartialEq, Eq)]
pub enum Turn {
    /// A frame was taken, a task was used up, or an instance was executed.
    Moved,
    /// There was no frame and no task, and nothing was executed.
    Idle,
}

impl Turn {
    /// The turn that moved, or didn't.
    pub(crate) fn of(moved: bool) -> Turn
        ensures { result ≡ turn_of moved }
    {
        if moved { Turn::Moved } else { Turn::Idle }
    }
}
