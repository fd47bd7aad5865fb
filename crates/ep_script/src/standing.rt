//! Where lines may stand.

/// Where a line, or a command, may stand.
#[derive(Clone, Copy, Debug, PartialEq, Eq)]
pub enum Standing {
    /// Before all other lines.
    First,
    /// Behind that one.
    Second,
    /// Behind the line of a generation, before lines of other kinds.
    Opening,
    /// In each script, behind its head.
    All,
    /// In each script of version 3, behind its head.
    Late,
    /// In scripts for a replay, behind their heads.
    Replay,
    /// In scripts for a run, behind their heads.
    Run,
}
