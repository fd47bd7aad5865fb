//! The law of what F + 1 replicas can do alone, of nodes that crash and come back.

ghost use Rattle.ep_crash_laws.specs.CrashProgress.{CrashesKeepProgress};

/// Whatever crashed, and came back with what it had handed out, any F + 1 replicas can end any instance alone.
pub fn crashes_keep_progress()
    ensures { CrashesKeepProgress }
{}
