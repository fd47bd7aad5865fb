//! Faults by their statuses.

ghost use Rattle.std.specs.Prelude.{◌≡◌, ◌≢◌};
ghost use Rattle.ep_library.specs.Statuses.{ask_status, bundle_status, close_status, command_status, log_status, open_status, opening_status, prepare_status, start_status, succeed_status, sync_status, taking_status, report_status};

use crate::status::{
    BAD_BUNDLE, BAD_CHECKSUM, BAD_ENTRY, BAD_LENGTH, LAST_GENERATION, LENT, LOG_EXISTS, MEMORY,
    NO_HEADER, NO_LOG, NOT_A_RUN, NOT_ALL, NOT_CLOCKED, NOT_LENT, NOT_NEXT, NOT_ONE, NOT_SEALED,
    OPENING_DAMAGED, OPENING_SHORT, OPENING_WRONG, OTHER_GENERATION, OTHER_LOG, OTHER_OPENING,
    OTHER_VERSION, OUT_OF_RANGE, TURNED, UNSYNCED, UNTOLD,
};
use ep_base::CommandFault;
use ep_bundle::BundleFault;
use ep_embedded::{
    AskFault, PrepareFault, ReportFault, StartFault, SucceedFault, SyncFault, TakingFault,
};
use ep_log::LogFault;
use ep_node::{CloseFault, OpenFault};
use ep_opening::OpeningFault;

/// Why no command was made.
pub(crate) fn command_status(fault: CommandFault) -> u8
    ensures value { result ≡ command_status fault }
    ensures fault { result ≢ 0 }
{
    match fault {
        CommandFault::Memory => MEMORY,
        CommandFault::OutOfRange => OUT_OF_RANGE,
    }
}

/// Why nothing was taken.
pub(crate) fn taking_status(fault: TakingFault) -> u8
    ensures value { result ≡ taking_status fault }
    ensures fault { result ≢ 0 }
{
    match fault {
        TakingFault::Lent => LENT,
        TakingFault::Refused(refusal) => refusal.code(),
    }
}

/// Why bytes don't count as on the disk.
pub(crate) fn sync_status(fault: SyncFault) -> u8
    ensures value { result ≡ sync_status fault }
    ensures fault { result ≢ 0 }
{
    match fault {
        SyncFault::NotLent => NOT_LENT,
        SyncFault::NotAll => NOT_ALL,
    }
}

/// Why no answers are made.
pub(crate) fn prepare_status(fault: PrepareFault) -> u8
    ensures value { result ≡ prepare_status fault }
    ensures fault { result ≢ 0 }
{
    match fault {
        PrepareFault::Memory => MEMORY,
        PrepareFault::Unlent => UNSYNCED,
        PrepareFault::Unreported => UNTOLD,
    }
}

/// Why nothing is reported.
pub(crate) fn report_status(fault: ReportFault) -> u8
    ensures value { result ≡ report_status fault }
    ensures fault { result ≢ 0 }
{
    match fault {
        ReportFault::Memory => MEMORY,
        ReportFault::Unsynced => UNSYNCED,
    }
}

/// Why a request wasn't done.
pub(crate) fn ask_status(fault: AskFault) -> u8
    ensures value { result ≡ ask_status fault }
    ensures fault { result ≢ 0 }
{
    match fault {
        AskFault::Lent => LENT,
        AskFault::Memory => MEMORY,
        AskFault::NotOne => NOT_ONE,
    }
}

/// Why there is no opening of the next generation.
pub(crate) fn close_status(fault: CloseFault) -> u8
    ensures value { result ≡ close_status fault }
    ensures fault { result ≢ 0 }
{
    match fault {
        CloseFault::Memory => MEMORY,
        CloseFault::NotSealed => NOT_SEALED,
        CloseFault::LastGeneration => LAST_GENERATION,
        // (no device fails here)
        CloseFault::Unsynced | CloseFault::Closed => UNSYNCED,
    }
}

/// Why no replica goes on in the next generation.
pub(crate) fn succeed_status(fault: SucceedFault) -> u8
    ensures value { result ≡ succeed_status fault }
    ensures fault { result ≢ 0 }
{
    match fault {
        SucceedFault::Memory => MEMORY,
        SucceedFault::OutOfRange => OUT_OF_RANGE,
        SucceedFault::NotSealed => NOT_SEALED,
        SucceedFault::LastGeneration => LAST_GENERATION,
        SucceedFault::Unsynced => UNSYNCED,
        SucceedFault::Log(fault) => open_status(fault),
    }
}

/// Why a log isn't read.
fn log_status(fault: LogFault) -> u8
    ensures value { result ≡ log_status fault }
    ensures fault { result ≢ 0 }
{
    match fault {
        LogFault::Memory => MEMORY,
        LogFault::NoHeader => NO_HEADER,
        LogFault::OtherVersion => OTHER_VERSION,
        LogFault::OtherGeneration => OTHER_GENERATION,
        LogFault::BadLength(_) => BAD_LENGTH,
        LogFault::BadChecksum(_) => BAD_CHECKSUM,
        LogFault::BadEntry(_) => BAD_ENTRY,
        LogFault::NotNext(_) => NOT_NEXT,
        LogFault::Turned(_, _) => TURNED,
    }
}

/// Why a log isn't begun, or gone on from.
fn open_status(fault: OpenFault) -> u8
    ensures value { result ≡ open_status fault }
    ensures fault { result ≢ 0 }
{
    match fault {
        OpenFault::OutOfRange => OUT_OF_RANGE,
        // (what stands in for a device is memory)
        OpenFault::Memory | OpenFault::Failed(_) => MEMORY,
        OpenFault::NoLog => NO_LOG,
        OpenFault::LogExists => LOG_EXISTS,
        OpenFault::OtherLog => OTHER_LOG,
        OpenFault::Log(fault) => log_status(fault),
        OpenFault::NotClocked(_) => NOT_CLOCKED,
    }
}

/// Why an opening isn't read.
pub(crate) fn opening_status(fault: OpeningFault) -> u8
    ensures value { result ≡ opening_status fault }
    ensures fault { result ≢ 0 }
{
    match fault {
        OpeningFault::Memory => MEMORY,
        OpeningFault::CutShort(_) => OPENING_SHORT,
        OpeningFault::Damaged(_) => OPENING_DAMAGED,
        OpeningFault::Wrong(_, _) => OPENING_WRONG,
    }
}

/// Why no replica was opened.
pub(crate) fn start_status(fault: StartFault) -> u8
    ensures value { result ≡ start_status fault }
    ensures fault { result ≢ 0 }
{
    match fault {
        StartFault::Memory => MEMORY,
        StartFault::Opening(fault) => opening_status(fault),
        StartFault::OtherSize(_) => OTHER_OPENING,
        StartFault::Log(fault) => open_status(fault),
    }
}

/// Why bytes aren't a bundle.
pub(crate) fn bundle_status(fault: BundleFault) -> u8
    ensures value { result ≡ bundle_status fault }
    ensures fault { result ≢ 0 }
{
    match fault {
        // (a slice never fails)
        BundleFault::Memory | BundleFault::ReadFailed => MEMORY,
        BundleFault::BadBundle(_) => BAD_BUNDLE,
        BundleFault::NotARun(_, _) => NOT_A_RUN,
    }
}
