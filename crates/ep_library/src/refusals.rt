//! Where faults are.

ghost use Rattle.std.specs.Prelude.{◌≡◌};
ghost use Rattle.ep_library.specs.Places.{log_place, open_place, opening_place, start_place, succeed_place};

use crate::place::Place;
use ep_embedded::{StartFault, SucceedFault};
use ep_log::LogFault;
use ep_node::OpenFault;
use ep_opening::OpeningFault;

/// Where a log isn't read.
fn log_place(fault: LogFault) -> Place
    ensures { result ≡ log_place fault }
{
    match fault {
        LogFault::Memory
        | LogFault::NoHeader
        | LogFault::OtherVersion
        | LogFault::OtherGeneration => Place { at: 0, by: 0 },
        LogFault::BadLength(at)
        | LogFault::BadChecksum(at)
        | LogFault::BadEntry(at)
        | LogFault::NotNext(at) => Place { at, by: 0 },
        LogFault::Turned(at, by) => Place { at, by },
    }
}

/// Where a log isn't begun, or gone on from.
fn open_place(fault: OpenFault) -> Place
    ensures { result ≡ open_place fault }
{
    match fault {
        OpenFault::OutOfRange
        | OpenFault::Memory
        | OpenFault::Failed(_)
        | OpenFault::NoLog
        | OpenFault::LogExists
        | OpenFault::OtherLog => Place { at: 0, by: 0 },
        OpenFault::Log(fault) => log_place(fault),
        OpenFault::NotClocked(number) => Place {
            at: u64::from(number),
            by: 0,
        },
    }
}

/// Where an opening isn't read.
pub(crate) fn opening_place(fault: OpeningFault) -> Place
    ensures { result ≡ opening_place fault }
{
    match fault {
        OpeningFault::Memory => Place { at: 0, by: 0 },
        OpeningFault::CutShort(at) | OpeningFault::Damaged(at) | OpeningFault::Wrong(at, _) => {
            Place { at, by: 0 }
        }
    }
}

/// Where what a replica is opened as is wrong.
pub(crate) fn start_place(fault: StartFault) -> Place
    ensures { result ≡ start_place fault }
{
    match fault {
        StartFault::Memory => Place { at: 0, by: 0 },
        StartFault::Opening(fault) => opening_place(fault),
        StartFault::OtherSize(count) => Place {
            at: u64::from(count),
            by: 0,
        },
        StartFault::Log(fault) => open_place(fault),
    }
}

/// Where the log of a replica of the next generation is wrong, if that is why there is none.
pub(crate) fn succeed_place(fault: SucceedFault) -> Option<Place>
    ensures { result ≡ succeed_place fault }
{
    match fault {
        SucceedFault::Memory
        | SucceedFault::OutOfRange
        | SucceedFault::NotSealed
        | SucceedFault::LastGeneration
        | SucceedFault::Unsynced => None,
        SucceedFault::Log(fault) => Some(open_place(fault)),
    }
}
