//! Logs, read one after the other.

ghost use Rattle.std.specs.Prelude.{◌≡◌, ◌++◌, ◌∷◌, [], IfOk, IfErr, OnOk};
ghost use Rattle.ep_assemble.specs.Logs.{AreRead, IsLogRefused, IsNotRead, contents, of_log};
ghost use Rattle.ep_log.specs.Origins.{second};
ghost use Rattle.ep_log.specs.Reading.{IsRead};

use crate::assemble_fault::AssembleFault;
use crate::assembled::End;
use ep_journal::Journal;
use ep_log::{LogFault, Origin, ReadLog, read_log};
use std::alloc::Global;

/// What the logs hold: the journal of each, and where its whole records end.
#[derive(Drop)]
pub(crate) struct Logs {
    pub journals: Vec<Journal>,
    pub ends: Vec<End>,
}

/// Reads the logs.
pub(crate) fn read_logs(alloc: Global, logs: &[Vec<u8>]) -> Result<Logs, AssembleFault>
    ensures ok { IfOk result (λ r. AreRead (contents logs.now) r.journals.items r.ends.items) }
    ensures err { IfErr result (λ e. IsLogRefused e (contents logs.now)) }
{
    let mut journals = Vec::new(alloc);
    let mut ends = Vec::new(alloc);
    for (place, bytes) in logs.iter().enumerate() {
        let log = read_second(alloc, place, bytes)?;
        let end = End {
            whole: log.whole,
            is_torn: log.behind > 0,
        };
        journals.push(log.journal)?;
        ends.push(end)?;
    }
    Ok(Logs { journals, ends })
}

/// Reads the log at this place, which is of a replica of version 2.
fn read_second(alloc: Global, place: usize, bytes: &[u8]) -> Result<ReadLog, AssembleFault>
    ensures ok { IfOk result (λ log. IsRead second bytes.now log.version log.journal log.whole log.behind) }
    ensures err { IfErr result (λ e. IsNotRead second place bytes.now e) }
{
    let origin = Origin::second(alloc);
    read_one(alloc, place, bytes, &origin)
}

/// Reads the log at this place, which is of a replica of this origin.
pub(crate) fn read_one(
    alloc: Global,
    place: usize,
    bytes: &[u8],
    origin: &Origin,
) -> Result<ReadLog, AssembleFault>
    ensures ok { IfOk result (λ log. IsRead origin.now bytes.now log.version log.journal log.whole log.behind) }
    ensures err { IfErr result (λ e. IsNotRead origin.now place bytes.now e) }
{
    match read_log(alloc, bytes, origin) {
        Ok(log) => Ok(log),
        Err(fault) => Err(fault_of(place, fault)),
    }
}

/// The fault of the log at this place.
fn fault_of(place: usize, fault: LogFault) -> AssembleFault
    ensures { result ≡ of_log place fault }
{
    match fault {
        LogFault::Memory => AssembleFault::Memory,
        _ => AssembleFault::Log(place, fault),
    }
}
