//! The lines that are reported of logs and receipts, by the names of their files.

ghost use Rattle.std.specs.Prelude.{◌≡◌, ◌++◌, codes, decimal, map, string_bytes, OnOk};
ghost use Rattle.ep_assemble.specs.Lines.{collect_line, end_line, log_line, log_text, name_at, receipts_line, refusal_line, torn_line, torn_lines, turned_text};

use crate::assemble_fault::AssembleFault;
use crate::assembled::End;
use crate::collect_fault::CollectFault;
use ep_base::ReplicaId;
use ep_cli::push_number;
use ep_log::LogFault;
use std::alloc::AllocError;

/// Appends which bytes of a log the device has turned, by which record.
fn push_turned(at: u64, by: u64, out: &mut Vec<u8>) -> Result<(), AllocError>
    ensures { OnOk result (out.new.items ≡ out.old.items ++ turned_text at by) }
{
    push_number(b"damaged at byte ", at, out)?;
    push_number(b", which was on the disk by the record at byte ", by, out)
}

/// Appends why a log was not read.
fn push_log_text(fault: LogFault, out: &mut Vec<u8>) -> Result<(), AllocError>
    ensures { OnOk result (out.new.items ≡ out.old.items ++ log_text fault) }
{
    match fault {
        LogFault::Memory => out.extend_from_slice(b"out of memory"),
        LogFault::NoHeader => out.extend_from_slice(b"no header of a log"),
        LogFault::OtherVersion => out.extend_from_slice(b"another version"),
        LogFault::OtherGeneration => out.extend_from_slice(b"another generation"),
        LogFault::BadLength(at) => push_number(b"bad length at byte ", at, out),
        LogFault::BadChecksum(at) => push_number(b"bad checksum at byte ", at, out),
        LogFault::BadEntry(at) => push_number(b"bad entry at byte ", at, out),
        LogFault::NotNext(at) => push_number(b"not the next entry at byte ", at, out),
        LogFault::Turned(at, by) => push_turned(at, by, out),
    }
}

/// Appends the line of a log that is refused.
pub(crate) fn push_log_line(
    name: &str,
    fault: LogFault,
    out: &mut Vec<u8>,
) -> Result<(), AllocError>
    ensures { OnOk result (out.new.items ≡ out.old.items ++ log_line name.now fault) }
{
    out.extend_from_slice(b"log refused ")?;
    out.extend_from_slice(name.as_bytes())?;
    out.extend_from_slice(b": ")?;
    push_log_text(fault, out)?;
    out.extend_from_slice(b"\n")
}

/// Appends a line on a replica.
fn push_replica(replica: ReplicaId, what: &[u8], out: &mut Vec<u8>) -> Result<(), AllocError>
    ensures { OnOk result (out.new.items ≡ out.old.items ++ (codes "replica " ++ decimal replica ++ what.now)) }
{
    push_number(b"replica ", u64::from(replica.index()), out)?;
    out.extend_from_slice(what)
}

/// The name at this place.
pub(crate) fn name_of(names: &[String], place: usize) -> &str
    ensures { result.now ≡ name_at (map string_bytes names.now) place }
{
    match names.get(place) {
        Some(name) => name.as_str(),
        None => "",
    }
}

/// Appends the line of a fault of logs and of files of receipts with these names.
pub(crate) fn push_refusal(
    logs: &[String],
    receipts: &[String],
    fault: AssembleFault,
    out: &mut Vec<u8>,
) -> Result<(), AllocError>
    ensures { OnOk result (out.new.items ≡ out.old.items ++ refusal_line (map string_bytes logs.now) (map string_bytes receipts.now) fault) }
{
    match fault {
        AssembleFault::Memory => out.extend_from_slice(b"out of memory\n"),
        AssembleFault::Log(place, fault) => push_log_line(name_of(logs, place), fault, out),
        AssembleFault::Collect(fault) => push_collect(logs, &fault, out),
        AssembleFault::Receipts(place, at) => push_receipts_line(name_of(receipts, place), at, out),
        AssembleFault::TooManyReceipts => {
            out.extend_from_slice(b"receipts refused: more than 4294967295\n")
        }
    }
}

/// Appends the line of a file of receipts that is refused.
fn push_receipts_line(name: &str, at: u64, out: &mut Vec<u8>) -> Result<(), AllocError>
    ensures { OnOk result (out.new.items ≡ out.old.items ++ receipts_line name.now at) }
{
    out.extend_from_slice(b"receipts refused ")?;
    out.extend_from_slice(name.as_bytes())?;
    push_number(b": bad field at byte ", at, out)?;
    out.extend_from_slice(b"\n")
}

/// Appends the line of journals that aren't a cluster's.
fn push_collect(names: &[String], fault: &CollectFault, out: &mut Vec<u8>) -> Result<(), AllocError>
    ensures { OnOk result (out.new.items ≡ out.old.items ++ collect_line (map string_bytes names.now) fault.now) }
{
    match fault {
        CollectFault::NoJournal => out.extend_from_slice(b"no log\n"),
        CollectFault::OtherCluster(place) => push_other(name_of(names, *place), out),
        CollectFault::Twice(replica) => push_replica(*replica, b" has two logs\n", out),
        CollectFault::Missing(replica) => push_replica(*replica, b" has no log\n", out),
    }
}

/// Appends the line of a log of another cluster.
pub(crate) fn push_other(name: &str, out: &mut Vec<u8>) -> Result<(), AllocError>
    ensures { OnOk result (out.new.items ≡ out.old.items ++ (name.now ++ codes " is of another cluster\n")) }
{
    out.extend_from_slice(name.as_bytes())?;
    out.extend_from_slice(b" is of another cluster\n")
}

/// Appends the line of a torn end.
fn push_torn_line(name: &str, whole: usize, out: &mut Vec<u8>) -> Result<(), AllocError>
    ensures { OnOk result (out.new.items ≡ out.old.items ++ torn_line name.now whole) }
{
    out.extend_from_slice(b"torn end in ")?;
    out.extend_from_slice(name.as_bytes())?;
    push_number(b" after byte ", whole as u64, out)?;
    out.extend_from_slice(b"\n")
}

/// Appends the line of a log's end, where it is torn.
pub(crate) fn push_end(name: &str, end: &End, out: &mut Vec<u8>) -> Result<(), AllocError>
    ensures { OnOk result (out.new.items ≡ out.old.items ++ end_line name.now end.now) }
{
    if end.is_torn {
        push_torn_line(name, end.whole, out)
    } else {
        Ok(())
    }
}

/// Appends the lines of the ends that are torn.
pub(crate) fn push_torn(names: &[String], ends: &[End], out: &mut Vec<u8>) -> Result<(), AllocError>
    ensures { OnOk result (out.new.items ≡ out.old.items ++ torn_lines 0 (map string_bytes names.now) ends.now) }
{
    for (place, end) in ends.iter().enumerate() {
        push_end(name_of(names, place), end, out)?;
    }
    Ok(())
}
