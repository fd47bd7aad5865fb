//! Faults on the fault output.

ghost use Rattle.std.specs.Prelude.{◌≡◌, ◌++◌, codes};
ghost use Rattle.ep_base.specs.Devices.{Puts};
ghost use Rattle.ep_log.specs.declared.log_fault.LogFault.TheVariants.{Turned};
ghost use Rattle.ep_server.specs.Faults.{line_of, line_of_cut, line_of_folder, line_of_log, line_of_open, line_of_opening, line_of_place, line_of_refusal, line_of_serve, log_failed, status_of_place};
ghost use Rattle.ep_cli.specs.Causes.{cause_text};
ghost use Rattle.ep_cli.specs.Outputs.{became, Reported};
ghost use Rattle.ep_server.specs.declared.folder_fault.FolderFault.TheVariants.{NoOpening, Opening, OtherGeneration, OtherLog, OtherReference, OtherSize, Reference, ShortLog};

use crate::folder_fault::FolderFault;
use crate::server_fault::ServerFault;
use ep_base::{Sink, WriteFailed};
use ep_cli::{Status, write_number};
use ep_device::{DeviceFault, SystemFault};
use ep_folder::StartFault;
use ep_log::LogFault;
use ep_node::{Cut, OpenFault};
use ep_opening::OpeningFault;
use ep_serve::ServeFault;

/// Writes the line of a fault. It takes no memory.
pub(crate) fn write_fault<F: Sink>(fault: ServerFault, sink: &mut F) -> Result<(), WriteFailed>
    ensures { Puts (F.held sink.old) (F.held sink.new) (F.has_failed sink.old) (F.has_failed sink.new) result (line_of fault) }
{
    match fault {
        ServerFault::Open(why) => write_unopened(why, sink),
        ServerFault::Serve(why) => write_unserved(why, sink),
        ServerFault::Folder(why) => write_folder_fault(why, sink),
    }
}

fn write_unopened<F: Sink>(why: OpenFault, sink: &mut F) -> Result<(), WriteFailed>
    ensures { Puts (F.held sink.old) (F.held sink.new) (F.has_failed sink.old) (F.has_failed sink.new) result (line_of_open why) }
{
    match why {
        OpenFault::OutOfRange => sink.put(b"log refused: E3 out of range\n"),
        OpenFault::Memory => sink.put(b"out of memory\n"),
        OpenFault::Failed(cause) => write_log_failed(cause, sink),
        OpenFault::NoLog => sink.put(b"log refused: there is none\n"),
        OpenFault::LogExists => sink.put(b"log refused: there is one already\n"),
        OpenFault::OtherLog => sink.put(b"log refused: a log of another cluster or replica\n"),
        OpenFault::Log(fault) => write_bad_log(fault, sink),
        OpenFault::NotClocked(number) => write_number(
            b"log refused: entry ",
            number as u64,
            b" is not clocked\n",
            sink,
        ),
    }
}

fn write_bad_log<F: Sink>(why: LogFault, sink: &mut F) -> Result<(), WriteFailed>
    ensures { Puts (F.held sink.old) (F.held sink.new) (F.has_failed sink.old) (F.has_failed sink.new) result (line_of_log why) }
{
    match why {
        LogFault::Memory => sink.put(b"out of memory\n"),
        LogFault::NoHeader => sink.put(b"log refused: no header of a log\n"),
        LogFault::OtherVersion => sink.put(b"log refused: a log of another version\n"),
        LogFault::OtherGeneration => sink.put(b"log refused: a log of another generation\n"),
        LogFault::BadLength(at) => write_number(
            b"log refused: bad length in the record at byte ",
            at,
            b"\n",
            sink,
        ),
        LogFault::BadChecksum(at) => write_number(
            b"log refused: bad checksum in the record at byte ",
            at,
            b"\n",
            sink,
        ),
        LogFault::BadEntry(at) => write_number(
            b"log refused: no entry in the record at byte ",
            at,
            b"\n",
            sink,
        ),
        LogFault::NotNext(at) => write_number(
            b"log refused: not the next entry in the record at byte ",
            at,
            b"\n",
            sink,
        ),
        LogFault::Turned(at, by) => write_turned(at, by, sink),
    }
}

fn write_unserved<F: Sink>(why: ServeFault, sink: &mut F) -> Result<(), WriteFailed>
    ensures { Puts (F.held sink.old) (F.held sink.new) (F.has_failed sink.old) (F.has_failed sink.new) result (line_of_serve why) }
{
    match why {
        ServeFault::Memory => sink.put(b"out of memory\n"),
        ServeFault::ReadFailed => sink.put(b"reading failed\n"),
        ServeFault::BadRequest(at) => write_number(b"request refused at byte ", at, b"\n", sink),
        ServeFault::WriteFailed => sink.put(b"writing failed\n"),
        ServeFault::LogFailed(cause) => write_log_failed(cause, sink),
    }
}

/// Writes the line of a folder's fault.
pub(crate) fn write_folder_fault<F: Sink>(why: FolderFault, sink: &mut F) -> Result<(), WriteFailed>
    ensures { Puts (F.held sink.old) (F.held sink.new) (F.has_failed sink.old) (F.has_failed sink.new) result (line_of_folder why) }
{
    match why {
        FolderFault::Memory => sink.put(b"out of memory\n"),
        FolderFault::Failed(cause) => write_failure(b"folder failed: ", cause, sink),
        FolderFault::Unread(cause) => write_failure(b"opening failed: ", cause, sink),
        FolderFault::Refused(refusal) => write_refusal(refusal, sink),
        FolderFault::NoLog(generation) => write_number(
            b"folder refused: generation ",
            generation as u64,
            b" has no log; repeat the --take that was broken off, or go on with the opening of a later one by --take FILE\n",
            sink,
        ),
        FolderFault::Opening(generation, fault) => write_bad_opening(generation, fault, sink),
        FolderFault::OtherGeneration(generation, found) => {
            write_other_generation(generation, found, sink)
        }
        FolderFault::Reference(generation, fault) => write_bad_reference(generation, fault, sink),
        FolderFault::OtherReference(generation, found) => {
            write_other_reference(generation, found, sink)
        }
        FolderFault::ShortLog(generation) => write_short_log(generation, sink),
        FolderFault::OtherLog(generation) => write_other_log(generation, sink),
        FolderFault::OtherSize(generation, count) => write_other_size(generation, count, sink),
        FolderFault::NoOpening(fault) => write_no_opening(fault, sink),
        FolderFault::OtherCluster(count) => write_number(
            b"opening refused: it is for --replicas ",
            count as u64,
            b"\n",
            sink,
        ),
        FolderFault::Last => sink.put(
            b"folder refused: the last generation is closed, and there is none after it\n",
        ),
    }
}

fn write_refusal<F: Sink>(why: StartFault, sink: &mut F) -> Result<(), WriteFailed>
    ensures { Puts (F.held sink.old) (F.held sink.new) (F.has_failed sink.old) (F.has_failed sink.new) result (line_of_refusal why) }
{
    match why {
        StartFault::Empty => sink.put(
            b"folder refused: no generation is here; --new begins the first one of a new replica, --take FILE goes on with a peer's opening\n",
        ),
        StartFault::There(generation) => write_number(
            b"folder refused: generation ",
            generation as u64,
            b" is here already; --new is for a new replica\n",
            sink,
        ),
        StartFault::Left(generation) => write_number(
            b"folder refused: the replica has been in generation ",
            generation as u64,
            b", which is gone; --take FILE goes on with the opening of a later one\n",
            sink,
        ),
        StartFault::Older(generation) => write_number(
            b"opening refused: it is of an earlier generation than ",
            generation as u64,
            b", which is here; start without --take\n",
            sink,
        ),
        StartFault::Other(generation) => write_number(
            b"opening refused: generation ",
            generation as u64,
            b" has another one here; start without --take\n",
            sink,
        ),
        StartFault::Broken(generation) => write_number(
            b"folder refused: what generation ",
            generation as u64,
            b" opens with is gone, and a later one rests on it; --take FILE goes on with the opening of a later one\n",
            sink,
        ),
    }
}

fn write_opening_fault<F: Sink>(why: OpeningFault, sink: &mut F) -> Result<(), WriteFailed>
    ensures { Puts (F.held sink.old) (F.held sink.new) (F.has_failed sink.old) (F.has_failed sink.new) result (line_of_opening why) }
{
    match why {
        OpeningFault::Memory => sink.put(b"out of memory\n"),
        OpeningFault::CutShort(at) => write_number(b"cut short at byte ", at, b"\n", sink),
        OpeningFault::Damaged(at) => write_number(
            b"damaged: no digest of the bytes before it at byte ",
            at,
            b"\n",
            sink,
        ),
        OpeningFault::Wrong(at, _) => write_number(b"wrong field at byte ", at, b"\n", sink),
    }
}

/// Writes that the opening of a generation is refused, and why.
fn write_bad_opening<F: Sink>(
    generation: u32,
    why: OpeningFault,
    sink: &mut F,
) -> Result<(), WriteFailed>
    ensures { Puts (F.held sink.old) (F.held sink.new) (F.has_failed sink.old) (F.has_failed sink.new) result (line_of_folder (Opening generation why)) }
{
    write_number(
        b"folder refused: the opening of generation ",
        generation as u64,
        b": ",
        sink,
    )?;
    write_opening_fault(why, sink)
}

/// Writes that what was to be taken is refused, and why.
fn write_no_opening<F: Sink>(why: OpeningFault, sink: &mut F) -> Result<(), WriteFailed>
    ensures { Puts (F.held sink.old) (F.held sink.new) (F.has_failed sink.old) (F.has_failed sink.new) result (line_of_folder (NoOpening why)) }
{
    sink.put(b"opening refused: ")?;
    write_opening_fault(why, sink)
}

/// Writes that one generation's opening stands in the place of another's.
fn write_other_generation<F: Sink>(
    generation: u32,
    found: u32,
    sink: &mut F,
) -> Result<(), WriteFailed>
    ensures { Puts (F.held sink.old) (F.held sink.new) (F.has_failed sink.old) (F.has_failed sink.new) result (line_of_folder (OtherGeneration generation found)) }
{
    write_number(
        b"folder refused: the opening of generation ",
        generation as u64,
        b" is that of generation ",
        sink,
    )?;
    write_number(b"", found as u64, b"\n", sink)
}

/// Writes that the reference of a generation is refused, and why.
fn write_bad_reference<F: Sink>(
    generation: u32,
    why: OpeningFault,
    sink: &mut F,
) -> Result<(), WriteFailed>
    ensures { Puts (F.held sink.old) (F.held sink.new) (F.has_failed sink.old) (F.has_failed sink.new) result (line_of_folder (Reference generation why)) }
{
    write_number(
        b"folder refused: the reference of generation ",
        generation as u64,
        b": ",
        sink,
    )?;
    write_opening_fault(why, sink)
}

/// Writes that one generation's reference stands in the place of another's.
fn write_other_reference<F: Sink>(
    generation: u32,
    found: u32,
    sink: &mut F,
) -> Result<(), WriteFailed>
    ensures { Puts (F.held sink.old) (F.held sink.new) (F.has_failed sink.old) (F.has_failed sink.new) result (line_of_folder (OtherReference generation found)) }
{
    write_number(
        b"folder refused: the reference of generation ",
        generation as u64,
        b" is that of generation ",
        sink,
    )?;
    write_number(b"", found as u64, b"\n", sink)
}

/// Writes that the log of a generation has too few bytes.
fn write_short_log<F: Sink>(generation: u32, sink: &mut F) -> Result<(), WriteFailed>
    ensures { Puts (F.held sink.old) (F.held sink.new) (F.has_failed sink.old) (F.has_failed sink.new) result (line_of_folder (ShortLog generation)) }
{
    write_number(
        b"folder refused: the log of generation ",
        generation as u64,
        b" is gone or cut short, and what it leaves opens generation ",
        sink,
    )?;
    write_number(b"", generation as u64 + 1, b"\n", sink)
}

/// Writes that the log of a generation is another one.
fn write_other_log<F: Sink>(generation: u32, sink: &mut F) -> Result<(), WriteFailed>
    ensures { Puts (F.held sink.old) (F.held sink.new) (F.has_failed sink.old) (F.has_failed sink.new) result (line_of_folder (OtherLog generation)) }
{
    write_number(
        b"folder refused: the log of generation ",
        generation as u64,
        b" isn't the one that generation ",
        sink,
    )?;
    write_number(b"", generation as u64 + 1, b" opens with\n", sink)
}

/// Writes that a generation has another size.
fn write_other_size<F: Sink>(generation: u32, count: u32, sink: &mut F) -> Result<(), WriteFailed>
    ensures { Puts (F.held sink.old) (F.held sink.new) (F.has_failed sink.old) (F.has_failed sink.new) result (line_of_folder (OtherSize generation count)) }
{
    write_number(
        b"folder refused: generation ",
        generation as u64,
        b" has another size and isn't closed; go on with --replicas ",
        sink,
    )?;
    write_number(b"", count as u64, b"\n", sink)
}

/// Writes what failed, and why.
fn write_failure<F: Sink>(what: &[u8], cause: SystemFault, sink: &mut F) -> Result<(), WriteFailed>
    ensures { Puts (F.held sink.old) (F.held sink.new) (F.has_failed sink.old) (F.has_failed sink.new) result (what.now ++ cause_text cause ++ codes "\n") }
{
    sink.put(what)?;
    write_cause(cause, sink)?;
    sink.put(b"\n")
}

/// How the program ends where the folder of this name can't be had. Why is reported on the fault output; where that fails, the status stays.
pub(crate) fn write_place_fault<F: Sink>(folder: &str, why: DeviceFault, sink: &mut F) -> Status
    ensures status { result ≡ status_of_place why }
    ensures reported { Reported (became F.held F.has_failed sink.old sink.new) (line_of_place folder.now why) }
{
    match why {
        DeviceFault::Memory => {
            let _ = sink.put(b"out of memory\n");
            Status::OutOfMemory
        }
        DeviceFault::Failed(cause) => {
            let _ = write_named_fault(folder, cause, sink);
            Status::Failed
        }
    }
}

fn write_named_fault<F: Sink>(
    folder: &str,
    cause: SystemFault,
    sink: &mut F,
) -> Result<(), WriteFailed>
    ensures { Puts (F.held sink.old) (F.held sink.new) (F.has_failed sink.old) (F.has_failed sink.new) result (codes "folder failed: " ++ folder.now ++ (codes ": " ++ cause_text cause ++ codes "\n")) }
{
    sink.put(b"folder failed: ")?;
    sink.put(folder.as_bytes())?;
    write_failure(b": ", cause, sink)
}

/// Writes that the log failed, and why.
fn write_log_failed<F: Sink>(cause: SystemFault, sink: &mut F) -> Result<(), WriteFailed>
    ensures { Puts (F.held sink.old) (F.held sink.new) (F.has_failed sink.old) (F.has_failed sink.new) result (log_failed cause) }
{
    write_failure(b"log failed: ", cause, sink)
}

/// Writes why a device failed.
fn write_cause<F: Sink>(cause: SystemFault, sink: &mut F) -> Result<(), WriteFailed>
    ensures { Puts (F.held sink.old) (F.held sink.new) (F.has_failed sink.old) (F.has_failed sink.new) result (cause_text cause) }
{
    match cause {
        SystemFault::NotFound => sink.put(b"no such file or directory"),
        SystemFault::NotAllowed => sink.put(b"permission denied"),
        SystemFault::NotAFile => sink.put(b"not a regular file"),
        SystemFault::Locked => sink.put(b"another process has it open"),
        SystemFault::NoSpace => sink.put(b"no space left on device"),
        SystemFault::OverQuota => sink.put(b"disk quota exceeded"),
        SystemFault::TooLarge => sink.put(b"file too large"),
        SystemFault::ReadOnly => sink.put(b"read-only file system"),
        SystemFault::InputOutput => sink.put(b"input/output error"),
        SystemFault::NoMemory => sink.put(b"out of memory"),
        SystemFault::System(number) => write_number(b"system error ", number as u64, b"", sink),
        SystemFault::Unknown => sink.put(b"unknown error"),
    }
}

/// Writes what was cut off the log.
pub(crate) fn write_cut<F: Sink>(cut: Cut, sink: &mut F) -> Result<(), WriteFailed>
    ensures { Puts (F.held sink.old) (F.held sink.new) (F.has_failed sink.old) (F.has_failed sink.new) result (line_of_cut cut) }
{
    write_number(b"log cut at byte ", cut.at as u64, b": ", sink)?;
    write_number(
        b"",
        cut.behind as u64,
        b" bytes behind it were no whole record\n",
        sink,
    )
}

/// Writes that a record is damaged which another one says was on the disk.
fn write_turned<F: Sink>(at: u64, by: u64, sink: &mut F) -> Result<(), WriteFailed>
    ensures { Puts (F.held sink.old) (F.held sink.new) (F.has_failed sink.old) (F.has_failed sink.new) result (line_of_log (Turned at by)) }
{
    write_number(
        b"log refused: the record at byte ",
        at,
        b" is damaged, and was on the disk by the record at byte ",
        sink,
    )?;
    write_number(b"", by, b"\n", sink)
}
