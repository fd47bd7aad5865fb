//! How a program ends that does nothing, or not what it was to do with files.

ghost use Rattle.std.specs.Prelude.{◌≡◌};
ghost use Rattle.ep_cli.specs.Endings.{Prints, ReportsWhy, TurnsAway};
ghost use Rattle.ep_cli.specs.Outputs.{became, Reported};

use crate::files_fault::FilesFault;
use crate::printout::Printout;
use crate::reporting::write_words_refused;
use crate::status::Status;
use crate::streams::Streams;
use crate::words_fault::WordsFault;
use ep_base::Sink;

/// How a program ends that does nothing. Why is reported on the fault output; where that fails, the status stays.
pub fn decline<F: Sink>(why: WordsFault, fault_writer: &mut F) -> Status
    ensures { ReportsWhy why result (became F.held F.has_failed fault_writer.old fault_writer.new) }
{
    match why {
        WordsFault::Words(text) => {
            let _ = write_words_refused(text.as_str(), fault_writer);
            Status::Refused
        }
        WordsFault::Memory => reported(b"out of memory\n", Status::OutOfMemory, fault_writer),
    }
}

/// How a program ends that can't take its files. Why is reported on the fault output; where that fails, the status stays.
pub fn turned_away<F: Sink>(fault: FilesFault, fault_writer: &mut F) -> Status
    ensures { TurnsAway fault result (became F.held F.has_failed fault_writer.old fault_writer.new) }
{
    match fault {
        FilesFault::Refused(line) => reported(&line, Status::Refused, fault_writer),
        FilesFault::ReadFailed(line) => reported(&line, Status::Failed, fault_writer),
        FilesFault::Memory => reported(b"out of memory\n", Status::OutOfMemory, fault_writer),
    }
}

/// Prints what was made of files, in one go, and reports its lines; or says why nothing is made, or that the output has failed. Where reporting
/// fails, the status stays.
pub fn put_printout<S, W: Sink, F: Sink>(
    made: Result<Printout, FilesFault>,
    streams: &mut Streams<S, W, F>,
) -> Status
    ensures { Prints made result (became W.held W.has_failed streams.old.writer streams.new.writer) (became F.held F.has_failed streams.old.fault_writer streams.new.fault_writer) }
{
    match made {
        Ok(printout) => match streams.writer.put(&printout.text) {
            Ok(()) => reported(&printout.lines, Status::Done, &mut streams.fault_writer),
            Err(_) => reported(
                b"writing failed\n",
                Status::Failed,
                &mut streams.fault_writer,
            ),
        },
        Err(fault) => turned_away(fault, &mut streams.fault_writer),
    }
}

/// Reports these lines; the status stays where that fails.
pub fn reported<F: Sink>(lines: &[u8], status: Status, fault_writer: &mut F) -> Status
    ensures status { result ≡ status }
    ensures reported { Reported (became F.held F.has_failed fault_writer.old fault_writer.new) lines.now }
{
    let _ = fault_writer.put(lines);
    status
}
