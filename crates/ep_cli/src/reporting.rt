//! Faults on the fault output.

ghost use Rattle.std.specs.Prelude.{◌++◌};
ghost use Rattle.ep_base.specs.Devices.{Puts};
ghost use Rattle.ep_cli.specs.Lines.{command_line_refused, script_refused, bad_bundle, not_a_run, numbered};

use ep_base::{ReplicaId, Sink, WriteFailed};
use itoa::Buffer;

/// Writes that the words of the command line are refused, and why. It takes no memory.
pub fn write_words_refused<F: Sink>(why: &str, sink: &mut F) -> Result<(), WriteFailed>
    ensures { Puts (F.held sink.old) (F.held sink.new) (F.has_failed sink.old) (F.has_failed sink.new) result (command_line_refused ++ why.now) }
{
    sink.put(b"command line refused\n")?;
    sink.put(why.as_bytes())
}

/// Writes that a script is refused at this line, its first at fault. It takes no memory.
pub fn write_script_refused<F: Sink>(line: u32, sink: &mut F) -> Result<(), WriteFailed>
    ensures { Puts (F.held sink.old) (F.held sink.new) (F.has_failed sink.old) (F.has_failed sink.new) result (script_refused line) }
{
    write_number(b"script refused at line ", line as u64, b"\n", sink)
}

/// Writes that a bundle is refused, whose field at this byte is its first at fault. It takes no memory.
pub fn write_bad_bundle<F: Sink>(offset: u64, sink: &mut F) -> Result<(), WriteFailed>
    ensures { Puts (F.held sink.old) (F.held sink.new) (F.has_failed sink.old) (F.has_failed sink.new) result (bad_bundle offset) }
{
    write_number(b"bundle refused E12 at byte ", offset, b"\n", sink)
}

/// Writes that a bundle is refused, of which this entry of the replica is the first that isn't its next step. It takes no memory.
pub fn write_not_a_run<F: Sink>(
    replica: ReplicaId,
    entry: u32,
    sink: &mut F,
) -> Result<(), WriteFailed>
    ensures { Puts (F.held sink.old) (F.held sink.new) (F.has_failed sink.old) (F.has_failed sink.new) result (not_a_run replica entry) }
{
    write_number(
        b"bundle refused E11 at replica ",
        u64::from(replica.index()),
        b" entry ",
        sink,
    )?;
    write_number(b"", u64::from(entry), b"\n", sink)
}

/// Writes a number, and what stands before and after it. It takes no memory.
pub fn write_number<F: Sink>(
    before: &[u8],
    number: u64,
    after: &[u8],
    sink: &mut F,
) -> Result<(), WriteFailed>
    ensures { Puts (F.held sink.old) (F.held sink.new) (F.has_failed sink.old) (F.has_failed sink.new) result (numbered before.now number after.now) }
{
    let mut digits = Buffer::new();
    sink.put(before)?;
    sink.put(digits.format(number).as_bytes())?;
    sink.put(after)
}
