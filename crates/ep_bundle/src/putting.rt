//! Writing numbers, the highest byte first, and runs of bytes.

ghost use Rattle.std.specs.Prelude.{List, ℕ};
ghost use Rattle.ep_base.specs.Devices.{Puts};
ghost use Rattle.ep_frame.specs.Fields.{number_bytes};

use byteorder::{BigEndian, ByteOrder};
use ep_base::{Sink, WriteFailed};

/// Writes these bytes.
pub fn put_run<K: Sink>(sink: &mut K, bytes: &[u8]) -> Result<(), WriteFailed>
    ensures { Puts (K.held sink.old) (K.held sink.new) (K.has_failed sink.old) (K.has_failed sink.new) result bytes.now }
{
    sink.put(bytes)
}

#[tactic(auto, unfolding(ep_frame::specs::Fields::number_bytes))]
/// Writes a number of one byte.
pub fn put_u8<K: Sink>(sink: &mut K, number: u8) -> Result<(), WriteFailed>
    ensures { Puts (K.held sink.old) (K.held sink.new) (K.has_failed sink.old) (K.has_failed sink.new) result (number_bytes 1 number) }
{
    put_run(sink, &[number])
}

#[tactic(auto, unfolding(ep_frame::specs::Fields::number_bytes))]
/// Writes a number of two bytes.
pub fn put_u16<K: Sink>(sink: &mut K, number: u16) -> Result<(), WriteFailed>
    ensures { Puts (K.held sink.old) (K.held sink.new) (K.has_failed sink.old) (K.has_failed sink.new) result (number_bytes 2 number) }
{
    let mut bytes = [0; 2];
    BigEndian::write_u16(&mut bytes, number);
    put_run(sink, &bytes)
}

#[tactic(auto, unfolding(ep_frame::specs::Fields::number_bytes))]
/// Writes a number of four bytes.
pub fn put_u32<K: Sink>(sink: &mut K, number: u32) -> Result<(), WriteFailed>
    ensures { Puts (K.held sink.old) (K.held sink.new) (K.has_failed sink.old) (K.has_failed sink.new) result (number_bytes 4 number) }
{
    let mut bytes = [0; 4];
    BigEndian::write_u32(&mut bytes, number);
    put_run(sink, &bytes)
}

#[tactic(auto, unfolding(ep_frame::specs::Fields::number_bytes))]
/// Writes a number of eight bytes.
pub fn put_u64<K: Sink>(sink: &mut K, number: u64) -> Result<(), WriteFailed>
    ensures { Puts (K.held sink.old) (K.held sink.new) (K.has_failed sink.old) (K.has_failed sink.new) result (number_bytes 8 number) }
{
    let mut bytes = [0; 8];
    BigEndian::write_u64(&mut bytes, number);
    put_run(sink, &bytes)
}
