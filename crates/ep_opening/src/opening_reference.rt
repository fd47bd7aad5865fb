//! What a generation opens with, by name.

ghost use Rattle.std.specs.Prelude.{◌≡◌, ◌≤◌, ◌↔◌, IsOk, IfOk};
ghost use Rattle.ep_opening.specs.References.{least_log};

use ep_base::{Generation, OutOfRange, Size};
use std::marker::Model;

/// How many bytes the least log has: its header alone.
const LEAST_LOG: u64 = 43;

/// What a generation opens with, by name: what the first bytes of the log of the generation before leave, so many of them, which have this SHA-256.
#[derive(Drop)]
pub struct OpeningReference {
    size: Size,
    generation: Generation,
    length: u64,
    sum: [u8; 32],
}

impl Model for OpeningReference {
    ghost use Rattle.ep_opening.specs.References as references;
    ghost use Rattle.ep_opening.specs.References.{reference_code, IsReference};

    ghost Value = { references.Reference };

    ghost coded = { reference_code };

    ghost view = { λ r. record { faults = r.size; generation = r.generation; length = r.length; sum = r.sum } };

    ghost invariant = { λ r. IsReference (record { faults = r.size; generation = r.generation; length = r.length; sum = r.sum }) };
}

impl OpeningReference {
    ghost use Rattle.ep_opening.specs.References.{IsReference};

    /// The reference of this generation, from 2, of a cluster of this size, to a log of so many bytes, from 43, which have this SHA-256.
    pub fn new(
        size: Size,
        generation: Generation,
        length: u64,
        sum: [u8; 32],
    ) -> Result<OpeningReference, OutOfRange>
        ensures in_range { IsOk result ↔ ((2 ≤ generation) × (least_log ≤ length)) }
        ensures value { IfOk result (λ r. r ≡ record { faults = size; generation = generation; length = length; sum = sum }) }
    {
        let _faults = size.faults();
        if generation.number() < 2 || length < LEAST_LOG {
            return Err(OutOfRange);
        }
        Ok(OpeningReference {
            size,
            generation,
            length,
            sum,
        })
    }

    /// Its parts are in their ranges: a law, which costs nothing.
    pub fn is_one(&self)
        ensures { IsReference self.now }
    {
        let _length = &self.length;
    }

    /// How many replicas the generation's cluster has.
    pub fn size(&self) -> Size
        ensures { result ≡ self.now.faults }
    {
        self.size
    }

    /// The generation that opens so, from 2.
    pub fn generation(&self) -> Generation
        ensures { result ≡ self.now.generation }
    {
        self.generation
    }

    /// How many bytes the log of the generation before had when that was closed.
    pub fn length(&self) -> u64
        ensures { result ≡ self.now.length }
    {
        self.length
    }

    /// The SHA-256 of these bytes.
    pub fn sum(&self) -> [u8; 32]
        ensures { result ≡ self.now.sum }
    {
        self.sum
    }
}
