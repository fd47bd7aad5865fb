//! What a generation opens with, and what began it.

ghost use Rattle.std.specs.Prelude.{◌≡◌, ◌≤◌, ◌↔◌, IsTrue, IfOk, IfErr, option_copied, length};
ghost use Rattle.ep_base.specs.Deps.{IsDeps};
ghost use Rattle.ep_opening.specs.Files.{HasItsPast, HasItsSeal, IsRuledOut};

use crate::parts_fault::PartsFault;
use ep_base::{Deps, Generation, Size, Value};
use ep_journal::{Opening, Remainder};
use std::alloc::{AllocError, Global};
use std::marker::Model;

/// What the replicas of a generation open with; the value of the seal that began the generation, where it isn't the first; and the instances that
/// the generation before executed up to that seal.
pub struct OpeningFile {
    size: Size,
    generation: Generation,
    opening: Opening,
    seal: Option<Value>,
    executed: Deps,
    // what is left of the journal that it closes
    left: Option<Remainder>,
}

// (by hand, so that no crate above proves again how the parts are dropped)
impl Drop for OpeningFile {
    fn drop(self) {
        let OpeningFile {
            size: _,
            generation: _,
            opening,
            seal,
            executed,
            left,
        } = self;
        drop(opening);
        drop(seal);
        drop(executed);
        drop(left);
    }
}

impl Model for OpeningFile {
    ghost use Rattle.ep_opening.specs.Files as files;
    ghost use Rattle.ep_opening.specs.Files.{file_code, HasItsPast, HasItsSeal};

    ghost Value = { files.File };

    ghost coded = { file_code };

    ghost view = { λ f. record { faults = f.size; generation = f.generation; opening = f.opening; seal = f.seal; executed = f.executed } };

    ghost invariant = { λ f. HasItsSeal f.generation f.seal × HasItsPast f.generation f.executed };
}

/// Whether it is so that a seal began the generation, but not the first one.
fn has_its_seal(generation: Generation, seal: &Option<Value>) -> bool
    ensures { IsTrue result ↔ HasItsSeal generation seal.now }
{
    match seal {
        None => generation.number() == 1,
        Some(_) => generation.number() > 1,
    }
}

/// Whether it is so that nothing is executed before the first generation.
fn has_its_past(generation: Generation, executed: &Deps) -> bool
    ensures { IsTrue result ↔ HasItsPast generation executed.now }
{
    generation.number() > 1 || executed.is_empty()
}

impl OpeningFile {
    /// The file of these parts. A generation but the first has the value of the seal that began it; nothing is executed before the first.
    pub fn new(
        size: Size,
        generation: Generation,
        opening: Opening,
        seal: Option<Value>,
        executed: Deps,
    ) -> Result<OpeningFile, PartsFault>
        ensures value { IfOk result (λ f. f ≡ record { faults = size; generation = generation; opening = opening; seal = seal; executed = executed }) }
        ensures seal { IfOk result (λ f. HasItsSeal generation seal) }
        ensures past { IfOk result (λ f. HasItsPast generation executed) }
        ensures err { IfErr result (λ fault. IsRuledOut fault generation seal executed) }
    {
        if !has_its_seal(generation, &seal) {
            return Err(PartsFault::Seal);
        }
        if !has_its_past(generation, &executed) {
            return Err(PartsFault::Executed);
        }
        Ok(OpeningFile {
            size,
            generation,
            opening,
            seal,
            executed,
            left: None,
        })
    }

    /// The same file, which keeps what is left of the journal that it closes.
    pub(crate) fn with(self, left: Remainder) -> OpeningFile
        ensures { result ≡ self }
    {
        let mut file = self;
        file.left = Some(left);
        file
    }

    /// Lets go what is left of the journal that it closes, if there is any, which goes with the file else.
    pub fn let_go(&mut self)
        ensures { self.new ≡ self.old }
    {
        self.left = None;
    }

    /// How many replicas the cluster has.
    pub fn size(&self) -> Size
        ensures { result ≡ self.now.faults }
    {
        self.size
    }

    /// The generation that opens so.
    pub fn generation(&self) -> Generation
        ensures { result ≡ self.now.generation }
    {
        self.generation
    }

    /// What its replicas open with.
    pub fn opening(&self) -> &Opening
        ensures { result.now ≡ self.now.opening }
    {
        &self.opening
    }

    /// Makes one listing of the opening's map, where there are layers (see `Contents::settle`). As it was at an
    /// `Err`.
    pub fn settle(&mut self) -> Result<(), AllocError>
        ensures { self.new ≡ self.old }
    {
        self.opening.settle()
    }

    /// What its replicas open with, with what was done of it, for one of them (see `Contents::hand_on`). As it was at
    /// an `Err`.
    pub fn hand_on(&mut self, alloc: Global) -> Result<Opening, AllocError>
        ensures result { IfOk result (λ o. o ≡ self.old.opening) }
        ensures same { self.new ≡ self.old }
    {
        self.opening.hand_on(alloc)
    }

    /// The value of the seal that began it; none of the first generation.
    pub fn seal(&self) -> Option<&Value>
        ensures value { option_copied result ≡ self.now.seal }
        ensures begun { HasItsSeal self.now.generation self.now.seal }
    {
        self.seal.as_ref()
    }

    /// The instances that the generation before executed up to that seal, in rising order.
    pub fn executed(&self) -> &Deps
        ensures value { result.now ≡ self.now.executed }
        ensures past { HasItsPast self.now.generation self.now.executed }
    {
        &self.executed
    }

    /// What its replicas open with, and no longer the rest.
    pub fn into_opening(self) -> Opening
        ensures { result ≡ self.opening }
    {
        let OpeningFile {
            size: _,
            generation: _,
            opening,
            seal: _,
            executed: _,
            left: _,
        } = self;
        opening
    }
}
