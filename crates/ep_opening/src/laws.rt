//! What is written is read back; and what files say that close journals of one generation.

ghost use Rattle.std.specs.Prelude.{◌≡◌, ◌≤◌, length};
ghost use Rattle.ep_base.specs.Deps.{IsDeps};
ghost use Rattle.ep_base.specs.Generations.{IsGeneration};
ghost use Rattle.ep_base.specs.Values.{most_value};
ghost use Rattle.ep_opening.specs.Closings.{ClosingIsOne, ClosingsAgree, ClosingsGoOn};
ghost use Rattle.ep_opening.specs.Files.{HasItsSeal, IsFile, SealFits};
ghost use Rattle.ep_opening.specs.Reading.{FilesAreReadBack};
ghost use Rattle.ep_opening.specs.ReferenceReading.{ReferencesAreReadBack};

use crate::opening_file::OpeningFile;
use ep_base::{Deps, Generation, Size, Value};
use ep_bundle::learn_opening;
use ep_exec::Listing;

fn learn_size(size: Size)
    ensures least { 1 ≤ size }
    ensures most { size ≤ 3 }
{
    let _faults = size.faults();
}

fn learn_generation(generation: Generation)
    ensures { IsGeneration generation }
{
    let _number = generation.number();
}

fn learn_value(value: &Value)
    ensures { length value.now ≤ most_value }
{
    let _len = value.len();
}

#[tactic(auto, using(crate::proofs::Known::no_seal, crate::proofs::Known::some_seal))]
pub(crate) fn learn_seal(file: &OpeningFile)
    ensures short { SealFits file.now.seal }
    ensures begun { HasItsSeal file.now.generation file.now.seal }
{
    match file.seal() {
        None => {}
        Some(value) => learn_value(value),
    }
}

fn learn_executed(executed: &Deps)
    ensures { IsDeps executed.now }
{
    let _instances = executed.as_slice();
}

/// The fields of the file are in the ranges of their types, and keep the rules of files. A law; to call it costs a
/// look at each key of its map.
pub fn learn_file(file: &OpeningFile, map: &Listing)
    requires { map.now ≡ file.now.opening.contents }
    ensures { IsFile file.now }
{
    let size = file.size();
    learn_size(size);
    let generation = file.generation();
    learn_generation(generation);
    let opening = file.opening();
    learn_opening(opening, map);
    learn_seal(file);
    let executed = file.executed();
    learn_executed(executed);
}

/// The bytes of each file are read as that file, and nothing is left.
#[tactic(auto, using(crate::proofs::WrittenFiles::files_back))]
pub fn files_are_read_back()
    ensures { FilesAreReadBack }
{}

/// Where a file closes a journal of a generation, an entry of it executed a seal, whose stamp isn't above the one that the file's clocks go on from.
///
/// So where a next generation's stamps are all above the least such stamp of its openings, its clocks go on from those of the one before.
pub fn closings_go_on()
    ensures { ClosingsGoOn }
{}

/// Two files that close journals of one generation, for a next one of one size, differ in the stamps alone that their clocks go on from.
pub fn closings_agree()
    ensures { ClosingsAgree }
{}

/// The file that closes a journal is one: who reads the journal once more and closes it has the very same opening.
#[tactic(auto, using(crate::proofs::ClosedFiles::closing_is_one_lem))]
pub fn closing_is_one()
    ensures { ClosingIsOne }
{}

/// The bytes of each reference are read as that one, and nothing is left.
#[tactic(auto, using(crate::proofs::WrittenReferences::references_back))]
pub fn references_are_read_back()
    ensures { ReferencesAreReadBack }
{}
