//! How a replica starts, by what its folder has.

ghost use Rattle.std.specs.Prelude.{◌≡◌, map, IfOk};
ghost use Rattle.ep_folder.specs.Paths.{generation_in, left_in};
ghost use Rattle.ep_folder.specs.Plans.{first_of, plan};
ghost use Rattle.ep_library.specs.Planning.{fault_number, fault_status, folder_of, log_number, plan_out, wish_in};
ghost use Rattle.ep_library.specs.Planning.{Names, Plans, Starts, StartsFrom, ReportsFirst, ReportsNewest};

use crate::held_generation::HeldGeneration;
use crate::place::Place;
use crate::start_plan::StartPlan;
use crate::start_wish::StartWish;
use crate::status::{
    BROKEN, DONE, HAS_GENERATION, LEFT, MEMORY, NO_GENERATION, NONE, OLDER, OTHER_FILE,
    OUT_OF_RANGE,
};
use crate::syncing::flag;
use ep_folder::{GenerationFolder, LogStart, Plan, StartFault, Wish};
use std::alloc::{AllocError, Global};

/// What the folder of a generation has.
fn folder_of(held: &HeldGeneration) -> GenerationFolder
    ensures { result ≡ folder_of held.now }
{
    GenerationFolder {
        number: held.number,
        has_opening: held.has_opening != 0,
        has_reference: held.has_reference != 0,
        is_bound: held.is_bound != 0,
        left_for: held.left_for,
    }
}

/// What each of the folders has.
fn folders_of(alloc: Global, held: &[HeldGeneration]) -> Result<Vec<GenerationFolder>, AllocError>
    ensures { IfOk result (λ all. all.items ≡ map folder_of held.now) }
{
    let mut all = Vec::with_capacity(alloc, held.len())?;
    for one in held {
        all.push(folder_of(one))?;
    }
    Ok(all)
}

/// What a start is asked for, if it is something.
fn wish_in(wish: &StartWish) -> Option<Wish>
    ensures { result ≡ wish_in wish.now }
{
    let is_same = wish.is_same != 0;
    if wish.kind == 1 {
        Some(Wish::GoOn)
    } else if wish.kind == 2 {
        Some(Wish::New { is_same })
    } else if wish.kind == 3 {
        Some(Wish::Take {
            generation: wish.generation,
            is_same,
        })
    } else {
        None
    }
}

/// How a log is started, by a number.
fn log_number(log: LogStart) -> u8
    ensures { result ≡ log_number log }
{
    match log {
        LogStart::New => 1,
        LogStart::Either => 2,
        LogStart::Existing => 3,
    }
}

/// How a replica starts, as C has it.
fn plan_out(found: Plan) -> StartPlan
    ensures { result ≡ plan_out found }
{
    StartPlan {
        generation: found.generation,
        writes: flag(found.writes),
        log: log_number(found.log),
    }
}

/// Why a replica isn't started.
fn fault_status(fault: StartFault) -> u8
    ensures { result ≡ fault_status fault }
{
    match fault {
        StartFault::Empty => NO_GENERATION,
        StartFault::There(_) => HAS_GENERATION,
        StartFault::Left(_) => LEFT,
        StartFault::Older(_) => OLDER,
        StartFault::Other(_) => OTHER_FILE,
        StartFault::Broken(_) => BROKEN,
    }
}

/// The generation that a fault names; 0 where it names none.
fn fault_number(fault: StartFault) -> u32
    ensures { result ≡ fault_number fault }
{
    match fault {
        StartFault::Empty => 0,
        StartFault::There(number)
        | StartFault::Left(number)
        | StartFault::Older(number)
        | StartFault::Other(number)
        | StartFault::Broken(number) => number,
    }
}

/// How a replica whose folder has this starts, or why it doesn't.
fn starts(held: &[GenerationFolder], wish: Wish, reported: &mut StartPlan, place: &mut Place) -> u8
    ensures { Starts result (plan held.now wish) reported.old place.old reported.new place.new }
{
    match ep_folder::plan_for(held, wish) {
        Ok(found) => {
            *reported = plan_out(found);
            DONE
        }
        Err(fault) => {
            *place = Place {
                at: u64::from(fault_number(fault)),
                by: 0,
            };
            fault_status(fault)
        }
    }
}

/// Plans how a replica starts, by what its folder has of its generations, in any order, and by what is asked for. By
/// such a plan a replica never acts in a generation that it has left, and never begins a log that it has begun before,
/// as long as its marks are there. EP_MEMORY; EP_OUT_OF_RANGE: `kind` is none; and those by which it isn't started,
/// where `place` becomes the generation that they name: EP_NO_GENERATION, EP_HAS_GENERATION, EP_LEFT, EP_OLDER,
/// EP_OTHER_FILE.
#[unsafe(no_mangle)]
pub extern "C" fn ep_plan(
    alloc: Global,
    held: &[HeldGeneration],
    wish: &StartWish,
    plan: &mut StartPlan,
    place: &mut Place,
) -> u8
    ensures { Plans result held.now wish.now plan.old place.old plan.new place.new }
{
    let Some(wish) = wish_in(wish) else {
        return OUT_OF_RANGE;
    };
    match folders_of(alloc, held) {
        Ok(folders) => starts(&folders, wish, plan, place),
        Err(_) => MEMORY,
    }
}

/// Says which is the greatest generation of which the folder has an opening or a reference; 0 if there is none.
/// EP_MEMORY.
#[unsafe(no_mangle)]
pub extern "C" fn ep_newest(alloc: Global, held: &[HeldGeneration], newest: &mut u32) -> u8
    ensures { ReportsNewest result held.now newest.old newest.new }
{
    match folders_of(alloc, held) {
        Ok(folders) => {
            *newest = ep_folder::newest_in(&folders);
            DONE
        }
        Err(_) => MEMORY,
    }
}

/// From which generation on the logs are replayed, or which one stops that.
fn starts_from(held: &[GenerationFolder], generation: u32, first: &mut u32) -> u8
    ensures { StartsFrom result (first_of generation held.now) first.new }
{
    match ep_folder::first_of(held, generation) {
        Ok(found) => {
            *first = found;
            DONE
        }
        Err(fault) => {
            *first = fault_number(fault);
            fault_status(fault)
        }
    }
}

/// Says from which generation on logs are replayed to open this one: `first` becomes the greatest up to it whose
/// opening can be read, where those above it, up to this one, have references. EP_MEMORY; EP_BROKEN: `first` becomes
/// the generation that has neither.
#[unsafe(no_mangle)]
pub extern "C" fn ep_first(
    alloc: Global,
    held: &[HeldGeneration],
    generation: u32,
    first: &mut u32,
) -> u8
    ensures { ReportsFirst result held.now generation first.old first.new }
{
    match folders_of(alloc, held) {
        Ok(folders) => starts_from(&folders, generation, first),
        Err(_) => MEMORY,
    }
}

/// Says which generation the name of a folder spells: in decimal, without a zero in front. EP_NONE: it spells none.
#[unsafe(no_mangle)]
pub extern "C" fn ep_generation_in(name: &[u8], generation: &mut u32) -> u8
    ensures { Names result (generation_in name.now) generation.old generation.new }
{
    match ep_folder::generation_in(name) {
        Some(found) => {
            *generation = found;
            DONE
        }
        None => NONE,
    }
}

/// The later generation that the mark of this one names, by the mark's bytes. What can't be read stands for every later
/// one: 2^32 - 1.
#[unsafe(no_mangle)]
pub extern "C" fn ep_left_in(mark: &[u8], generation: u32) -> u32
    ensures { result ≡ left_in mark.now generation }
{
    ep_folder::left_in(mark, generation)
}
