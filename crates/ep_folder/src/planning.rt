//! How a replica starts, by what its folder has.

ghost use Rattle.std.specs.Prelude.{◌≡◌, ◌-◌, ◌≤◌, ◌<◌, ◌&&◌, max, not, ltb, IfOk};
ghost use Rattle.ep_folder.specs.Plans.{begin, can_read, first_of, go_on, has_opening, is_here, is_opening_of, is_referred, is_referred_of, is_whole, is_whole_of, left_for, newest, opened_number, plan, start, take, take_again, take_later, where_unmarked, NeverGoesBack};

use crate::generation_folder::GenerationFolder;
use crate::log_start::LogStart;
use crate::plan::Plan;
use crate::start_fault::StartFault;
use crate::wish::Wish;

/// The greater one.
fn more(one: u32, other: u32) -> u32
    ensures { result ≡ max one other }
{
    if one < other { other } else { one }
}

/// Whether the generation is here.
fn is_here(held: &GenerationFolder) -> bool
    ensures { result ≡ is_here held.now }
{
    held.has_opening || held.has_reference
}

/// Whether its opening can be read.
fn is_whole(held: &GenerationFolder) -> bool
    ensures { result ≡ is_whole held.now }
{
    held.has_opening && (!held.has_reference || held.is_bound)
}

/// The generation, where it is here; else 0.
fn opened_number(held: &GenerationFolder) -> u32
    ensures { result ≡ opened_number held.now }
{
    if is_here(held) { held.number } else { 0 }
}

/// The greatest generation that is here; 0 where none is.
pub fn newest_in(held: &[GenerationFolder]) -> u32
    ensures { result ≡ newest held.now }
{
    let mut newest = 0;
    for one in held {
        newest = more(newest, opened_number(one));
    }
    newest
}

/// The greatest generation that a mark names; 0 where there is no mark.
fn left_for(held: &[GenerationFolder]) -> u32
    ensures { result ≡ left_for held.now }
{
    let mut left = 0;
    for one in held {
        left = more(left, one.left_for);
    }
    left
}

fn is_opening_of(generation: u32, held: &GenerationFolder) -> bool
    ensures { result ≡ is_opening_of generation held.now }
{
    is_here(held) && held.number == generation
}

fn is_whole_of(generation: u32, held: &GenerationFolder) -> bool
    ensures { result ≡ is_whole_of generation held.now }
{
    is_whole(held) && held.number == generation
}

fn is_referred_of(generation: u32, held: &GenerationFolder) -> bool
    ensures { result ≡ is_referred_of generation held.now }
{
    held.has_reference && held.number == generation
}

/// Whether the opening of the generation can be read.
fn can_read(generation: u32, held: &[GenerationFolder]) -> bool
    ensures { result ≡ can_read generation held.now }
{
    held.iter().any(|one| is_whole_of(generation, one))
}

/// Whether the generation has a reference here: its opening is left by the log of the generation before.
pub fn is_referred(generation: u32, held: &[GenerationFolder]) -> bool
    ensures { result ≡ is_referred generation held.now }
{
    held.iter().any(|one| is_referred_of(generation, one))
}

/// Whether the search for an opening that can be read goes on below this generation.
fn goes_below(generation: u32, held: &[GenerationFolder]) -> bool
    ensures { result ≡ (ltb 0 generation && not (can_read generation held.now) && is_referred generation held.now) }
{
    generation > 0 && !can_read(generation, held) && is_referred(generation, held)
}

/// From which generation on the logs are replayed to open this one: the greatest up to it whose opening can be read.
#[tactic(auto, using(crate::proofs::Referred::goes_on, crate::proofs::Referred::is_read, crate::proofs::Referred::is_broken))]
pub fn first_of(held: &[GenerationFolder], generation: u32) -> Result<u32, StartFault>
    ensures value { result ≡ first_of generation held.now }
    ensures reached { IfOk result (λ first. (1 ≤ first) × (first ≤ generation)) }
{
    let mut first = generation;
    while goes_below(first, held) {
        first -= 1;
    }
    if first > 0 && can_read(first, held) {
        Ok(first)
    } else {
        Err(StartFault::Broken(first))
    }
}

/// Whether the generation is here.
fn has_opening(generation: u32, held: &[GenerationFolder]) -> bool
    ensures { result ≡ has_opening generation held.now }
{
    held.iter().any(|one| is_opening_of(generation, one))
}

/// A log may be begun, where there is none, in a generation that no mark names.
fn where_unmarked(generation: u32, left: u32) -> LogStart
    ensures { result ≡ where_unmarked generation left }
{
    if generation > left {
        LogStart::Either
    } else {
        LogStart::Existing
    }
}

/// Whether the replica has been in a later generation than the newest one here.
fn is_gone(newest: u32, left: u32) -> bool
    ensures { result ≡ ltb newest left }
{
    newest < left
}

fn go_on(newest: u32, left: u32, before: bool) -> Result<Plan, StartFault>
    ensures { result ≡ go_on newest left before }
{
    if is_gone(newest, left) {
        return Err(StartFault::Left(left));
    }
    if newest == 0 {
        return Err(StartFault::Empty);
    }
    let log = if before {
        where_unmarked(newest, left)
    } else {
        LogStart::Existing
    };
    Ok(Plan {
        generation: newest,
        writes: false,
        log,
    })
}

fn begin(newest: u32, left: u32, is_same: bool) -> Result<Plan, StartFault>
    ensures { result ≡ begin newest left is_same }
{
    if is_gone(newest, left) {
        return Err(StartFault::Left(left));
    }
    if newest == 0 {
        return Ok(Plan {
            generation: 1,
            writes: true,
            log: LogStart::New,
        });
    }
    if newest == 1 && left == 0 && is_same {
        return Ok(Plan {
            generation: 1,
            writes: false,
            log: LogStart::New,
        });
    }
    Err(StartFault::There(newest))
}

fn take_again(newest: u32, left: u32, is_same: bool) -> Result<Plan, StartFault>
    ensures { result ≡ take_again newest left is_same }
{
    if is_gone(newest, left) {
        return Err(StartFault::Left(left));
    }
    if !is_same {
        return Err(StartFault::Other(newest));
    }
    Ok(Plan {
        generation: newest,
        writes: false,
        log: where_unmarked(newest, left),
    })
}

fn take_later(generation: u32, left: u32) -> Result<Plan, StartFault>
    ensures { result ≡ take_later generation left }
{
    if left < generation {
        Ok(Plan {
            generation,
            writes: true,
            log: LogStart::Either,
        })
    } else {
        Err(StartFault::Left(left))
    }
}

fn take(newest: u32, left: u32, generation: u32, is_same: bool) -> Result<Plan, StartFault>
    ensures { result ≡ take newest left generation is_same }
{
    if generation < newest {
        return Err(StartFault::Older(newest));
    }
    if generation == newest {
        return take_again(newest, left, is_same);
    }
    take_later(generation, left)
}

/// How a replica whose folder has this starts, or why it doesn't.
pub fn plan_for(held: &[GenerationFolder], wish: Wish) -> Result<Plan, StartFault>
    ensures value { result ≡ plan held.now wish }
    ensures never { IfOk result (NeverGoesBack held.now) }
{
    chosen(held, wish)
}

fn chosen(held: &[GenerationFolder], wish: Wish) -> Result<Plan, StartFault>
    ensures { result ≡ plan held.now wish }
{
    let newest = newest_in(held);
    let left = left_for(held);
    match wish {
        Wish::GoOn => go_on(newest, left, has_opening(newest.saturating_sub(1), held)),
        Wish::New { is_same } => begin(newest, left, is_same),
        Wish::Take {
            generation,
            is_same,
        } => take(newest, left, generation, is_same),
    }
}

/// Whether the folder is to be marked once the log of this generation is begun: it is of an earlier one, and its mark names none as late.
pub(crate) fn is_to_be_marked(held: &GenerationFolder, generation: u32) -> bool
    ensures { result ≡ (ltb held.now.number generation && ltb held.now.left_for generation) }
{
    held.number < generation && held.left_for < generation
}
