//! An index of records by key.

ghost use Rattle.std.specs.Prelude.{◌≡◌, ◌≢◌, ◌≤◌, ◌<◌, ℕ, List, [], ◌∷◌, ◌&&◌, not, length, None, true, false, cond, IfOk, IfSome, IfNone, OnOk};
ghost use Rattle.std.specs.Map.{lookup};
ghost use Rattle.std.specs.Vec.{vec_len, vec_capacity};
ghost use Rattle.ep_base.specs.Attributes.{same_list};
ghost use Rattle.ep_base.specs.Deps.{IsRising};
ghost use Rattle.ep_base.specs.Interference.{has_key, is_many};
ghost use Rattle.ep_base.specs.Items.{item_keys};
ghost use Rattle.std.specs.Option.{option_copied};
ghost use Rattle.ep_base.specs.Places.{Has};
ghost use Rattle.ep_space.specs.Index.{is_at, run, run_in, room_in, has_room, count_below, with_instance, without, brings, HasRuns, KeepsRoom, StandsAt, StandsUnder};
ghost use Rattle.ep_space.specs.Keys.{index_keys, mark, marked, voted_keys, recorded_keys};
ghost use Rattle.ep_space.specs.Names.{named, AreOnce};

use crate::names::{Name, Names, has_name, name_of, names_of};
use ep_base::{Command, InstanceId, Items};
use ep_rules::Record;
use indexmap::IndexMap;
use std::alloc::{AllocError, Global};

/// From a key to its run, in rising order of instances. A key whose last instance was taken out stays, with an empty run.
type Runs = IndexMap<Vec<u8>, Vec<InstanceId>>;

/// The runs of keys. Where the run stands that was given room last is kept: an instance goes into that run next, mostly.
#[derive(Drop)]
pub(crate) struct Side {
    runs: Runs,
    last: usize,
}

/// The instances of records by the keys of their commands. What writes a key stands apart from what only reads it, and seals, which name no
/// key, apart from both. A record of two keys stands in two runs.
#[derive(Drop)]
pub(crate) struct Index {
    writes: Side,
    reads: Side,
    seals: Vec<InstanceId>,
}

fn new_side(alloc: Global) -> Side
    ensures { (k : List ℕ) → run_in result.runs.entries k ≡ [] }
{
    Side {
        runs: IndexMap::new(alloc),
        last: 0,
    }
}

/// An index of no records.
pub(crate) fn new_index(alloc: Global) -> Index
    ensures { (k : List ℕ) → run result k ≡ [] }
{
    Index {
        writes: new_side(alloc),
        reads: new_side(alloc),
        seals: Vec::new(alloc),
    }
}

/// The run of this name.
#[inline(always)]
pub(crate) fn run_of<'a>(index: &'a Index, name: Name<'_>) -> &'a [InstanceId]
    ensures { result.now ≡ run index.now (named name.entry) }
{
    match name {
        Name::Seals => index.seals.as_slice(),
        Name::Writes(key) => run_at(&index.writes.runs, key),
        Name::Reads(key) => run_at(&index.reads.runs, key),
    }
}

#[inline(always)]
fn run_at<'a>(runs: &'a Runs, key: &[u8]) -> &'a [InstanceId]
    ensures { result.now ≡ run_in runs.now.entries key.now }
{
    match runs.get(key) {
        None => &[],
        Some(run) => run.as_slice(),
    }
}

/// A copy of the runs.
pub(crate) fn duplicate(index: &Index, alloc: Global) -> Result<Index, AllocError>
    ensures { IfOk result (λ same. (k : List ℕ) → run same k ≡ run index.now k) }
{
    let writes = duplicate_side(&index.writes, alloc)?;
    let reads = duplicate_side(&index.reads, alloc)?;
    let seals = Vec::from_slice(alloc, &index.seals)?;
    Ok(Index {
        writes,
        reads,
        seals,
    })
}

fn duplicate_side(side: &Side, alloc: Global) -> Result<Side, AllocError>
    ensures { IfOk result (λ same. (k : List ℕ) → run_in same.runs.entries k ≡ run_in side.now.runs.entries k) }
{
    let runs = duplicate_runs(&side.runs, alloc)?;
    Ok(Side { runs, last: 0 })
}

fn duplicate_runs(runs: &Runs, alloc: Global) -> Result<Runs, AllocError>
    ensures { IfOk result (λ same. (k : List ℕ) → run_in same.entries k ≡ run_in runs.now.entries k) }
{
    let mut same = IndexMap::with_capacity(alloc, runs.len())?;
    for place in (0..runs.len()).rev() {
        let (key, run) = runs.get_index(place).unwrap();
        set_run(&mut same, key.as_slice(), run.as_slice())?;
    }
    Ok(same)
}

/// Puts this in place of the key's run.
fn set_run(runs: &mut Runs, key: &[u8], instances: &[InstanceId]) -> Result<(), AllocError>
    ensures { OnOk result ((k : List ℕ) → run_in runs.new.entries k ≡ cond (same_list k key.now) instances.now (run_in runs.old.entries k)) }
{
    let alloc = *runs.allocator();
    let key = Vec::from_slice(alloc, key)?;
    let run = Vec::from_slice(alloc, instances)?;
    match runs.insert(key, run) {
        Ok(_) => Ok(()),
        Err(_) => Err(AllocError),
    }
}

/// Makes room in the run of each name that the command brings: that it has, and the instance's record hasn't. A key that had no run gets an
/// empty one. No run changes, when out of memory either.
#[inline(always)]
pub(crate) fn make_room(
    index: &mut Index,
    there: Option<&Record>,
    command: &Command,
) -> Result<(), AllocError>
    ensures room { OnOk result (HasRuns index.new (recorded_keys (option_copied there.entry)) (index_keys command.now)) }
    ensures same { (k : List ℕ) → run index.new k ≡ run index.old k }
{
    match names_of(command) {
        Names::Nothing => Ok(()),
        Names::One(name) => room_for_one(index, there, name),
        Names::Two(first, second) => room_for_two(index, there, first, second),
        Names::Many(command) => room_for_many(index, there, command),
    }
}

fn room_for_many(
    index: &mut Index,
    there: Option<&Record>,
    command: &Command,
) -> Result<(), AllocError>
    requires { is_many command.now ≡ true }
    ensures room { OnOk result (HasRuns index.new (recorded_keys (option_copied there.entry)) (index_keys command.now)) }
    ensures same { (k : List ℕ) → run index.new k ≡ run index.old k }
{
    if votes_for(there, command) {
        return Ok(());
    }
    let reads = command.only_reads();
    let mut items = command.items();
    room_for_items(index, there, &mut items, reads)
}

// Makes room for the keys of these items, of which none is left then.
fn room_for_items(
    index: &mut Index,
    there: Option<&Record>,
    items: &mut Items<'_>,
    reads: bool,
) -> Result<(), AllocError>
    ensures room { OnOk result (HasRuns index.new (recorded_keys (option_copied there.entry)) (marked (mark reads) (item_keys items.old))) }
    ensures same { (k : List ℕ) → run index.new k ≡ run index.old k }
    ensures keeps { KeepsRoom index.old index.new }
{
    let Some(item) = items.next() else {
        return Ok(());
    };
    room_for_one(index, there, name_of(item.key, reads))?;
    room_for_items(index, there, items, reads)
}

#[inline(always)]
fn room_for_one(index: &mut Index, there: Option<&Record>, name: Name<'_>) -> Result<(), AllocError>
    ensures room { OnOk result (HasRuns index.new (recorded_keys (option_copied there.entry)) (named name.entry ∷ [])) }
    ensures same { (k : List ℕ) → run index.new k ≡ run index.old k }
    ensures keeps { KeepsRoom index.old index.new }
{
    if is_named(there, name) {
        return Ok(());
    }
    widen(index, name)
}

fn room_for_two(
    index: &mut Index,
    there: Option<&Record>,
    first: Name<'_>,
    second: Name<'_>,
) -> Result<(), AllocError>
    ensures room { OnOk result (HasRuns index.new (recorded_keys (option_copied there.entry)) (named first.entry ∷ named second.entry ∷ [])) }
    ensures same { (k : List ℕ) → run index.new k ≡ run index.old k }
{
    room_for_one(index, there, first)?;
    room_for_one(index, there, second)
}

// Makes room for one instance more in the run of this name.
fn widen(index: &mut Index, name: Name<'_>) -> Result<(), AllocError>
    ensures room { OnOk result (has_room index.new (named name.entry) ≡ true) }
    ensures same { (k : List ℕ) → run index.new k ≡ run index.old k }
    ensures keeps { KeepsRoom index.old index.new }
{
    match name {
        Name::Seals => widen_run(&mut index.seals),
        Name::Writes(key) => widen_under(&mut index.writes.runs, &mut index.writes.last, key),
        Name::Reads(key) => widen_under(&mut index.reads.runs, &mut index.reads.last, key),
    }
}

#[inline(always)]
fn widen_under(runs: &mut Runs, last: &mut usize, key: &[u8]) -> Result<(), AllocError>
    ensures room { OnOk result (room_in runs.new.entries key.now ≡ true) }
    ensures same { (k : List ℕ) → run_in runs.new.entries k ≡ run_in runs.old.entries k }
    ensures keeps { (k : List ℕ) → room_in runs.old.entries k ≡ true → room_in runs.new.entries k ≡ true }
{
    match place_of(runs, key) {
        Some(at) => {
            *last = at;
            widen_at(runs, at, key)
        }
        None => {
            *last = runs.len();
            add_run(runs, key)
        }
    }
}

// Where the key's run stands, if it has one.
fn place_of(runs: &Runs, key: &[u8]) -> Option<usize>
    ensures some { IfSome result (λ n. StandsAt runs.now.entries n key.now) }
    ensures none { IfNone result (lookup (is_at key.now) runs.now.entries ≡ None) }
{
    match runs.get_full(key) {
        Some((at, _, _)) => Some(at),
        None => None,
    }
}

// Where the key's run stands, looked for here first.
#[inline(always)]
fn place_from(runs: &Runs, last: usize, key: &[u8]) -> Option<usize>
    ensures some { IfSome result (λ n. StandsAt runs.now.entries n key.now) }
    ensures none { IfNone result (lookup (is_at key.now) runs.now.entries ≡ None) }
{
    if stands_at(runs, last, key) {
        return Some(last);
    }
    place_of(runs, key)
}

// Whether the key's run stands here.
fn stands_at(runs: &Runs, at: usize, key: &[u8]) -> bool
    ensures { result ≡ true → StandsAt runs.now.entries at key.now }
{
    match runs.get_index(at) {
        None => false,
        Some((own, _)) => key == own.as_slice(),
    }
}

// Makes room for one instance more in the run that stands here.
fn widen_at(runs: &mut Runs, at: usize, _key: &[u8]) -> Result<(), AllocError>
    requires there { StandsAt runs.old.entries at _key.now }
    ensures room { OnOk result (room_in runs.new.entries _key.now ≡ true) }
    ensures same { (k : List ℕ) → run_in runs.new.entries k ≡ run_in runs.old.entries k }
    ensures keeps { (k : List ℕ) → room_in runs.old.entries k ≡ true → room_in runs.new.entries k ≡ true }
{
    match runs.get_index_mut(at) {
        Some(run) => widen_run(run),
        None => unreachable!(),
    }
}

fn widen_run(run: &mut Vec<InstanceId>) -> Result<(), AllocError>
    ensures room { OnOk result (vec_len run.new < vec_capacity run.new) }
    ensures same { run.new.items ≡ run.old.items }
    ensures keeps { vec_len run.old < vec_capacity run.old → vec_len run.new < vec_capacity run.new }
{
    run.reserve(1)
}

// An empty run with free places.
fn add_run(runs: &mut Runs, key: &[u8]) -> Result<(), AllocError>
    requires { lookup (is_at key.now) runs.old.entries ≡ None }
    ensures room { OnOk result (room_in runs.new.entries key.now ≡ true) }
    ensures same { (k : List ℕ) → run_in runs.new.entries k ≡ run_in runs.old.entries k }
    ensures keeps { (k : List ℕ) → room_in runs.old.entries k ≡ true → room_in runs.new.entries k ≡ true }
{
    let alloc = *runs.allocator();
    let key = Vec::from_slice(alloc, key)?;
    let run = Vec::with_capacity(alloc, 8)?;
    match runs.insert(key, run) {
        Ok(_) => Ok(()),
        Err(_) => Err(AllocError),
    }
}

/// Puts the instance into the run of each name that this brings: that it has, and the instance's record hasn't. It takes no memory.
pub(crate) fn enter(
    index: &mut Index,
    id: InstanceId,
    there: Option<&Record>,
    value: &Option<Record>,
)
    requires stands { StandsUnder id (recorded_keys (option_copied there)) index.old }
    requires room { HasRuns index.old (recorded_keys (option_copied there)) (recorded_keys value.now) }
    ensures { (k : List ℕ) → run index.new k ≡ cond (brings (recorded_keys (option_copied there.entry)) (recorded_keys value.now) k) (with_instance id (run index.old k)) (run index.old k) }
{
    match value {
        None => (),
        Some(record) => enter_record(index, id, there, record),
    }
}

fn enter_record(index: &mut Index, id: InstanceId, there: Option<&Record>, written: &Record)
    requires stands { StandsUnder id (recorded_keys (option_copied there)) index.old }
    requires room { HasRuns index.old (recorded_keys (option_copied there)) (voted_keys written.now.vote) }
    ensures { (k : List ℕ) → run index.new k ≡ cond (brings (recorded_keys (option_copied there.entry)) (voted_keys written.now.vote) k) (with_instance id (run index.old k)) (run index.old k) }
{
    match &written.vote {
        None => (),
        Some(vote) => enter_command(index, id, there, &vote.decree.command),
    }
}

fn enter_command(index: &mut Index, id: InstanceId, there: Option<&Record>, command: &Command)
    requires stands { StandsUnder id (recorded_keys (option_copied there)) index.old }
    requires room { HasRuns index.old (recorded_keys (option_copied there)) (index_keys command.now) }
    ensures { (k : List ℕ) → run index.new k ≡ cond (brings (recorded_keys (option_copied there.entry)) (index_keys command.now) k) (with_instance id (run index.old k)) (run index.old k) }
{
    match names_of(command) {
        Names::Nothing => (),
        Names::One(name) => enter_one(index, id, there, name),
        Names::Two(first, second) => enter_two(index, id, there, first, second),
        Names::Many(command) => enter_many(index, id, there, command),
    }
}

fn enter_many(index: &mut Index, id: InstanceId, there: Option<&Record>, command: &Command)
    requires many { is_many command.now ≡ true }
    requires stands { StandsUnder id (recorded_keys (option_copied there)) index.old }
    requires room { HasRuns index.old (recorded_keys (option_copied there)) (index_keys command.now) }
    requires once { AreOnce (index_keys command.now) }
    ensures { (k : List ℕ) → run index.new k ≡ cond (brings (recorded_keys (option_copied there.entry)) (index_keys command.now) k) (with_instance id (run index.old k)) (run index.old k) }
{
    if votes_for(there, command) {
        return;
    }
    let reads = command.only_reads();
    let mut items = command.items();
    enter_items(index, id, there, &mut items, reads)
}

// Puts the instance into the runs of these items, of which none is left then.
fn enter_items(
    index: &mut Index,
    id: InstanceId,
    there: Option<&Record>,
    items: &mut Items<'_>,
    reads: bool,
)
    requires rising { (k : List ℕ) → has_key k (marked (mark reads) (item_keys items.old)) ≡ true → IsRising (run index.old k) }
    requires room { HasRuns index.old (recorded_keys (option_copied there)) (marked (mark reads) (item_keys items.old)) }
    requires once { AreOnce (marked (mark reads) (item_keys items.old)) }
    ensures { (k : List ℕ) → run index.new k ≡ cond (brings (recorded_keys (option_copied there.entry)) (marked (mark reads) (item_keys items.old)) k) (with_instance id (run index.old k)) (run index.old k) }
{
    let Some(item) = items.next() else {
        return;
    };
    let name = name_of(item.key, reads);
    let stays = is_named(there, name);
    add_unless(index, stays, name, id);
    enter_items(index, id, there, items, reads)
}

#[inline(always)]
fn enter_one(index: &mut Index, id: InstanceId, there: Option<&Record>, name: Name<'_>)
    requires stands { StandsUnder id (recorded_keys (option_copied there)) index.old }
    requires room { HasRuns index.old (recorded_keys (option_copied there)) (named name ∷ []) }
    ensures { (k : List ℕ) → run index.new k ≡ cond (brings (recorded_keys (option_copied there.entry)) (named name.entry ∷ []) k) (with_instance id (run index.old k)) (run index.old k) }
{
    let stays = is_named(there, name);
    add_unless(index, stays, name, id)
}

fn enter_two(
    index: &mut Index,
    id: InstanceId,
    there: Option<&Record>,
    first: Name<'_>,
    second: Name<'_>,
)
    requires stands { StandsUnder id (recorded_keys (option_copied there)) index.old }
    requires room { HasRuns index.old (recorded_keys (option_copied there)) (named first ∷ named second ∷ []) }
    requires apart { named first ≢ named second }
    ensures { (k : List ℕ) → run index.new k ≡ cond (brings (recorded_keys (option_copied there.entry)) (named first.entry ∷ named second.entry ∷ []) k) (with_instance id (run index.old k)) (run index.old k) }
{
    let first_stays = is_named(there, first);
    let second_stays = is_named(there, second);
    add_unless(index, first_stays, first, id);
    add_unless(index, second_stays, second, id)
}

/// Takes the instance out of the run of each name that this takes away: that the instance's record has, and this hasn't.
pub(crate) fn leave(
    index: &mut Index,
    id: InstanceId,
    there: Option<&Record>,
    value: &Option<Record>,
)
    requires rising { (k : List ℕ) → IsRising (run index.old k) }
    requires has { (k : List ℕ) → has_key k (recorded_keys (option_copied there)) ≡ true → Has (run index.old k) id }
    ensures { (k : List ℕ) → run index.new k ≡ cond (brings (recorded_keys value.now) (recorded_keys (option_copied there.entry)) k) (without id (run index.old k)) (run index.old k) }
{
    match there {
        None => (),
        Some(record) => leave_record(index, id, record, value),
    }
}

fn leave_record(index: &mut Index, id: InstanceId, written: &Record, value: &Option<Record>)
    requires rising { (k : List ℕ) → IsRising (run index.old k) }
    requires there { (k : List ℕ) → has_key k (voted_keys written.now.vote) ≡ true → Has (run index.old k) id }
    ensures { (k : List ℕ) → run index.new k ≡ cond (brings (recorded_keys value.now) (voted_keys written.now.vote) k) (without id (run index.old k)) (run index.old k) }
{
    match &written.vote {
        None => (),
        Some(vote) => leave_command(index, id, &vote.decree.command, value),
    }
}

fn leave_command(index: &mut Index, id: InstanceId, command: &Command, value: &Option<Record>)
    requires rising { (k : List ℕ) → IsRising (run index.old k) }
    requires there { (k : List ℕ) → has_key k (index_keys command.now) ≡ true → Has (run index.old k) id }
    ensures { (k : List ℕ) → run index.new k ≡ cond (brings (recorded_keys value.now) (index_keys command.now) k) (without id (run index.old k)) (run index.old k) }
{
    match names_of(command) {
        Names::Nothing => (),
        Names::One(name) => leave_one(index, id, name, value),
        Names::Two(first, second) => leave_two(index, id, first, second, value),
        Names::Many(command) => leave_many(index, id, command, value),
    }
}

fn leave_many(index: &mut Index, id: InstanceId, command: &Command, value: &Option<Record>)
    requires many { is_many command.now ≡ true }
    requires once { AreOnce (index_keys command.now) }
    requires rising { (k : List ℕ) → IsRising (run index.old k) }
    requires there { (k : List ℕ) → has_key k (index_keys command.now) ≡ true → Has (run index.old k) id }
    ensures { (k : List ℕ) → run index.new k ≡ cond (brings (recorded_keys value.now) (index_keys command.now) k) (without id (run index.old k)) (run index.old k) }
{
    if is_again(value, command) {
        return;
    }
    let reads = command.only_reads();
    let mut items = command.items();
    leave_items(index, id, &mut items, reads, value)
}

// Takes the instance out of the runs of these items, of which none is left then.
fn leave_items(
    index: &mut Index,
    id: InstanceId,
    items: &mut Items<'_>,
    reads: bool,
    value: &Option<Record>,
)
    requires once { AreOnce (marked (mark reads) (item_keys items.old)) }
    requires rising { (k : List ℕ) → has_key k (marked (mark reads) (item_keys items.old)) ≡ true → IsRising (run index.old k) }
    requires there { (k : List ℕ) → has_key k (marked (mark reads) (item_keys items.old)) ≡ true → Has (run index.old k) id }
    ensures { (k : List ℕ) → run index.new k ≡ cond (brings (recorded_keys value.now) (marked (mark reads) (item_keys items.old)) k) (without id (run index.old k)) (run index.old k) }
{
    let Some(item) = items.next() else {
        return;
    };
    leave_one(index, id, name_of(item.key, reads), value);
    leave_items(index, id, items, reads, value)
}

fn leave_one(index: &mut Index, id: InstanceId, name: Name<'_>, value: &Option<Record>)
    requires rising { IsRising (run index.old (named name)) }
    requires there { Has (run index.old (named name)) id }
    ensures { (k : List ℕ) → run index.new k ≡ cond (brings (recorded_keys value.now) (named name.entry ∷ []) k) (without id (run index.old k)) (run index.old k) }
{
    let stays = names(value, name);
    remove_unless(index, stays, name, id)
}

fn leave_two(
    index: &mut Index,
    id: InstanceId,
    first: Name<'_>,
    second: Name<'_>,
    value: &Option<Record>,
)
    requires apart { named first ≢ named second }
    requires rising { (k : List ℕ) → IsRising (run index.old k) }
    requires there { (k : List ℕ) → has_key k (named first ∷ named second ∷ []) ≡ true → Has (run index.old k) id }
    ensures { (k : List ℕ) → run index.new k ≡ cond (brings (recorded_keys value.now) (named first.entry ∷ named second.entry ∷ []) k) (without id (run index.old k)) (run index.old k) }
{
    leave_one(index, id, first, value);
    leave_one(index, id, second, value)
}

// Puts the instance into the run of this name, unless it stays there.
#[inline(always)]
fn add_unless(index: &mut Index, stays: bool, name: Name<'_>, id: InstanceId)
    requires rising { IsRising (run index.old (named name)) }
    requires room { stays ≡ false → has_room index.old (named name) ≡ true }
    ensures runs { (k : List ℕ) → run index.new k ≡ cond (same_list k (named name.entry) && not stays) (with_instance id (run index.old k)) (run index.old k) }
    ensures others { (k : List ℕ) → same_list k (named name.entry) ≡ false → has_room index.new k ≡ has_room index.old k }
{
    if stays {
        return;
    }
    add(index, name, id)
}

// Takes the instance out of the run of this name, unless it stays there.
fn remove_unless(index: &mut Index, stays: bool, name: Name<'_>, id: InstanceId)
    requires rising { IsRising (run index.old (named name)) }
    requires there { stays ≡ false → Has (run index.old (named name)) id }
    ensures { (k : List ℕ) → run index.new k ≡ cond (same_list k (named name.entry) && not stays) (without id (run index.old k)) (run index.old k) }
{
    if stays {
        return;
    }
    remove(index, name, id)
}

fn add(index: &mut Index, name: Name<'_>, id: InstanceId)
    requires rising { IsRising (run index.old (named name)) }
    requires room { has_room index.old (named name) ≡ true }
    ensures runs { (k : List ℕ) → run index.new k ≡ cond (same_list k (named name.entry)) (with_instance id (run index.old k)) (run index.old k) }
    ensures others { (k : List ℕ) → same_list k (named name.entry) ≡ false → has_room index.new k ≡ has_room index.old k }
{
    match name {
        Name::Seals => insert(&mut index.seals, id),
        Name::Writes(key) => add_under(&mut index.writes.runs, index.writes.last, key, id),
        Name::Reads(key) => add_under(&mut index.reads.runs, index.reads.last, key, id),
    }
}

fn remove(index: &mut Index, name: Name<'_>, id: InstanceId)
    requires rising { IsRising (run index.old (named name)) }
    requires there { Has (run index.old (named name)) id }
    ensures { (k : List ℕ) → run index.new k ≡ cond (same_list k (named name.entry)) (without id (run index.old k)) (run index.old k) }
{
    match name {
        Name::Seals => take(&mut index.seals, id),
        Name::Writes(key) => remove_under(&mut index.writes.runs, key, id),
        Name::Reads(key) => remove_under(&mut index.reads.runs, key, id),
    }
}

fn add_under(runs: &mut Runs, last: usize, key: &[u8], id: InstanceId)
    requires rising { IsRising (run_in runs.old.entries key.now) }
    requires room { room_in runs.old.entries key.now ≡ true }
    ensures runs { (k : List ℕ) → run_in runs.new.entries k ≡ cond (same_list k key.now) (with_instance id (run_in runs.old.entries k)) (run_in runs.old.entries k) }
    ensures others { (k : List ℕ) → same_list k key.now ≡ false → room_in runs.new.entries k ≡ room_in runs.old.entries k }
{
    match place_from(runs, last, key) {
        Some(at) => add_at(runs, at, key, id),
        None => unreachable!(),
    }
}

// Puts the instance into the run that stands here.
fn add_at(runs: &mut Runs, at: usize, _key: &[u8], id: InstanceId)
    requires there { StandsAt runs.old.entries at _key.now }
    requires rising { IsRising (run_in runs.old.entries _key.now) }
    requires room { room_in runs.old.entries _key.now ≡ true }
    ensures runs { (k : List ℕ) → run_in runs.new.entries k ≡ cond (same_list k _key.now) (with_instance id (run_in runs.old.entries k)) (run_in runs.old.entries k) }
    ensures others { (k : List ℕ) → same_list k _key.now ≡ false → room_in runs.new.entries k ≡ room_in runs.old.entries k }
{
    match runs.get_index_mut(at) {
        Some(run) => insert(run, id),
        None => unreachable!(),
    }
}

fn remove_under(runs: &mut Runs, key: &[u8], id: InstanceId)
    requires rising { IsRising (run_in runs.old.entries key.now) }
    requires there { Has (run_in runs.old.entries key.now) id }
    ensures { (k : List ℕ) → run_in runs.new.entries k ≡ cond (same_list k key.now) (without id (run_in runs.old.entries k)) (run_in runs.old.entries k) }
{
    match runs.get_mut(key) {
        Some(run) => take(run, id),
        None => unreachable!(),
    }
}

/// Puts the instance into the run, in its place.
fn insert(run: &mut Vec<InstanceId>, id: InstanceId)
    requires rising { IsRising run.old.items }
    requires room { vec_len run.old < vec_capacity run.old }
    ensures { run.new.items ≡ with_instance id run.old.items }
{
    let at = position(run.as_slice(), id);
    run.insert(at, id).unwrap();
}

// Whether the instance is one of the run's.
fn is_among(run: &[InstanceId], id: InstanceId) -> bool
    requires { IsRising run.now }
    ensures there { result ≡ true → Has run.now id }
    ensures absent { result ≡ false → ¬ (Has run.now id) }
{
    let at = position(run, id);
    if run.len() <= at {
        return false;
    }
    run[at] == id
}

fn take(run: &mut Vec<InstanceId>, id: InstanceId)
    requires rising { IsRising run.old.items }
    requires there { Has run.old.items id }
    ensures { run.new.items ≡ without id run.old.items }
{
    let at = position(run.as_slice(), id);
    run.remove(at);
}

// How many of a run are lesser instances.
fn position(run: &[InstanceId], id: InstanceId) -> usize
    requires { IsRising run.now }
    ensures value { result ≡ count_below id run.now }
    ensures bound { result ≤ length run.now }
{
    let mut low = 0;
    let mut high = run.len();
    while low < high {
        let middle = low + (high - low) / 2;
        if run[middle] < id {
            low = middle + 1;
        } else {
            high = middle;
        }
    }
    low
}

// Whether what is there votes for this very command, whose keys aren't gone through then.
fn votes_for(there: Option<&Record>, command: &Command) -> bool
    ensures { result ≡ true → recorded_keys (option_copied there.entry) ≡ index_keys command.now }
{
    match there {
        None => false,
        Some(record) => is_voted_for(record, command),
    }
}

// Whether what is recorded does.
fn is_again(value: &Option<Record>, command: &Command) -> bool
    ensures { result ≡ true → recorded_keys value.now ≡ index_keys command.now }
{
    match value {
        None => false,
        Some(record) => is_voted_for(record, command),
    }
}

// Whether the record votes for this very command.
fn is_voted_for(written: &Record, command: &Command) -> bool
    ensures { result ≡ true → voted_keys written.now.vote ≡ index_keys command.now }
{
    match &written.vote {
        None => false,
        Some(vote) => vote.decree.command.is_same(command),
    }
}

// Whether the command of what is there has the name.
fn is_named(there: Option<&Record>, name: Name<'_>) -> bool
    ensures { result ≡ has_key (named name.entry) (recorded_keys (option_copied there.entry)) }
{
    match there {
        None => false,
        Some(record) => stands_under(record, name),
    }
}

// Whether the command of what is recorded has the name.
fn names(value: &Option<Record>, name: Name<'_>) -> bool
    ensures { result ≡ has_key (named name.entry) (recorded_keys value.now) }
{
    match value {
        None => false,
        Some(record) => stands_under(record, name),
    }
}

// Whether the record's command has the name.
fn stands_under(written: &Record, name: Name<'_>) -> bool
    ensures { result ≡ has_key (named name.entry) (voted_keys written.now.vote) }
{
    match &written.vote {
        None => false,
        Some(vote) => has_name(&vote.decree.command, name),
    }
}
