//! The log, and the answers that wait for it.

ghost use Rattle.std.specs.Prelude.{◌≡◌, ◌≢◌, option_copied};
ghost use Rattle.ep_library.specs.Calls.{Unless};
ghost use Rattle.ep_library.specs.Syncing.{flag, Answers, Asks, IsRun, IsRunOf};
ghost use Rattle.ep_library.specs.Syncing.{Lends, Prepares, PreparesAll, Releases, Syncs, ReportsAll};

use crate::codes::{ask_status, prepare_status, report_status, sync_status};
use crate::lent::Lent;
use crate::status::{DONE, MEMORY, NO_REPLICA, NONE};
use ep_embedded::Hosted;
use ep_handle::Handle;
use std::alloc::Global;
use std::mem;

/// What C has for whether something is so.
pub(crate) fn flag(is_so: bool) -> u8
    ensures { result ≡ flag is_so }
{
    if is_so { 1 } else { 0 }
}

/// Says where the bytes stand, and how many they are.
pub(crate) fn point(buffer: &Vec<u8>, run: &mut Lent)
    ensures { IsRun buffer.now run.new }
{
    run.at = buffer.as_ptr();
    run.len = buffer.len();
}

/// Says where the bytes stand, if there are any.
fn point_to(buffer: Option<&Vec<u8>>, run: &mut Lent)
    ensures { IsRunOf (option_copied buffer.entry) run.new }
{
    match buffer {
        Some(buffer) => point(buffer, run),
        None => run.len = 0,
    }
}

/// The replica lends what is to be written.
#[tactic(auto, unfolding(crate::specs::Syncing::HasMadeReady))]
fn lends(alloc: Global, hosted: &mut Hosted, log: &mut Lent, is_anew: &mut u8) -> u8
    ensures reported { Lends result hosted.old hosted.new log.new is_anew.new }
    ensures unreported { result ≢ 0 → (log.new ≡ log.old) × (is_anew.new ≡ is_anew.old) }
{
    match hosted.ready(alloc) {
        Ok(()) => {
            point_to(hosted.lent(), log);
            *is_anew = flag(hosted.is_anew());
            DONE
        }
        Err(_) => MEMORY,
    }
}

/// Lends the bytes that are to be written to the log: the records of all that was taken and wasn't lent before, after the log, or, if `is_anew` becomes 1, in place of all that was
/// there, at once (write another file, sync it, rename it). The first call after `ep_open` is such a one, and nothing is taken before that is on the disk (EP_LENT). If all is on the
/// disk, there are none. The bytes stay where they are, and a second call lends the same, until `ep_synced` says that they are on the disk; or until `ep_free`. Meanwhile more may be
/// taken, which is lent next, and another thread may read them. If writing them fails, free the replica and open it from its log. EP_NO_REPLICA, EP_MEMORY.
#[unsafe(no_mangle)]
pub extern "C" fn ep_ready(
    alloc: Global,
    handle: &mut Handle,
    log: &mut Lent,
    is_anew: &mut u8,
) -> u8
    ensures reported { Unless result handle.old.value handle.new.value (λ h k. Lends result h k log.new is_anew.new) }
    ensures unreported { result ≢ 0 → (log.new ≡ log.old) × (is_anew.new ≡ is_anew.old) }
{
    let held = mem::replace(handle, Handle::empty());
    match held.into_box(alloc) {
        None => NO_REPLICA,
        Some(mut hosted) => {
            let status = lends(alloc, &mut hosted, log, is_anew);
            *handle = Handle::of(hosted);
            status
        }
    }
}

/// So many bytes are on the disk.
#[tactic(auto, unfolding(crate::specs::Syncing::HasSynced, crate::specs::Syncing::IsUnsynced))]
fn syncs(hosted: &mut Hosted, count: usize) -> u8
    ensures { Syncs result hosted.old count hosted.new }
{
    match hosted.synced(count) {
        Ok(()) => DONE,
        Err(fault) => sync_status(fault),
    }
}

/// Says that what `ep_ready` lent is on the disk (fsync has returned): all of it, `count` bytes; 0 if nothing is lent. From now on no crash takes what was taken before that call.
/// EP_NO_REPLICA, EP_NOT_LENT, EP_NOT_ALL.
#[unsafe(no_mangle)]
pub extern "C" fn ep_synced(alloc: Global, handle: &mut Handle, count: usize) -> u8
    ensures { Unless result handle.old.value handle.new.value (λ h k. Syncs result h count k) }
{
    let held = mem::replace(handle, Handle::empty());
    match held.into_box(alloc) {
        None => NO_REPLICA,
        Some(mut hosted) => {
            let status = syncs(&mut hosted, count);
            *handle = Handle::of(hosted);
            status
        }
    }
}

/// The replica lends the answers that wait.
fn reports(alloc: Global, hosted: &mut Hosted, reported: u32, most: u8, bytes: &mut Lent) -> u8
    ensures reported { Answers result hosted.old reported most hosted.new bytes.new }
    ensures unreported { result ≢ 0 → bytes.new ≡ bytes.old }
{
    match hosted.answer(alloc, reported, most) {
        Ok(()) => {
            point(hosted.answers(), bytes);
            DONE
        }
        Err(fault) => report_status(fault),
    }
}

/// Lends the answers of all that was asked by `ep_ask` since the last time, in that order, and after them one of kind 9: all frames, receipts, commits and executions of the
/// entries after the first `told`, each once, and at most `most` open instances. It says how many entries there are: hand that in as `told` the next time; at first 0. All that is
/// reported is on the disk. EP_NO_REPLICA; EP_UNSYNCED; EP_MEMORY: what was asked still waits for the next call.
#[unsafe(no_mangle)]
pub extern "C" fn ep_answers(
    alloc: Global,
    handle: &mut Handle,
    told: u32,
    most: u8,
    answers: &mut Lent,
) -> u8
    ensures reported { Unless result handle.old.value handle.new.value (λ h k. Answers result h told most k answers.new) }
    ensures unreported { result ≢ 0 → answers.new ≡ answers.old }
{
    let held = mem::replace(handle, Handle::empty());
    match held.into_box(alloc) {
        None => NO_REPLICA,
        Some(mut hosted) => {
            let status = reports(alloc, &mut hosted, told, most, answers);
            *handle = Handle::of(hosted);
            status
        }
    }
}

/// The replica makes answers, and holds them.
fn prepares(alloc: Global, hosted: &mut Hosted, reported: u32, most: u8) -> u8
    ensures { Prepares result hosted.old reported most hosted.new }
{
    match hosted.prepare(alloc, reported, most) {
        Ok(()) => DONE,
        Err(fault) => prepare_status(fault),
    }
}

/// Makes what `ep_answers` would lend if all that was taken were on the disk, and holds it until `ep_told` asks for it then. So answers are made while the disk works, and more may
/// be taken after it: call it between `ep_ready` and the next event. EP_NO_REPLICA; EP_UNSYNCED: something was taken that isn't lent; EP_UNTOLD; EP_MEMORY: what was asked still waits.
#[unsafe(no_mangle)]
pub extern "C" fn ep_prepare(alloc: Global, handle: &mut Handle, told: u32, most: u8) -> u8
    ensures { Unless result handle.old.value handle.new.value (λ h k. Prepares result h told most k) }
{
    let held = mem::replace(handle, Handle::empty());
    match held.into_box(alloc) {
        None => NO_REPLICA,
        Some(mut hosted) => {
            let status = prepares(alloc, &mut hosted, told, most);
            *handle = Handle::of(hosted);
            status
        }
    }
}

/// The replica lends the answers that wait, with what its entries did.
fn reports_all(alloc: Global, hosted: &mut Hosted, reported: u32, most: u8, bytes: &mut Lent) -> u8
    ensures reported { ReportsAll result hosted.old reported most hosted.new bytes.new }
    ensures unreported { result ≢ 0 → bytes.new ≡ bytes.old }
{
    match hosted.answer_all(alloc, reported, most) {
        Ok(()) => {
            point(hosted.answers(), bytes);
            DONE
        }
        Err(fault) => report_status(fault),
    }
}

/// Lends what `ep_answers` lends, and behind it one answer more, of kind 13: what the entries after the first `told`
/// proposed and executed, in their order. For each proposal 1, the client (4), the request (4) and the instance that it
/// took (3); for each instance that was executed, whoever proposed its command, 2, the instance (3), the command as a
/// proposal has it (op, lengths of both keys and of the body, and these), and its answer as a receipt has it. Statuses
/// are those of `ep_answers`.
#[unsafe(no_mangle)]
pub extern "C" fn ep_answers_all(
    alloc: Global,
    handle: &mut Handle,
    told: u32,
    most: u8,
    answers: &mut Lent,
) -> u8
    ensures reported { Unless result handle.old.value handle.new.value (λ h k. ReportsAll result h told most k answers.new) }
    ensures unreported { result ≢ 0 → answers.new ≡ answers.old }
{
    let held = mem::replace(handle, Handle::empty());
    match held.into_box(alloc) {
        None => NO_REPLICA,
        Some(mut hosted) => {
            let status = reports_all(alloc, &mut hosted, told, most, answers);
            *handle = Handle::of(hosted);
            status
        }
    }
}

/// The replica makes answers, with what its entries did, and holds them.
fn prepares_all(alloc: Global, hosted: &mut Hosted, reported: u32, most: u8) -> u8
    ensures { PreparesAll result hosted.old reported most hosted.new }
{
    match hosted.prepare_all(alloc, reported, most) {
        Ok(()) => DONE,
        Err(fault) => prepare_status(fault),
    }
}

/// Makes what `ep_answers_all` would lend if all that was taken were on the disk, and holds it until `ep_told` asks for
/// it then, as `ep_prepare` does, whose statuses it has.
#[unsafe(no_mangle)]
pub extern "C" fn ep_prepare_all(alloc: Global, handle: &mut Handle, told: u32, most: u8) -> u8
    ensures { Unless result handle.old.value handle.new.value (λ h k. PreparesAll result h told most k) }
{
    let held = mem::replace(handle, Handle::empty());
    match held.into_box(alloc) {
        None => NO_REPLICA,
        Some(mut hosted) => {
            let status = prepares_all(alloc, &mut hosted, told, most);
            *handle = Handle::of(hosted);
            status
        }
    }
}

/// The replica lends the answers that it holds.
#[tactic(auto, unfolding(crate::specs::Syncing::HasReleased, crate::specs::Syncing::IsUnreleased))]
fn releases(hosted: &mut Hosted, bytes: &mut Lent) -> u8
    ensures reported { Releases result hosted.old hosted.new bytes.new }
    ensures unreported { result ≢ 0 → bytes.new ≡ bytes.old }
{
    match hosted.reported() {
        Ok(true) => {
            point(hosted.answers(), bytes);
            DONE
        }
        Ok(false) => NONE,
        Err(fault) => report_status(fault),
    }
}

/// Lends what `ep_prepare` made, once. All that it reports is on the disk. EP_NO_REPLICA; EP_NONE: it made nothing; EP_UNSYNCED: what was lent then isn't on the disk yet.
#[unsafe(no_mangle)]
pub extern "C" fn ep_told(alloc: Global, handle: &mut Handle, answers: &mut Lent) -> u8
    ensures reported { Unless result handle.old.value handle.new.value (λ h k. Releases result h k answers.new) }
    ensures unreported { result ≢ 0 → answers.new ≡ answers.old }
{
    let held = mem::replace(handle, Handle::empty());
    match held.into_box(alloc) {
        None => NO_REPLICA,
        Some(mut hosted) => {
            let status = releases(&mut hosted, answers);
            *handle = Handle::of(hosted);
            status
        }
    }
}

/// The replica does what is asked.
fn asks(alloc: Global, hosted: &mut Hosted, request: &[u8]) -> u8
    ensures { Asks result hosted.old request.now hosted.new }
{
    match hosted.ask(alloc, request) {
        Ok(()) => DONE,
        Err(fault) => ask_status(fault),
    }
}

/// Does what a request asks: the bytes of one, from its length on. What it is answered, also if it is refused or malformed, comes by `ep_answers`. EP_NO_REPLICA, EP_LENT;
/// EP_NOT_ONE; EP_MEMORY: nothing was done, but of kinds 6 and 12, which execute several instances: some may have been executed, no answer comes, and asking again goes on.
#[unsafe(no_mangle)]
pub extern "C" fn ep_ask(alloc: Global, handle: &mut Handle, request: &[u8]) -> u8
    ensures { Unless result handle.old.value handle.new.value (λ h k. Asks result h request.now k) }
{
    let held = mem::replace(handle, Handle::empty());
    match held.into_box(alloc) {
        None => NO_REPLICA,
        Some(mut hosted) => {
            let status = asks(alloc, &mut hosted, request);
            *handle = Handle::of(hosted);
            status
        }
    }
}
