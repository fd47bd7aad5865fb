//! What is asked for, and how long is waited then.

ghost use Rattle.std.specs.Prelude.{◌≡◌, ◌≤◌, ◌+◌, ◌*◌, min};
ghost use Rattle.ep_patience.specs.Waiting.{asked, asked_wait, begun, chance, hurried, is_hopeless, is_late, is_own, later, put_off, put_off_wait, remedy_at, remedy_of, remedy_proposed, waited_on, IsWithin};

use crate::outlook::Outlook;
use crate::remedy::Remedy;
use crate::seen::Seen;
use crate::waiting::Waiting;
use crate::waits::Waits;
use ep_base::InstanceId;
use ep_phase::LeadPhase;
use rand_core::SeedableRng;
use rand_core::utils::NextWord;
use rand_xoshiro::SplitMix64;

/// After so many waits in which nothing was asked for an own instance is recovered.
const MOST_SILENT: u8 = 3;

/// A random number for the instance at this time.
#[tactic(auto, unfolding(crate::specs::Waiting::chance))]
pub(crate) fn chance(seed: u64, now: u64, instance: InstanceId) -> u64
    ensures { result ≡ chance seed now instance }
{
    let place = u64::from(instance.place());
    let mut random = SplitMix64::seed_from_u64(seed.wrapping_add(now).wrapping_add(place));
    random.next_word()
}

/// A time that is at least once and at most twice so long after this one, by this random number.
#[tactic(auto, unfolding(crate::specs::Waiting::later))]
pub(crate) fn later(now: u64, wait: u32, random: u64) -> u64
    ensures value { result ≡ later now wait random }
    ensures within { IsWithin now wait result }
{
    let least = u64::from(wait);
    now.saturating_add(least + random % (least + 1))
}

/// Whether the replica leads the instance's numbers.
fn is_own(outlook: &Outlook, seen: &Seen) -> bool
    ensures { result ≡ is_own outlook.now seen.now }
{
    seen.instance.replica() == outlook.place.me
}

/// How an instance is waited for that is seen open for the first time, where a message to its leader and back takes so long.
pub(crate) fn begun(
    outlook: &Outlook,
    reported: u32,
    distance: u32,
    seen: &Seen,
    random: u64,
) -> Waiting
    ensures { result ≡ begun outlook.now reported distance seen.now random }
{
    let due = if seen.is_reported {
        later(outlook.time, reported, random)
    } else if is_own(outlook, seen) {
        outlook.time.saturating_add(u64::from(outlook.own))
    } else {
        later(outlook.time, outlook.again.saturating_add(distance), random)
    };
    Waiting {
        due,
        wait: 0,
        is_asked: false,
        silent: 0,
    }
}

/// How it is waited for once it is hurried, where something was asked for before.
pub(crate) fn hurried(outlook: &Outlook, waiting: Waiting, random: u64) -> Waiting
    ensures { result ≡ hurried outlook.now waiting random }
{
    if !waiting.is_asked {
        return waiting;
    }
    Waiting {
        due: waiting.due.min(later(outlook.time, outlook.again, random)),
        wait: outlook.again,
        is_asked: true,
        silent: waiting.silent,
    }
}

/// Whether an own proposal that so many have answered can't have the answers any more for which it waits.
fn is_hopeless(outlook: &Outlook, answers: u8) -> bool
    ensures { result ≡ is_hopeless outlook.now answers }
{
    let faults = outlook.place.size.faults();
    if faults <= answers {
        (outlook.members as u16) + 1 < 2 * (faults as u16)
    } else {
        outlook.members < faults
    }
}

/// Whether the wait is over, or there is nothing to wait for.
fn is_late(outlook: &Outlook, seen: &Seen, waiting: &Waiting) -> bool
    ensures { result ≡ is_late outlook.now seen.now waiting.now }
{
    if waiting.due <= outlook.time {
        return true;
    }
    if waiting.is_asked || !is_own(outlook, seen) {
        return false;
    }
    match seen.leads {
        Some((LeadPhase::Proposing, answers)) => is_hopeless(outlook, answers),
        _ => false,
    }
}

/// What is asked for an own instance in the first phase, which so many have answered.
fn remedy_proposed(
    outlook: &Outlook,
    instance: InstanceId,
    answers: u8,
    silent: u8,
) -> Option<Remedy>
    ensures { result ≡ remedy_proposed outlook.now instance answers silent }
{
    let faults = outlook.place.size.faults();
    if faults <= answers {
        return Some(Remedy::GiveUp(instance));
    }
    if outlook.members < faults || MOST_SILENT <= silent {
        return Some(Remedy::Recover(instance));
    }
    None
}

/// What is asked for an instance that is late.
fn remedy_of(outlook: &Outlook, seen: &Seen, waiting: &Waiting) -> Option<Remedy>
    ensures { result ≡ remedy_of outlook.now seen.now waiting.now }
{
    let instance = seen.instance;
    if !is_own(outlook, seen) {
        return Some(Remedy::Recover(instance));
    }
    match seen.leads {
        Some((LeadPhase::Proposing, answers)) => {
            remedy_proposed(outlook, instance, answers, waiting.silent)
        }
        Some((LeadPhase::Accepting, _)) => {
            if MOST_SILENT <= waiting.silent {
                Some(Remedy::Recover(instance))
            } else {
                None
            }
        }
        Some((LeadPhase::Preparing, _)) => Some(Remedy::Recover(instance)),
        None => Some(Remedy::Recover(instance)),
    }
}

/// What is asked for an instance, if it is late and something is.
pub(crate) fn remedy_at(outlook: &Outlook, seen: &Seen, waiting: &Waiting) -> Option<Remedy>
    ensures { result ≡ remedy_at outlook.now seen.now waiting.now }
{
    if is_late(outlook, seen, waiting) {
        remedy_of(outlook, seen, waiting)
    } else {
        None
    }
}

/// How long at least is waited once something is asked for.
fn asked_wait(outlook: &Outlook, longest: u32, waiting: &Waiting) -> u32
    ensures { result ≡ asked_wait outlook.now longest waiting.now }
{
    if waiting.is_asked {
        waiting.wait.saturating_mul(2).min(longest)
    } else {
        outlook.again
    }
}

/// How an instance is waited for that is asked for now.
pub(crate) fn asked(outlook: &Outlook, longest: u32, waiting: &Waiting, random: u64) -> Waiting
    ensures { result ≡ asked outlook.now longest waiting.now random }
{
    let wait = asked_wait(outlook, longest, waiting);
    Waiting {
        due: later(outlook.time, wait, random),
        wait,
        is_asked: true,
        silent: 0,
    }
}

/// How an instance is waited for that is late, and for which nothing is asked.
pub(crate) fn waited_on(outlook: &Outlook, waiting: &Waiting) -> Waiting
    ensures { result ≡ waited_on outlook.now waiting.now }
{
    Waiting {
        due: outlook.time.saturating_add(u64::from(outlook.own)),
        wait: waiting.wait,
        is_asked: waiting.is_asked,
        silent: if waiting.silent < MOST_SILENT {
            waiting.silent + 1
        } else {
            waiting.silent
        },
    }
}

/// How long at least is waited once somebody has begun to recover an instance, at a ballot of this counter, where so long is waited for a recovery.
pub(crate) fn put_off_wait(again: u32, longest: u32, ballot: u16) -> u32
    ensures { result ≡ put_off_wait again longest ballot }
{
    let times = (1 + u32::from(ballot) / 8).min(16);
    again.saturating_mul(times).min(longest)
}

/// How an instance is waited for that is put off until then at least.
pub(crate) fn put_off(waiting: Waiting, until: u64) -> Waiting
    ensures { result ≡ put_off waiting until }
{
    Waiting {
        due: waiting.due.max(until),
        wait: waiting.wait,
        is_asked: waiting.is_asked,
        silent: waiting.silent,
    }
}
