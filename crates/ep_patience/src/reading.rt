//! Open instances, from their bytes.

ghost use Rattle.std.specs.Prelude.{◌≡◌, ◌≤◌, [], ◌∷◌, ◌++◌, length, Some, None, Err, IfOk, OnOk};
ghost use Rattle.ep_patience.specs.OpenBytes.{above, instance_if, leads_of, open_list, seen_at};
ghost use Rattle.ep_patience.specs.declared.turn_fault.TurnFault.TheVariants.{NotOpen};

use crate::seen::Seen;
use crate::turn_fault::TurnFault;
use ep_base::{InstanceId, ReplicaId};
use ep_phase::LeadPhase;
use std::alloc::{AllocError, Global};

/// How far an instance is led.
fn leads_of(phase: u8, answers: u8) -> Option<(LeadPhase, u8)>
    ensures { result ≡ leads_of phase answers }
{
    if phase == 1 {
        Some((LeadPhase::Proposing, answers))
    } else if phase == 2 {
        Some((LeadPhase::Accepting, answers))
    } else if phase == 3 {
        Some((LeadPhase::Preparing, answers))
    } else {
        None
    }
}

/// The instance of this leader and this number.
fn instance_of(leader: u8, number: u16) -> Option<InstanceId>
    ensures { result ≡ instance_if leader number }
{
    if leader > 6 || number == 0 || number > InstanceId::HIGHEST_NUMBER {
        return None;
    }
    let leader = ReplicaId::from_valid(leader);
    InstanceId::new(leader, number).ok()
}

/// The open instance that these bytes begin with.
fn seen_at(bytes: &[u8]) -> Option<Seen>
    requires { 10 ≤ length bytes.now }
    ensures { result ≡ seen_at bytes.now }
{
    let number = u16::from(bytes[1]) * 256 + u16::from(bytes[2]);
    let instance = instance_of(bytes[0], number)?;
    let phase = bytes[7];
    let spared = bytes[9];
    if phase > 4 || spared > 6 {
        return None;
    }
    Some(Seen {
        instance,
        leads: leads_of(phase, bytes[8]),
        is_reported: phase == 4,
        spared: ReplicaId::from_valid(spared),
    })
}

/// What is seen there, if its number is above this one.
fn next_seen(last: u32, bytes: &[u8]) -> Option<Seen>
    requires { 10 ≤ length bytes.now }
    ensures { result ≡ above last (seen_at bytes.now) }
{
    let seen = seen_at(bytes)?;
    if seen.instance.place() <= last {
        return None;
    }
    Some(seen)
}

/// Adds an open instance.
fn add(all: &mut Vec<Seen>, seen: Seen) -> Result<(), AllocError>
    ensures { OnOk result (all.new.items ≡ all.old.items ++ seen ∷ []) }
{
    all.push(seen)?;
    Ok(())
}

/// The open instances that the bytes are, ten for each.
#[tactic(auto, using(crate::proofs::OpenRead::not_read, crate::proofs::OpenRead::all_read, crate::proofs::OpenRead::cut_off))]
pub(crate) fn read_open(alloc: Global, bytes: &[u8]) -> Result<Vec<Seen>, TurnFault>
    ensures ok { IfOk result (λ seen. open_list bytes.now ≡ Some seen.items) }
    ensures not { result ≡ Err NotOpen → open_list bytes.now ≡ None }
{
    let mut rest = bytes;
    let mut last = 0;
    let mut seen = Vec::with_capacity(alloc, bytes.len() / 10)?;
    while let [_, _, _, _, _, _, _, _, _, _, after @ ..] = rest {
        let Some(one) = next_seen(last, rest) else {
            return Err(TurnFault::NotOpen);
        };
        last = one.instance.place();
        add(&mut seen, one)?;
        rest = after;
    }
    if rest.is_empty() {
        Ok(seen)
    } else {
        Err(TurnFault::NotOpen)
    }
}
