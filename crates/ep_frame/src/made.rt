//! What the numbers in a frame stand for.

ghost use Rattle.std.specs.Prelude.{◌≡◌, ◌≤◌, IfOk, true};
ghost use Rattle.ep_base.specs.Ballots.{ballot_of, highest_counter};
ghost use Rattle.ep_frame.specs.Fields.{deps_in};
ghost use Rattle.ep_frame.specs.Faults.{are_deps};
ghost use Rattle.ep_frame.specs.Meaning.{status_of};

use crate::view::{dep_of, made_replica};
use ep_base::{Ballot, Deps, Seq, VoteStatus};
use std::alloc::{AllocError, Global};

pub(crate) fn made_ballot(counter: u16, replica: u8) -> Ballot
    requires counter { counter ≤ highest_counter }
    requires replica { replica ≤ 6 }
    ensures { result ≡ ballot_of counter replica }
{
    match Ballot::new(counter, made_replica(replica)) {
        Ok(ballot) => ballot,
        Err(_) => unreachable!(),
    }
}

pub(crate) fn made_seq(number: u32) -> Seq
    requires low { 1 ≤ number }
    requires high { number ≤ 1000000 }
    ensures { result ≡ number }
{
    match Seq::new(number) {
        Ok(seq) => seq,
        Err(_) => unreachable!(),
    }
}

pub(crate) fn made_status(status: u8) -> VoteStatus
    ensures { result ≡ status_of status }
{
    match status {
        1 => VoteStatus::PreAccepted,
        2 => VoteStatus::Accepted,
        _ => VoteStatus::Committed,
    }
}

pub(crate) fn made_deps(alloc: Global, bytes: &[u8]) -> Result<Deps, AllocError>
    requires { are_deps (deps_in bytes.now) ≡ true }
    ensures { IfOk result (λ d. d ≡ deps_in bytes.now) }
{
    let mut deps = Vec::with_capacity(alloc, bytes.len() / 3)?;
    let mut rest = bytes;
    while let [replica, high, low, after @ ..] = rest {
        let number = u16::from_be_bytes([*high, *low]);
        let Some(dep) = dep_of(*replica, number) else {
            unreachable!();
        };
        deps.push_reserved(dep);
        rest = after;
    }
    Ok(Deps::of_rising(deps))
}
