//! The choice among the answers to a Prepare (EPaxos, figure 3; Sutra, 2019: it goes by the ballot of the last vote).

ghost use Rattle.std.specs.Prelude.{◌≡◌, ◌≤◌, ◌&&◌, eqb};
ghost use Rattle.std.specs.Option.{option_copied};
ghost use Rattle.ep_base.specs.Quorums.{size as size_of};
ghost use Rattle.ep_rules.specs.Answers.{answer};
ghost use Rattle.ep_rules.specs.Counting as counting;
ghost use Rattle.ep_rules.specs.Recovery as rules;
ghost use Rattle.ep_prepare.specs.Chosen as parts;
ghost use Rattle.ep_prepare.specs.Chosen.{chosen};

use crate::choice::Choice;
use ep_base::{Ballot, Decree, ReplicaId, Size, Vote, VoteStatus};

/// What a replica answered to a Prepare: its last vote, if it voted.
pub type PrepareAnswer = (ReplicaId, Option<Vote>);

/// The choice among the answers of F+1 replicas about an instance with this leader.
///
/// In this order: a committed decree; one that was accepted at the greatest ballot; one that F replicas other than the
/// leader pre-accepted at the default ballot, if no ballot is greater; a command that was pre-accepted at the greatest
/// ballot; a no-op. Where several answers qualify, that of the least replica is chosen.
pub fn choose(answers: &[PrepareAnswer], leader: ReplicaId, size: Size) -> Choice<'_>
    ensures { chosen result ≡ rules.choose size leader (λ r. answer answers.now r) }
{
    let top = top_ballot(answers, leader, size);
    choose_with(answers, leader, top, size)
}

/// The choice; `top` is the greatest ballot at which a replica voted.
fn choose_with(answers: &[PrepareAnswer], leader: ReplicaId, top: Ballot, size: Size) -> Choice<'_>
    ensures { chosen result ≡ parts.choose_with size leader top (λ r. answer answers.now r) }
{
    if let Some(replica) = least_committed(answers, size)
        && let Some(Some(vote)) = answer_of(answers, replica)
    {
        return Choice::Commit(&vote.decree);
    }
    choose_uncommitted(answers, leader, top, size)
}

/// The choice where no answer is committed.
fn choose_uncommitted(
    answers: &[PrepareAnswer],
    leader: ReplicaId,
    top: Ballot,
    size: Size,
) -> Choice<'_>
    ensures { chosen result ≡ parts.choose_uncommitted size leader top (λ r. answer answers.now r) }
{
    if let Some(replica) = least_accepted(answers, top, size)
        && let Some(Some(vote)) = answer_of(answers, replica)
    {
        return Choice::Accept(&vote.decree);
    }
    choose_voted(answers, leader, top, size)
}

/// The choice where none is accepted at the greatest ballot, either.
fn choose_voted(answers: &[PrepareAnswer], leader: ReplicaId, top: Ballot, size: Size) -> Choice<'_>
    ensures { chosen result ≡ parts.choose_voted size leader top (λ r. answer answers.now r) }
{
    if let Some(replica) = least_fast_witness(answers, leader, top, size)
        && let Some(Some(vote)) = answer_of(answers, replica)
    {
        return Choice::AcceptFast(&vote.decree);
    }
    choose_command(answers, top, size)
}

/// The choice where the fast path can't have committed, either.
fn choose_command(answers: &[PrepareAnswer], top: Ballot, size: Size) -> Choice<'_>
    ensures { chosen result ≡ parts.choose_command size top (λ r. answer answers.now r) }
{
    if let Some(replica) = least_preaccepted(answers, top, size)
        && let Some(Some(vote)) = answer_of(answers, replica)
    {
        return Choice::Propose(&vote.decree.command);
    }
    Choice::ProposeNoop
}

/// What this replica answered, if it did.
fn answer_of(answers: &[PrepareAnswer], replica: u8) -> Option<&Option<Vote>>
    ensures { option_copied result ≡ answer answers.now replica }
{
    for (from, vote) in answers {
        if from.index() == replica {
            return Some(vote);
        }
    }
    None
}

/// The ballot of this replica's last vote: the default one where it didn't vote, and the least where it didn't answer.
fn answered_ballot(answers: &[PrepareAnswer], leader: ReplicaId, replica: u8) -> Ballot
    ensures { result ≡ rules.answered_ballot leader (answer answers.now replica) }
{
    match answer_of(answers, replica) {
        None => Ballot::default_of(ReplicaId::first()),
        Some(None) => Ballot::default_of(leader),
        Some(Some(vote)) => vote.ballot,
    }
}

/// The greatest of these ballots.
fn top_ballot(answers: &[PrepareAnswer], leader: ReplicaId, size: Size) -> Ballot
    ensures { result ≡ rules.top_ballot leader (size_of size) (λ r. answer answers.now r) }
{
    let mut top = Ballot::default_of(ReplicaId::first());
    for r in 0..size.count() {
        top = answered_ballot(answers, leader, r).max(top);
    }
    top
}

/// The least replica that answered a committed vote.
fn least_committed(answers: &[PrepareAnswer], size: Size) -> Option<u8>
    ensures { result ≡ counting.least (size_of size) (λ r. rules.votes rules.did_commit (answer answers.now r)) }
{
    let mut found = None;
    for r in 0..size.count() {
        if found.is_none() && has_committed(answers, r) {
            found = Some(r);
        }
    }
    found
}

fn has_committed(answers: &[PrepareAnswer], replica: u8) -> bool
    ensures { result ≡ rules.votes rules.did_commit (answer answers.now replica) }
{
    match answer_of(answers, replica) {
        Some(Some(vote)) => matches!(vote.status, VoteStatus::Committed),
        _ => false,
    }
}

/// The least replica that answered a vote accepted at this ballot.
fn least_accepted(answers: &[PrepareAnswer], ballot: Ballot, size: Size) -> Option<u8>
    ensures { result ≡ counting.least (size_of size) (λ r. rules.votes (rules.did_accept_at ballot) (answer answers.now r)) }
{
    let mut found = None;
    for r in 0..size.count() {
        if found.is_none() && has_accepted(answers, ballot, r) {
            found = Some(r);
        }
    }
    found
}

fn has_accepted(answers: &[PrepareAnswer], ballot: Ballot, replica: u8) -> bool
    ensures { result ≡ rules.votes (rules.did_accept_at ballot) (answer answers.now replica) }
{
    match answer_of(answers, replica) {
        Some(Some(vote)) => matches!(vote.status, VoteStatus::Accepted) && vote.ballot == ballot,
        _ => false,
    }
}

/// The least replica that answered a vote pre-accepted at this ballot.
fn least_preaccepted(answers: &[PrepareAnswer], ballot: Ballot, size: Size) -> Option<u8>
    ensures { result ≡ counting.least (size_of size) (λ r. rules.votes (rules.did_preaccept_at ballot) (answer answers.now r)) }
{
    let mut found = None;
    for r in 0..size.count() {
        if found.is_none() && has_preaccepted(answers, ballot, r) {
            found = Some(r);
        }
    }
    found
}

fn has_preaccepted(answers: &[PrepareAnswer], ballot: Ballot, replica: u8) -> bool
    ensures { result ≡ rules.votes (rules.did_preaccept_at ballot) (answer answers.now replica) }
{
    match answer_of(answers, replica) {
        Some(Some(vote)) => did_preaccept_at(vote, ballot),
        _ => false,
    }
}

fn did_preaccept_at(vote: &Vote, ballot: Ballot) -> bool
    ensures { result ≡ rules.did_preaccept_at ballot vote.now }
{
    matches!(vote.status, VoteStatus::PreAccepted) && vote.ballot == ballot
}

/// The least replica that stands for F answers which may have been the fast quorum's, if no ballot is greater.
fn least_fast_witness(
    answers: &[PrepareAnswer],
    leader: ReplicaId,
    top: Ballot,
    size: Size,
) -> Option<u8>
    ensures { result ≡ counting.least (size_of size) (λ r. eqb top leader && rules.is_fast_witness size leader (λ q. answer answers.now q) r) }
{
    let mut found = None;
    for r in 0..size.count() {
        if found.is_none()
            && top == Ballot::default_of(leader)
            && is_fast_witness(answers, leader, r, size)
        {
            found = Some(r);
        }
    }
    found
}

fn is_fast_witness(answers: &[PrepareAnswer], leader: ReplicaId, replica: u8, size: Size) -> bool
    ensures { result ≡ rules.is_fast_witness size leader (λ q. answer answers.now q) replica }
{
    if leader.index() == replica {
        return false;
    }
    match answer_of(answers, replica) {
        Some(Some(vote)) => {
            did_preaccept_at(vote, Ballot::default_of(leader))
                && is_backed(answers, leader, &vote.decree, size)
        }
        _ => false,
    }
}

/// Whether F replicas other than the leader pre-accepted this decree at the default ballot.
fn is_backed(answers: &[PrepareAnswer], leader: ReplicaId, decree: &Decree, size: Size) -> bool
    ensures { result ≡ rules.is_backed size leader (λ q. answer answers.now q) decree.now }
{
    count_backing(answers, leader, decree, size) >= size.faults()
}

/// How many replicas other than the leader did so.
fn count_backing(answers: &[PrepareAnswer], leader: ReplicaId, decree: &Decree, size: Size) -> u8
    ensures value { result ≡ counting.count (size_of size) (λ r. counting.is_other leader r && rules.votes (rules.did_preaccept_this leader decree.now) (answer answers.now r)) }
    ensures in_range { result ≤ size_of size }
{
    let mut backing = 0;
    for r in 0..size.count() {
        if is_backing(answers, leader, decree, r) {
            backing += 1;
        }
    }
    backing
}

fn is_backing(answers: &[PrepareAnswer], leader: ReplicaId, decree: &Decree, replica: u8) -> bool
    ensures { result ≡ (counting.is_other leader replica && rules.votes (rules.did_preaccept_this leader decree.now) (answer answers.now replica)) }
{
    if replica == leader.index() {
        return false;
    }
    match answer_of(answers, replica) {
        Some(Some(vote)) => {
            did_preaccept_at(vote, Ballot::default_of(leader)) && vote.decree.is_same(decree)
        }
        _ => false,
    }
}
