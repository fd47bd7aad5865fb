//! What a recovering replica does with an answer to its Prepare.

ghost use Rattle.std.specs.Prelude.{◌≡◌, Ok, IfOk, IfErr};
ghost use Rattle.ep_base.specs.Instances.{leader_of};
ghost use Rattle.ep_rules.specs.Answers.{answer};
ghost use Rattle.ep_rules.specs.InterferenceSet.{interference};
ghost use Rattle.ep_rules.specs.Recovery as rules;
ghost use Rattle.ep_phase.specs.Changes.{change_of};
ghost use Rattle.ep_phase.specs.InstanceViews.{record_of};
ghost use Rattle.ep_phase.specs.Refused.{IsRefused};
ghost use Rattle.ep_prepare.specs.Chosen.{chosen};

use crate::choice::Choice;
use crate::choosing::choose;
use ep_base::{Ballot, Command, ReplicaId, Size, Vote};
use ep_phase::{
    Change, DecisionFault, InstanceView, begin_accept, begin_commit, is_usable, start_at,
};
use ep_rules::{Answers, LedInstance};
use std::alloc::{AllocError, Global};

/// Handles a PrepareOK: it counts while this replica leads the ballot in explicit prepare, has promised no other ballot and has not committed,
/// once for each replica. With F+1 answers, its own among them, the replica chooses, and begins the phase that the choice asks for.
/// `SeqExhausted` where the sequence number of a phase 1 would pass 1,000,000.
pub fn on_prepare_ok(
    alloc: Global,
    cell: &InstanceView<'_>,
    from: ReplicaId,
    ballot: Ballot,
    vote: Option<Vote>,
) -> Result<Change, DecisionFault>
    ensures ok { IfOk result (λ ch. rules.on_prepare_ok cell.now.faults cell.now.instance cell.now.me from ballot vote (interference cell.now.records cell.now.instance) (record_of cell.now) cell.now.led ≡ Ok (change_of cell.now ch)) }
    ensures refused { IfErr result (λ e. IsRefused (rules.on_prepare_ok cell.now.faults cell.now.instance cell.now.me from ballot vote (interference cell.now.records cell.now.instance) (record_of cell.now) cell.now.led) e) }
{
    let more = more_preparing(alloc, cell, from, vote)?;
    let Some((led, answers)) = more else {
        return Ok(Change::nothing());
    };
    if !is_usable(cell, ballot, led) {
        return Ok(Change::nothing());
    }
    count_prepare_ok(alloc, cell, ballot, answers)
}

/// The ballot led in explicit prepare, and its answers with this one, if this replica has not answered yet.
fn more_preparing(
    alloc: Global,
    cell: &InstanceView<'_>,
    from: ReplicaId,
    vote: Option<Vote>,
) -> Result<Option<(Ballot, Answers<Option<Vote>>)>, AllocError>
    ensures { IfOk result (λ o. o ≡ rules.more_preparing from vote cell.now.led) }
{
    match cell.led() {
        Some(LedInstance::Preparing(ballot, answers)) => {
            if answers.get(from.index()).is_some() {
                return Ok(None);
            }
            let more = answers.with(alloc, from, vote)?;
            Ok(Some((*ballot, more)))
        }
        _ => Ok(None),
    }
}

fn count_prepare_ok(
    alloc: Global,
    cell: &InstanceView<'_>,
    ballot: Ballot,
    answers: Answers<Option<Vote>>,
) -> Result<Change, DecisionFault>
    ensures ok { IfOk result (λ ch. rules.count_prepare_ok cell.now.faults cell.now.instance cell.now.me ballot answers (interference cell.now.records cell.now.instance) (record_of cell.now) ≡ Ok (change_of cell.now ch)) }
    ensures refused { IfErr result (λ e. IsRefused (rules.count_prepare_ok cell.now.faults cell.now.instance cell.now.me ballot answers (interference cell.now.records cell.now.instance) (record_of cell.now)) e) }
{
    let size = cell.size();
    if size.faults() + 1 <= answered_all(size, &answers) {
        return act_by(alloc, cell, ballot, &answers);
    }
    Ok(Change::kept(LedInstance::Preparing(ballot, answers)))
}

/// Chooses among the answers, and begins the phase that the choice asks for.
fn act_by(
    alloc: Global,
    cell: &InstanceView<'_>,
    ballot: Ballot,
    answers: &Answers<Option<Vote>>,
) -> Result<Change, DecisionFault>
    ensures ok { IfOk result (λ ch. rules.act_on cell.now.faults cell.now.instance cell.now.me ballot (interference cell.now.records cell.now.instance) (record_of cell.now) (rules.choose cell.now.faults (leader_of cell.now.instance) (λ q. answer answers.now q)) ≡ Ok (change_of cell.now ch)) }
    ensures refused { IfErr result (λ e. IsRefused (rules.act_on cell.now.faults cell.now.instance cell.now.me ballot (interference cell.now.records cell.now.instance) (record_of cell.now) (rules.choose cell.now.faults (leader_of cell.now.instance) (λ q. answer answers.now q))) e) }
{
    let choice = choice_of(answers, cell);
    act_on(alloc, cell, ballot, choice)
}

/// The choice among the answers.
fn choice_of<'a>(answers: &'a Answers<Option<Vote>>, cell: &InstanceView<'_>) -> Choice<'a>
    ensures { chosen result ≡ rules.choose cell.now.faults (leader_of cell.now.instance) (λ q. answer answers.now q) }
{
    choose(answers.as_slice(), cell.id().replica(), cell.size())
}

/// How many replicas answered.
fn answered_all(size: Size, answers: &Answers<Option<Vote>>) -> u8
    ensures { result ≡ rules.answered_all size answers.now }
{
    let mut count = 0;
    for r in 0..size.count() {
        if answers.get(r).is_some() {
            count += 1;
        }
    }
    count
}

/// Begins the phase that the choice asks for.
fn act_on(
    alloc: Global,
    cell: &InstanceView<'_>,
    ballot: Ballot,
    choice: Choice<'_>,
) -> Result<Change, DecisionFault>
    ensures ok { IfOk result (λ ch. rules.act_on cell.now.faults cell.now.instance cell.now.me ballot (interference cell.now.records cell.now.instance) (record_of cell.now) (chosen choice.entry) ≡ Ok (change_of cell.now ch)) }
    ensures refused { IfErr result (λ e. IsRefused (rules.act_on cell.now.faults cell.now.instance cell.now.me ballot (interference cell.now.records cell.now.instance) (record_of cell.now) (chosen choice.entry)) e) }
{
    match choice {
        Choice::Commit(decree) => {
            let decree = decree.copy(alloc)?;
            Ok(begin_commit(decree))
        }
        Choice::Accept(decree) | Choice::AcceptFast(decree) => {
            let decree = decree.copy(alloc)?;
            Ok(begin_accept(alloc, ballot, decree))
        }
        Choice::Propose(command) => {
            let command = command.copy(alloc)?;
            start_at(alloc, cell, ballot, command)
        }
        Choice::ProposeNoop => start_at(alloc, cell, ballot, Command::noop()),
    }
}
