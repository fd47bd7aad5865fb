//! Who answered, and with what.

ghost use Rattle.std.specs.Prelude.{◌≡◌, true, ◌&&◌, ◌||◌, not, eqb, is_some, IfOk, OnOk};
ghost use Rattle.ep_base.specs.Attributes.{same_attrs};
ghost use Rattle.ep_base.specs.Quorums.{size as size_of};
ghost use Rattle.ep_rules.specs.Answers.{answer, with_answer};
ghost use Rattle.ep_rules.specs.Counting.{is_other};
ghost use Rattle.ep_rules.specs.Phases as rules;
ghost use Rattle.ep_frame.specs.Meaning.{attrs_at, kind_at, sender_at, carries_attrs};

use crate::receivers::is_fast;
use ep_base::{Attrs, Decree, ReplicaId, Size};
use ep_frame::FrameView;
use ep_rules::Answers;
use std::alloc::{AllocError, Global};

/// How many other replicas answered.
pub(crate) fn others<X>(size: Size, me: ReplicaId, answers: &Answers<X>) -> u8
    ensures { result ≡ rules.others size me answers.now }
{
    let mut count = 0;
    for r in 0..size.count() {
        if is_answer_of_other(me, answers, r) {
            count += 1;
        }
    }
    count
}

fn is_answer_of_other<X>(me: ReplicaId, answers: &Answers<X>, r: u8) -> bool
    ensures { result ≡ (is_other me r && is_some (answer answers.now r)) }
{
    r != me.index() && answers.get(r).is_some()
}

/// How many other replicas answered, this one among them.
#[tactic(auto, using(crate::proofs::Answering::others_more))]
pub(crate) fn others_with<X>(size: Size, me: ReplicaId, answers: &Answers<X>, from: ReplicaId) -> u8
    ensures { (x : X) → result ≡ rules.others size me (with_answer answers.now from x) }
{
    let mut count = 0;
    for r in 0..size.count() {
        if is_other_answer(me, answers, from, r) {
            count += 1;
        }
    }
    count
}

fn is_other_answer<X>(me: ReplicaId, answers: &Answers<X>, from: ReplicaId, r: u8) -> bool
    ensures { result ≡ (is_other me r && (eqb from r || is_some (answer answers.now r))) }
{
    r != me.index() && has_answered(answers, from, r)
}

/// Whether the replica answered; the one that answers now did.
fn has_answered<X>(answers: &Answers<X>, from: ReplicaId, r: u8) -> bool
    ensures { result ≡ (eqb from r || is_some (answer answers.now r)) }
{
    from.index() == r || answers.get(r).is_some()
}

/// Whether all others of the leader's fast quorum that lacks the spared replica answered, the one that answers now among them.
#[tactic(auto, using(crate::proofs::Answering::fast_more))]
pub(crate) fn fast_answered(
    size: Size,
    leader: ReplicaId,
    spared: ReplicaId,
    answers: &Answers<Attrs>,
    from: ReplicaId,
) -> bool
    ensures { (a : _) → result ≡ rules.fast_answered size leader spared (with_answer answers.now from a) }
{
    let mut all = true;
    for r in 0..size.count() {
        all = (!is_fast(leader, spared, r) || has_answered(answers, from, r)) && all;
    }
    all
}

/// Whether each replica that answered did so with the attributes of the frame, which is the newest answer.
pub(crate) fn all_equal(size: Size, frame: &FrameView<'_>, answers: &Answers<Attrs>) -> bool
    ensures { result ≡ rules.all_equal size (attrs_at frame.now) (with_answer answers.now (sender_at frame.now) (attrs_at frame.now)) }
{
    let mut all = true;
    for r in 0..size.count() {
        all = is_equal(frame, answers, r) && all;
    }
    all
}

fn is_equal(frame: &FrameView<'_>, answers: &Answers<Attrs>, r: u8) -> bool
    ensures { result ≡ (not (is_some (answer (with_answer answers.now (sender_at frame.now) (attrs_at frame.now)) r)) || rules.holds (same_attrs (attrs_at frame.now)) (answer (with_answer answers.now (sender_at frame.now) (attrs_at frame.now)) r)) }
{
    if frame.from().index() == r {
        return true;
    }
    match answers.get(r) {
        None => true,
        Some(other) => frame.has_attrs(other),
    }
}

/// The decree, its attributes joined with those of all answers (EPaxos, figure 2).
pub(crate) fn joined(
    alloc: Global,
    size: Size,
    answers: &Answers<Attrs>,
    decree: &Decree,
) -> Result<Decree, AllocError>
    ensures { IfOk result (λ x. x ≡ rules.joined size answers.now decree.now) }
{
    let command = decree.command.copy(alloc)?;
    let own = decree.attrs.copy(alloc)?;
    let attrs = join_all(alloc, size, answers, own)?;
    Ok(Decree { command, attrs })
}

fn join_all(
    alloc: Global,
    size: Size,
    answers: &Answers<Attrs>,
    attrs: Attrs,
) -> Result<Attrs, AllocError>
    ensures { IfOk result (λ a. a ≡ rules.join_all (size_of size) answers.now attrs) }
{
    let mut all = attrs;
    for r in 0..size.count() {
        join_some(alloc, &mut all, answers, r)?;
    }
    Ok(all)
}

fn join_some(
    alloc: Global,
    attrs: &mut Attrs,
    answers: &Answers<Attrs>,
    r: u8,
) -> Result<(), AllocError>
    ensures { OnOk result (attrs.new ≡ rules.join_some (answer answers.now r) attrs.old) }
{
    if let Some(other) = answers.get(r) {
        let deps = other.deps.joined(alloc, &attrs.deps)?;
        attrs.deps = deps;
        attrs.seq = other.seq.greater(attrs.seq);
    }
    Ok(())
}

/// The decree, its attributes joined with those of all answers, the frame's among them.
pub(crate) fn joined_with(
    alloc: Global,
    size: Size,
    answers: &Answers<Attrs>,
    frame: &FrameView<'_>,
    decree: &Decree,
) -> Result<Decree, AllocError>
    requires attrs { carries_attrs (kind_at frame.now) ≡ true }
    ensures { IfOk result (λ x. x ≡ rules.joined size (with_answer answers.now (sender_at frame.now) (attrs_at frame.now)) decree.now) }
{
    let command = decree.command.copy(alloc)?;
    let attrs = decree.attrs.copy(alloc)?;
    let attrs = join_all_with(alloc, size, answers, frame, attrs)?;
    Ok(Decree { command, attrs })
}

fn join_all_with(
    alloc: Global,
    size: Size,
    answers: &Answers<Attrs>,
    frame: &FrameView<'_>,
    attrs: Attrs,
) -> Result<Attrs, AllocError>
    requires attrs { carries_attrs (kind_at frame.now) ≡ true }
    ensures { IfOk result (λ a. a ≡ rules.join_all (size_of size) (with_answer answers.now (sender_at frame.now) (attrs_at frame.now)) attrs) }
{
    let mut all = attrs;
    for r in 0..size.count() {
        join_one(alloc, &mut all, answers, frame, r)?;
    }
    Ok(all)
}

fn join_one(
    alloc: Global,
    attrs: &mut Attrs,
    answers: &Answers<Attrs>,
    frame: &FrameView<'_>,
    r: u8,
) -> Result<(), AllocError>
    requires attrs { carries_attrs (kind_at frame.now) ≡ true }
    ensures { OnOk result (attrs.new ≡ rules.join_some (answer (with_answer answers.now (sender_at frame.now) (attrs_at frame.now)) r) attrs.old) }
{
    if frame.from().index() == r {
        return frame.join_to(alloc, attrs);
    }
    join_some(alloc, attrs, answers, r)
}
