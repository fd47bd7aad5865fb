//! Which dependencies are drawn.

ghost use Rattle.std.specs.Prelude.{◌≡◌, IfOk, option_copied, filter, not};
ghost use Rattle.ep_audit.specs.Tables.{agreed_in};
ghost use Rattle.ep_view.specs.Graphs.{lies_between, some_between, is_implied_by, is_implied, near, drawn};
ghost use Rattle.ep_view.specs.Kept.{is_one_of};

use crate::selection::is_one_of;
use ep_base::{Decree, InstanceId, ReplicaId};
use ep_journal::Journals;
use std::alloc::{AllocError, Global};

/// What the journals commit in the instance, the least replica's where several do.
pub(crate) fn agreed(journals: &Journals, instance: InstanceId) -> Option<&Decree>
    ensures { option_copied result ≡ agreed_in journals.now instance }
{
    for replica in 0..journals.size().count() {
        let id = ReplicaId::new(replica).unwrap();
        if let Some(decree) = journals.get(id).unwrap().committed(instance) {
            return Some(decree);
        }
    }
    None
}

// Whether what is committed depends on the instance, and its seq lies between these two.
fn lies_between(middle: Option<&Decree>, instance: InstanceId, low: u32, high: u32) -> bool
    ensures { result ≡ lies_between instance low high (option_copied middle.entry) }
{
    match middle {
        None => false,
        Some(decree) => {
            let seq = decree.attrs.seq.number();
            low < seq && seq < high && is_one_of(decree.attrs.deps.as_slice(), instance)
        }
    }
}

// Whether what is committed in one of these instances does.
fn some_between(
    journals: &Journals,
    near: &[InstanceId],
    instance: InstanceId,
    low: u32,
    high: u32,
) -> bool
    ensures { result ≡ some_between journals.now near.now instance low high }
{
    for middle in near {
        if lies_between(agreed(journals, *middle), instance, low, high) {
            return true;
        }
    }
    false
}

// Whether others of its dependencies, `near`, imply that what has this seq depends on the instance.
fn is_implied(journals: &Journals, near: &[InstanceId], seq: u32, instance: InstanceId) -> bool
    ensures { result ≡ is_implied journals.now near.now seq instance }
{
    match agreed(journals, instance) {
        None => false,
        Some(decree) => some_between(journals, near, instance, decree.attrs.seq.number(), seq),
    }
}

// Those of the instances that are kept.
fn kept_of(
    alloc: Global,
    kept: &[InstanceId],
    instances: &[InstanceId],
) -> Result<Vec<InstanceId>, AllocError>
    ensures { IfOk result (λ v. v.items ≡ filter (is_one_of kept.now) instances.now) }
{
    let mut found = Vec::new(alloc);
    for instance in instances {
        if is_one_of(kept, *instance) {
            found.push(*instance)?;
        }
    }
    Ok(found)
}

// The dependencies of the decree that are kept, the greatest first: it most likely implies others.
fn near_of(
    alloc: Global,
    kept: &[InstanceId],
    decree: &Decree,
) -> Result<Vec<InstanceId>, AllocError>
    ensures { IfOk result (λ v. v.items ≡ near kept.now decree.now) }
{
    let mut near = kept_of(alloc, kept, decree.attrs.deps.as_slice())?;
    near.reverse();
    Ok(near)
}

// Those of the decree's dependencies that these don't imply.
fn not_implied(
    alloc: Global,
    journals: &Journals,
    near: &[InstanceId],
    decree: &Decree,
) -> Result<Vec<InstanceId>, AllocError>
    ensures { IfOk result (λ v. v.items ≡ filter (λ j. not (is_implied journals.now near.now decree.now.attrs.seq j)) decree.now.attrs.deps) }
{
    let seq = decree.attrs.seq.number();
    let mut drawn = Vec::new(alloc);
    for instance in decree.attrs.deps.as_slice() {
        if !is_implied(journals, near, seq, *instance) {
            drawn.push(*instance)?;
        }
    }
    Ok(drawn)
}

/// The dependencies of the decree that are drawn: those that none of them implies that is kept.
pub(crate) fn drawn(
    alloc: Global,
    journals: &Journals,
    kept: &[InstanceId],
    decree: &Decree,
) -> Result<Vec<InstanceId>, AllocError>
    ensures { IfOk result (λ v. v.items ≡ drawn journals.now kept.now decree.now) }
{
    let near = near_of(alloc, kept, decree)?;
    not_implied(alloc, journals, &near, decree)
}
