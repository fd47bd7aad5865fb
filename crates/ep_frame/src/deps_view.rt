//! The dependencies in a frame's bytes.

ghost use Rattle.std.specs.Prelude.{◌≡◌, ◌≤◌, ◌<◌, ◌↔◌, ◌∷◌, ◌++◌, IsTrue, IfSome, Some, length};
ghost use Rattle.std.specs.List.{slice_get};
ghost use Rattle.std.specs.Ordering.{MatchOrdering};
ghost use Rattle.std.specs.Iterator.{YieldsFirst, YieldsLast, UpTo, item_count};
ghost use Rattle.std.specs.Iterator.SizeHint.{IsWithinCount};
ghost use Rattle.ep_base.specs.Deps.{IsRising, most_deps};
ghost use Rattle.ep_base.specs.Places.{Has};
ghost use Rattle.ep_frame.specs.Fields.{deps_in};
ghost use Rattle.ep_frame.specs.DepBytes.{AreDepBytes};

use crate::view::dep_of;
use ep_base::InstanceId;
use std::cmp::Ordering;
use std::marker::Model;

/// The dependencies of a frame, in rising order. They are read from the frame's bytes as they are asked for.
#[derive(Drop)]
pub struct DepsView<'a> {
    bytes: &'a [u8],
}

impl<'a> Model for DepsView<'a> {
    ghost use Rattle.std.specs.Prelude.{ℕ, List};
    ghost use Rattle.ep_frame.specs.Fields.{deps_in};
    ghost use Rattle.ep_frame.specs.DepBytes.{AreDepBytes};

    ghost Value = { List ℕ };

    ghost view = { λ v. deps_in v.bytes.now };

    ghost invariant = { λ v. AreDepBytes v.bytes.now };
}

// The first dependency, and the bytes of the others.
fn first_in(bytes: &[u8]) -> (InstanceId, &[u8])
    requires bytes { AreDepBytes bytes.now }
    requires some { 0 < length (deps_in bytes.now) }
    ensures deps { deps_in bytes.now ≡ result.0 ∷ deps_in result.1.now }
    ensures rest { AreDepBytes result.1.now }
{
    let dep = match dep_of(bytes[0], u16::from_be_bytes([bytes[1], bytes[2]])) {
        Some(dep) => dep,
        None => unreachable!(),
    };
    (dep, &bytes[3..])
}

// The bytes of the first so many dependencies, and those of the others.
fn split_in(bytes: &[u8], count: usize) -> (&[u8], &[u8])
    requires bytes { AreDepBytes bytes.now }
    requires within { count ≤ length (deps_in bytes.now) }
    ensures deps { deps_in bytes.now ≡ deps_in result.0.now ++ deps_in result.1.now }
    ensures count { length (deps_in result.0.now) ≡ count }
    ensures first { AreDepBytes result.0.now }
    ensures second { AreDepBytes result.1.now }
{
    bytes.split_at(3 * count)
}

fn count_in(bytes: &[u8]) -> usize
    requires { AreDepBytes bytes.now }
    ensures value { result ≡ length (deps_in bytes.now) }
    ensures bound { result ≤ most_deps }
{
    bytes.len() / 3
}

fn get_in(bytes: &[u8], place: usize) -> Option<InstanceId>
    requires { AreDepBytes bytes.now }
    ensures { result ≡ slice_get (deps_in bytes.now) place }
{
    if place >= count_in(bytes) {
        return None;
    }
    let (_, second) = split_in(bytes, place);
    let (dep, _) = first_in(second);
    Some(dep)
}

fn compared(a: InstanceId, b: InstanceId) -> Ordering
    ensures { MatchOrdering result (a < b) (a ≡ b) (b < a) }
{
    a.cmp(&b)
}

// By halves: each time the half that cannot have it is left out.
fn contains_in(bytes: &[u8], dep: InstanceId) -> bool
    requires { AreDepBytes bytes.now }
    ensures { IsTrue result ↔ Has (deps_in bytes.now) dep }
{
    let mut rest = bytes;
    while !rest.is_empty() {
        let (low, second) = split_in(rest, count_in(rest) / 2);
        let (middle, high) = first_in(second);
        match compared(middle, dep) {
            Ordering::Less => rest = high,
            Ordering::Equal => return true,
            Ordering::Greater => rest = low,
        }
    }
    false
}

impl<'a> DepsView<'a> {
    // The dependencies in these bytes.
    pub(crate) fn of(bytes: &'a [u8]) -> DepsView<'a>
        requires { AreDepBytes bytes.now }
        ensures { result ≡ deps_in bytes.now }
    {
        DepsView { bytes }
    }

    /// How many there are, at most 63,000.
    pub fn len(&self) -> usize
        ensures value { result ≡ length self.now }
        ensures bound { result ≤ most_deps }
    {
        count_in(self.bytes)
    }

    /// Whether there are none.
    pub fn is_empty(&self) -> bool
        ensures { IsTrue result ↔ (length self.now ≡ 0) }
    {
        self.len() == 0
    }

    /// The dependency at this place, counted from 0 in rising order.
    pub fn get(&self, place: usize) -> Option<InstanceId>
        ensures { result ≡ slice_get self.now place }
    {
        get_in(self.bytes, place)
    }

    /// Whether the instance is one of them.
    pub fn contains(&self, dep: InstanceId) -> bool
        ensures { IsTrue result ↔ Has self.now dep }
    {
        contains_in(self.bytes, dep)
    }

    /// Goes over them, from either end.
    pub fn iter(&self) -> DepsIter<'a>
        ensures { result ≡ self.now }
    {
        DepsIter { bytes: self.bytes }
    }
}

/// The dependencies of a frame that an iteration hasn't given yet.
#[derive(Drop)]
pub struct DepsIter<'a> {
    bytes: &'a [u8],
}

impl<'a> Model for DepsIter<'a> {
    ghost use Rattle.std.specs.Prelude.{ℕ, List};
    ghost use Rattle.ep_frame.specs.Fields.{deps_in};
    ghost use Rattle.ep_frame.specs.DepBytes.{AreDepBytes};

    ghost Value = { List ℕ };

    ghost view = { λ v. deps_in v.bytes.now };

    ghost invariant = { λ v. AreDepBytes v.bytes.now };
}

impl<'a> Iterator for DepsIter<'a> {
    type Item = InstanceId;

    ghost next_gives = { YieldsFirst (λ rest. rest) };

    ghost remaining = { item_count (λ rest. rest) };

    fn next(&mut self) -> Option<InstanceId> {
        if count_in(self.bytes) == 0 {
            return None;
        }
        let (dep, rest) = first_in(self.bytes);
        self.bytes = rest;
        Some(dep)
    }

    fn size_hint(&self) -> (usize, Option<usize>)
        ensures lower { IsWithinCount result.0 (item_count (λ rest. rest) self.now) }
        ensures upper { IfSome result.1 (UpTo (item_count (λ rest. rest) self.now)) }
        ensures exact { result ≡ (length self.now, Some (length self.now)) }
    {
        let count = count_in(self.bytes);
        (count, Some(count))
    }
}

impl<'a> DoubleEndedIterator for DepsIter<'a> {
    ghost next_back_gives = { YieldsLast (λ rest. rest) };

    fn next_back(&mut self) -> Option<InstanceId> {
        let count = count_in(self.bytes);
        if count == 0 {
            return None;
        }
        let (rest, second) = split_in(self.bytes, count - 1);
        let (dep, _) = first_in(second);
        self.bytes = rest;
        Some(dep)
    }
}

impl<'a> ExactSizeIterator for DepsIter<'a> {
    fn len(&self) -> usize {
        count_in(self.bytes)
    }
}
