//! What a command over many keys is answered.

ghost use Rattle.std.specs.Prelude.{◌≡◌, ◌≤◌, ◌↔◌, IsTrue, IfOk, length};
ghost use Rattle.ep_base.specs.Sameness.{same_option, same_options};

use crate::value::Value;
use std::alloc::{AllocError, Global};
use std::marker::Model;

/// What each key had that a command reports, in the order of the keys: a value or none, at most 16 of them.
#[derive(Debug)]
pub struct ReplyValues {
    values: Vec<Option<Value>>,
}

// (by hand, so that no crate above proves again how the parts are dropped)
impl Drop for ReplyValues {
    fn drop(self) {
        let ReplyValues { values } = self;
        drop(values);
    }
}

impl Model for ReplyValues {
    ghost use Rattle.std.specs.Prelude.{ℕ, ◌≤◌, List, Option, length};

    ghost Value = { List (Option (List ℕ)) };

    ghost view = { λ t. t.values.items };

    ghost invariant = { λ t. length t.values.items ≤ 16 };
}

impl ReplyValues {
    /// These values, of which there are at most 16.
    pub fn of(values: Vec<Option<Value>>) -> ReplyValues
        requires { length values.items ≤ 16 }
        ensures { result ≡ values.items }
    {
        ReplyValues { values }
    }

    /// The same values again.
    pub fn copy(&self, alloc: Global) -> Result<ReplyValues, AllocError>
        ensures { IfOk result (λ t. t ≡ self.now) }
    {
        let values = copied(alloc, self.as_slice())?;
        Ok(ReplyValues { values })
    }

    /// The values.
    pub fn as_slice(&self) -> &[Option<Value>]
        ensures value { result.now ≡ self.now }
        ensures few { length self.now ≤ 16 }
    {
        self.values.as_slice()
    }

    /// Whether both are the same values.
    pub fn is_same(&self, other: &ReplyValues) -> bool
        ensures test { result ≡ same_options self.now other.now }
        ensures same { IsTrue result ↔ (self.now ≡ other.now) }
    {
        are_same(self.as_slice(), other.as_slice())
    }
}

fn copied(alloc: Global, values: &[Option<Value>]) -> Result<Vec<Option<Value>>, AllocError>
    ensures { IfOk result (λ v. v.items ≡ values.now) }
{
    let mut copy = Vec::with_capacity(alloc, values.len())?;
    for value in values {
        copy.push(Value::copy_option(value, alloc)?)?;
    }
    Ok(copy)
}

fn are_same(values: &[Option<Value>], others: &[Option<Value>]) -> bool
    ensures { result ≡ same_options values.now others.now }
{
    let mut left = values;
    let mut right = others;
    while let [value, rest @ ..] = left {
        let [other, after @ ..] = right else {
            return false;
        };
        if !is_same_option(value, other) {
            return false;
        }
        left = rest;
        right = after;
    }
    right.is_empty()
}

fn is_same_option(value: &Option<Value>, other: &Option<Value>) -> bool
    ensures { result ≡ same_option value.now other.now }
{
    match (value, other) {
        (None, None) => true,
        (Some(value), Some(other)) => value.is_same(other),
        _ => false,
    }
}
