//! Answers of replicas.

ghost use Rattle.std.specs.Prelude.{◌≡◌, [], ◌∷◌, ◌++◌, OnOk, OnErr, IfOk, ℕ, List};
ghost use Rattle.std.specs.Option.{option_copied};
ghost use Rattle.ep_rules.specs.Answers.{answer, with_answer};

use crate::duplicate::Duplicate;
use ep_base::ReplicaId;
use std::alloc::{AllocError, Global};
use std::marker::Model;

/// What replicas answered, the last one first.
#[derive(Drop)]
pub struct Answers<X> {
    items: Vec<(ReplicaId, X)>,
}

impl<X> Model for Answers<X> {
    ghost use Rattle.std.specs.Prelude.{List, ℕ};

    ghost Value = { List (ℕ × X) };

    ghost view = { λ a. a.items.items };
}

impl<X> Answers<X> {
    /// No answers.
    pub fn new(alloc: Global) -> Answers<X>
        ensures { result ≡ [] }
    {
        Answers {
            items: Vec::new(alloc),
        }
    }

    /// What this replica answered, if it did.
    pub fn get(&self, replica: u8) -> Option<&X>
        ensures { option_copied result ≡ answer self.now replica }
    {
        for (from, value) in self.items.iter() {
            if from.index() == replica {
                return Some(value);
            }
        }
        None
    }

    /// Each answer with its replica, the last one first.
    pub fn as_slice(&self) -> &[(ReplicaId, X)]
        ensures { result.now ≡ self.now }
    {
        self.items.as_slice()
    }
}

impl<X: Drop> Answers<X> {
    /// Adds this answer. At an `Err` the answers are as they were.
    pub fn add(&mut self, from: ReplicaId, value: X) -> Result<(), AllocError>
        ensures ok { OnOk result (self.new ≡ with_answer self.old from value) }
        ensures err { OnErr result (self.new ≡ self.old) }
    {
        self.items.insert(0, (from, value))?;
        Ok(())
    }
}

impl<X: Duplicate> Answers<X> {
    /// These answers, and this one more.
    pub fn with(&self, alloc: Global, from: ReplicaId, value: X) -> Result<Answers<X>, AllocError>
        ensures { IfOk result (λ more. more ≡ with_answer self.now from value) }
    {
        let mut items = Vec::with_capacity(alloc, self.items.len() + 1)?;
        items.push((from, value))?;
        for (from, value) in self.items.iter() {
            let value = value.duplicate(alloc)?;
            items.push((*from, value))?;
        }
        Ok(Answers { items })
    }

    /// The same answers again.
    pub fn copy(&self, alloc: Global) -> Result<Answers<X>, AllocError>
        ensures { IfOk result (λ same. same ≡ self.now) }
    {
        let mut items = Vec::with_capacity(alloc, self.items.len())?;
        for (from, value) in self.items.iter() {
            let value = value.duplicate(alloc)?;
            items.push((*from, value))?;
        }
        Ok(Answers { items })
    }
}
