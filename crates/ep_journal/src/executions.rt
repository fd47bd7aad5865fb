//! What an event executes.

ghost use Rattle.std.specs.Prelude.{◌≡◌, [], IfOk};

use ep_base::{Answer, InstanceId};
use std::alloc::{AllocError, Global};
use std::marker::Model;

/// Instances that an event executed, each with its answer, in order.
pub struct Executions {
    items: Vec<(InstanceId, Answer)>,
}

// (by hand, so that no crate above proves again how the parts are dropped)
impl Drop for Executions {
    fn drop(self) {
        let Executions { items } = self;
        drop(items);
    }
}

impl Model for Executions {
    ghost use Rattle.std.specs.Prelude.{List, ℕ};
    ghost use Rattle.ep_base.specs.declared.reply.Answer.{Answer};

    ghost Value = { List (ℕ × Answer) };

    ghost view = { λ e. e.items.items };
}

impl Executions {
    /// Nothing was executed.
    pub fn none(alloc: Global) -> Executions
        ensures { result ≡ [] }
    {
        Executions {
            items: Vec::new(alloc),
        }
    }

    /// These instances with their answers.
    pub fn new(items: Vec<(InstanceId, Answer)>) -> Executions
        ensures { result ≡ items.items }
    {
        Executions { items }
    }

    /// The same instances with the same answers again.
    pub fn copy(&self, alloc: Global) -> Result<Executions, AllocError>
        ensures { IfOk result (λ e. e ≡ self.now) }
    {
        let mut items = Vec::with_capacity(alloc, self.items.len())?;
        for (id, answer) in self.items.iter() {
            let answer = answer.copy(alloc)?;
            items.push((*id, answer))?;
        }
        Ok(Executions { items })
    }

    /// The instances with their answers, in order.
    pub fn as_slice(&self) -> &[(InstanceId, Answer)]
        ensures { result.now ≡ self.now }
    {
        self.items.as_slice()
    }
}
