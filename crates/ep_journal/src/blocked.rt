//! The last execution that was refused.

ghost use Rattle.std.specs.Prelude.{◌≡◌, IfSome};
ghost use Rattle.ep_journal.specs.Blocks.{IsKnown, IsRemembered};

use crate::mark::Mark;
use crate::step_fault::StepFault;
use crate::taken::Taken;
use ep_base::InstanceId;

/// An execution that was refused: its root, and the least instance for which that waits.
#[derive(Clone, Copy)]
pub struct Blocked {
    root: InstanceId,
    missing: InstanceId,
}

/// The instance that the root waits for, if the root is the execution that was refused last and is asked for with a mark.
pub fn known_missing(
    last: &Option<Blocked>,
    root: &Option<InstanceId>,
    mark: &Option<Mark>,
) -> Option<InstanceId>
    ensures { IfSome result (λ i. IsKnown last.now root.now mark.now i) }
{
    match (last, root, mark) {
        (Some(last), Some(root), Some(_)) => {
            if last.root == *root {
                Some(last.missing)
            } else {
                None
            }
        }
        _ => None,
    }
}

/// What is remembered after a step: the last refusal, unless something else than an execution was taken.
pub fn remembered(
    last: &Option<Blocked>,
    root: &Option<InstanceId>,
    reported: &Result<Taken, StepFault>,
) -> Option<Blocked>
    ensures { IsRemembered last.now root.now reported.now result }
{
    match (root, reported) {
        (None, Ok(_)) => None,
        (Some(root), Err(StepFault::NotCommitted(missing))) => Some(Blocked {
            root: *root,
            missing: *missing,
        }),
        _ => *last,
    }
}
