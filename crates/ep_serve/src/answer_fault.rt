//! Out of memory for answers.

use ep_base::WriteFailed;
use std::alloc::AllocError;

/// An answer found no memory, or is longer than an answer can be.
#[derive(Clone, Copy)]
pub(crate) struct AnswerFault;

impl From<AllocError> for AnswerFault {
    fn from(_fault: AllocError) -> AnswerFault {
        AnswerFault
    }
}

/// Answers are gathered in memory.
impl From<WriteFailed> for AnswerFault {
    fn from(_fault: WriteFailed) -> AnswerFault {
        AnswerFault
    }
}
