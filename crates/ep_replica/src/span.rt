//! Numbers between two bounds.

ghost use Rattle.std.specs.Prelude.{◌≢◌, ◌≤◌, ℕ};
ghost use Rattle.ep_base.specs.Instances.{highest_number};
ghost use Rattle.ep_replica.specs.Spans.{IsWithin};

use ep_base::InstanceId;

/// The numbers from `first` to before `end`.
#[derive(Clone, Copy, Debug, PartialEq, Eq)]
pub(crate) struct Span {
    pub first: u16,
    pub end: u16,
}

impl Span {
    /// No numbers.
    pub(crate) fn new() -> Span
        ensures { (n : ℕ) → ¬ IsWithin result n }
    {
        Span {
            first: 9001,
            end: 0,
        }
    }

    /// These numbers and this one, with those between.
    pub(crate) fn with(self, number: u16) -> Span
        requires { number ≤ highest_number }
        ensures here { IsWithin result number }
        ensures more { (n : ℕ) → IsWithin self n → IsWithin result n }
    {
        Span {
            first: self.first.min(number),
            end: self.end.max(number + 1),
        }
    }

    /// These numbers without this one, if it is the first.
    pub(crate) fn without(self, number: u16) -> Span
        ensures { (n : ℕ) → IsWithin self n → n ≢ number → IsWithin result n }
    {
        if self.first != number || number >= InstanceId::HIGHEST_NUMBER {
            return self;
        }
        Span {
            first: number + 1,
            end: self.end,
        }
    }
}
