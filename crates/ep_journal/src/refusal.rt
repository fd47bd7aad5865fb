//! Why an event was refused, of whatever it was asked.

ghost use Rattle.std.specs.Prelude.{◌≡◌, ◌≤◌};
ghost use Rattle.ep_journal.specs.Refusals.{code_of, names, refusal_name};
ghost use Rattle.ep_journal.specs.declared.refusal.Refusal.TheVariants.{Step as OfStep};
ghost use Rattle.ep_journal.specs.declared.step_fault.StepFault.TheVariants.{Memory};

use crate::step_fault::StepFault;
use ep_base::InstanceId;
use std::alloc::AllocError;
use std::error::Error;
use std::fmt;

/// Why an event was refused. What was asked is then as it was.
#[derive(Clone, Copy, Debug, PartialEq, Eq)]
pub enum Refusal {
    /// The bytes are no frame.
    BadFrame,
    /// No message of this number was sent.
    NoSuchMessage(u64),
    /// The replica didn't take it.
    Step(StepFault),
}

impl Refusal {
    /// The number and the words in its name.
    pub fn name(&self) -> (u8, &'static str)
        ensures code { result.0 ≡ (refusal_name self.now).0 }
        ensures words { result.1.now ≡ (refusal_name self.now).1 }
        ensures range { (1 ≤ result.0) × (result.0 ≤ 18) }
    {
        match self {
            Refusal::BadFrame => (14, "bad frame"),
            Refusal::NoSuchMessage(_) => (18, "no such message"),
            Refusal::Step(fault) => fault.name(),
        }
    }

    /// The number in its name.
    pub fn code(&self) -> u8
        ensures value { result ≡ code_of self.now }
        ensures range { (1 ≤ result) × (result ≤ 18) }
    {
        self.name().0
    }

    /// The instance that it names.
    pub fn instance(&self) -> Option<InstanceId>
        ensures { result ≡ names self.now }
    {
        match self {
            Refusal::Step(fault) => fault.instance(),
            Refusal::BadFrame | Refusal::NoSuchMessage(_) => None,
        }
    }
}

/// Its name, and what it names, as `E10 not committed 0.3`.
impl fmt::Display for Refusal {
    ghost use Rattle.std.specs.Prelude.{Some};
    ghost use Rattle.ep_journal.specs.Refusals.{refusal_text};

    ghost output = { λ r. Some (refusal_text r) };

    fn fmt<W: fmt::Write>(&self, f: &mut fmt::Formatter<W>) -> fmt::Result {
        let (code, words) = self.name();
        match self {
            Refusal::BadFrame => write!(f, "E{code} {words}"),
            Refusal::NoSuchMessage(message) => write!(f, "E{code} {words} {message}"),
            Refusal::Step(fault) => match fault.instance() {
                None => write!(f, "E{code} {words}"),
                Some(instance) => {
                    let replica = instance.replica().index();
                    let number = instance.number();
                    write!(f, "E{code} {words} {replica}.{number}")
                }
            },
        }
    }
}

impl Error for Refusal {}

impl From<AllocError> for Refusal {
    ghost from_gives = { λ _ e. e ≡ OfStep Memory };

    fn from(_fault: AllocError) -> Refusal {
        Refusal::Step(StepFault::Memory)
    }
}

impl From<StepFault> for Refusal {
    ghost from_gives = { λ f e. e ≡ OfStep f };

    fn from(fault: StepFault) -> Refusal {
        Refusal::Step(fault)
    }
}
