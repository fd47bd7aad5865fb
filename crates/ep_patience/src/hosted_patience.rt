//! A `Patience` for hosts in other languages.

ghost use Rattle.std.specs.Prelude.{◌≡◌};

use crate::patience::Patience;
use crate::reading::read_open;
use crate::turn_fault::TurnFault;
use crate::writing::write_asked;
use std::alloc::Global;

/// How many bytes a turn reports at most: four for each event that it asks for.
const MOST_BYTES: usize = 256;

/// A `Patience` that is handed open instances as bytes, and keeps what it reported last, as bytes.
#[derive(Drop)]
pub struct HostedPatience {
    pub patience: Patience,
    pub reported: Vec<u8>,
}

impl HostedPatience {
    ghost use Rattle.std.specs.Prelude.{[], None, Err, IfOk, OnOk, OnErr};
    ghost use Rattle.ep_patience.specs.Hosting.{HasReported};
    ghost use Rattle.ep_patience.specs.OpenBytes.{open_list};
    ghost use Rattle.ep_patience.specs.declared.turn_fault.TurnFault.TheVariants.{NotOpen};

    /// It has reported nothing yet.
    pub fn new(alloc: Global, patience: Patience) -> HostedPatience
        ensures patience { result.patience ≡ patience }
        ensures reported { result.reported.items ≡ [] }
    {
        HostedPatience {
            patience,
            reported: Vec::new(alloc),
        }
    }

    /// A turn at this time, at which just these instances are open. At an `Err` all is as it was.
    #[tactic(auto, using(crate::proofs::OpenRead::read_rises, crate::proofs::AskedWritten::asked_short))]
    pub fn turn(&mut self, alloc: Global, now: u64, bytes: &[u8]) -> Result<(), TurnFault>
        ensures ok { OnOk result (HasReported self.old.patience now bytes.now self.new.patience self.new.reported.items) }
        ensures not { result ≡ Err NotOpen → open_list bytes.now ≡ None }
        ensures err { OnErr result (self.new ≡ self.old) }
    {
        let seen = read_open(alloc, bytes)?;
        let mut reported = Vec::with_capacity(alloc, MOST_BYTES)?;
        let asked = self.patience.turn(alloc, now, &seen)?;
        write_asked(&mut reported, &asked);
        self.reported = reported;
        Ok(())
    }
}
