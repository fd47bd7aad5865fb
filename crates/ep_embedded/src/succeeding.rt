//! The node of the next generation.

ghost use Rattle.std.specs.Prelude.{◌≡◌, IfOk, IfErr};
ghost use Rattle.std.specs.Option.{option_map};
ghost use Rattle.ep_embedded.specs.Succeeding.{IsBegunBy, IsUnbegunBy};

use crate::heir::Heir;
use crate::hosted::Hosted;
use crate::opening::begun_as;
use crate::succeed_fault::SucceedFault;
use ep_log::Origin;
use ep_node::Whose;
use ep_opening::OpeningFile;
use std::alloc::Global;

/// The node of this heir, which begins with what the file says, of which it takes no copy: new, or as it goes on from this log.
fn begun(
    alloc: Global,
    heir: &Heir,
    file: &OpeningFile,
    log: Option<Vec<u8>>,
) -> Result<Hosted, SucceedFault>
    ensures ok { IfOk result (IsBegunBy heir.now file.now (option_map (λ v. v.items) log)) }
    ensures err { IfErr result (IsUnbegunBy heir.now file.now (option_map (λ v. v.items) log)) }
{
    let opening = file.opening().copy(alloc)?;
    let origin = Origin::of(alloc, file.generation(), opening, heir.digest)?;
    let whose = Whose {
        cluster: heir.cluster,
        me: heir.me,
        origin,
    };
    match begun_as(alloc, whose, log) {
        Ok(hosted) => Ok(hosted),
        Err(fault) => Err(SucceedFault::from(fault)),
    }
}

impl Hosted {
    ghost use Rattle.std.specs.Prelude.{◌≢◌, OnOk, IfOk, IfErr};
    ghost use Rattle.std.specs.Option.{option_map};
    ghost use Rattle.ep_embedded.specs.Succeeding.{HasSucceeded, IsLost, IsUnsucceeded, MaySucceed};

    /// Whether `succeed` begins the node of this heir, unless memory is refused.
    #[tactic(auto, using(crate::proofs::Heirs::unsucceeded, crate::proofs::Heirs::not_memory))]
    pub fn check_succeed(&self, heir: &Heir) -> Result<(), SucceedFault>
        ensures ok { OnOk result (MaySucceed self.now heir.now) }
        ensures err { IfErr result (IsUnsucceeded self.now heir.now) }
        ensures known { IfErr result (λ fault. fault ≢ SucceedFault.Memory) }
    {
        if !self.is_on_disk() {
            return Err(SucceedFault::Unsynced);
        }
        let generation = self.node.check_close()?;
        let _number = generation.number();
        if heir.me.index() >= heir.cluster.count() {
            return Err(SucceedFault::OutOfRange);
        }
        Ok(())
    }

    /// The node of the next generation in this one's place, once a seal was executed and all is on the disk, of this
    /// heir's cluster and number. With no log it is new; with the bytes of one, as after a start, it goes on from
    /// there. It begins with the map as it is, of which nothing is copied. Its log names the heir's digest, by which
    /// the host finds the opening again, and comes first, as after `open`. And the file that it opened with, which
    /// shares its entries: to be written when there is time. What was asked and not answered, prepared and not
    /// reported, or taken and not reported is dropped with this node.
    ///
    /// At `Err` this node is gone; its log is on the disk. Ask `check_succeed` before: then only memory can be refused, or the log.
    pub fn succeed(
        self,
        alloc: Global,
        heir: &Heir,
        log: Option<Vec<u8>>,
    ) -> Result<(Hosted, OpeningFile), SucceedFault>
        ensures ok { IfOk result (λ next. HasSucceeded self heir.now (option_map (λ v. v.items) log) next.1 next.0) }
        ensures err { IfErr result (IsLost self heir.now (option_map (λ v. v.items) log)) }
    {
        match self.check_succeed(heir) {
            Ok(()) => self.succeeded(alloc, heir, log),
            Err(fault) => {
                drop(self);
                drop(log);
                Err(fault)
            }
        }
    }

    /// The node of the next generation, where this node may be succeeded.
    fn succeeded(
        self,
        alloc: Global,
        heir: &Heir,
        log: Option<Vec<u8>>,
    ) -> Result<(Hosted, OpeningFile), SucceedFault>
        requires { MaySucceed self heir.now }
        ensures ok { IfOk result (λ next. HasSucceeded self heir.now (option_map (λ v. v.items) log) next.1 next.0) }
        ensures err { IfErr result (IsLost self heir.now (option_map (λ v. v.items) log)) }
    {
        let (file, _device) = self.into_node().into_closing(alloc, heir.cluster);
        let Ok(mut file) = file else {
            drop(log);
            return Err(SucceedFault::Memory);
        };
        match begun(alloc, heir, &file, log) {
            Ok(mut next) => {
                next.carry_on(alloc, &mut file);
                Ok((next, file))
            }
            Err(fault) => {
                drop(file);
                Err(fault)
            }
        }
    }

    /// The same node, whose map goes on with what was done of putting the file's layers into the listing.
    fn carry_on(&mut self, alloc: Global, file: &mut OpeningFile)
        requires { self.old.node.replica.opening ≡ file.old.opening }
        ensures same { self.new ≡ self.old }
        ensures file { file.new ≡ file.old }
    {
        if let Ok(opening) = file.hand_on(alloc) {
            self.node.carry_on(opening);
        }
    }
}
