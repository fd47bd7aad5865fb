//! Answers that are made while what they report is lent, and reported once it is on the disk.

use crate::hosted::Hosted;
use crate::prepare_fault::PrepareFault;
use crate::report_fault::ReportFault;
use ep_serve::all_answers;
use std::alloc::Global;

impl Hosted {
    ghost use Rattle.std.specs.Prelude.{◌≡◌, ◌≢◌, true, false, None, IfOk, IfErr, OnOk};
    ghost use Rattle.ep_node.specs.Nodes.{IsQuiet};
    ghost use Rattle.ep_embedded.specs.Reporting.{HasPrepared, HasReported, IsUnprepared, IsWithheld, MayReport};

    /// Whether answers are held.
    pub(crate) fn is_holding(&self) -> bool
        ensures some { result ≡ true → self.now.held ≢ None }
        ensures none { result ≡ false → self.now.held ≡ None }
    {
        self.held.is_some()
    }

    /// Whether all that it took is lent, or on the disk.
    pub(crate) fn is_all_lent(&self) -> bool
        ensures yes { result ≡ true → IsQuiet self.now.node }
        ensures no { result ≡ false → ¬ IsQuiet self.now.node }
    {
        self.node.replica().is_some()
    }

    /// Whether what the held answers report is on the disk.
    fn may_report(&self) -> bool
        ensures yes { result ≡ true → MayReport self.now }
        ensures no { result ≡ false → ¬ MayReport self.now }
    {
        !self.is_anew && self.until <= self.durable
    }

    /// Makes the answers that `answer` would make once `synced` says that all that is lent is on the disk, and holds them until `reported` asks for them then. So
    /// they are made while the bytes are written, and more may be taken after it. All that was taken has to be lent, or on the disk. A fault leaves the node as it
    /// was.
    pub fn prepare(&mut self, alloc: Global, after: u32, most: u8) -> Result<(), PrepareFault>
        ensures ok { OnOk result (HasPrepared self.old after most self.new) }
        ensures err { IfErr result (λ fault. IsUnprepared self.old fault × (self.new ≡ self.old)) }
    {
        if self.is_holding() {
            return Err(PrepareFault::Unreported);
        }
        if !self.is_all_lent() {
            return Err(PrepareFault::Unlent);
        }
        match all_answers(alloc, &mut self.node, &self.dues, after, most) {
            Ok(answers) => {
                self.until = self.node.taken();
                self.held = Some(answers);
                self.dues.clear();
                Ok(())
            }
            Err(_) => Err(PrepareFault::Memory),
        }
    }

    /// The answers that `prepare` made are `answers` from then on: `true`; or `false`, where none are held. All that they report is on the disk: `Unsynced` before,
    /// which leaves the node as it was.
    pub fn reported(&mut self) -> Result<bool, ReportFault>
        ensures ok { IfOk result (λ there. HasReported self.old there self.new) }
        ensures err { IfErr result (λ fault. IsWithheld self.old fault × (self.new ≡ self.old)) }
    {
        if !self.is_holding() {
            return Ok(false);
        }
        if !self.may_report() {
            return Err(ReportFault::Unsynced);
        }
        match self.held.take() {
            Some(answers) => {
                self.answers = answers;
                Ok(true)
            }
            None => Ok(false),
        }
    }
}
