//! Requests in bytes.

ghost use Rattle.std.specs.Prelude.{◌≡◌, ◌≢◌, ◌⊎◌, ◌++◌, ◌∷◌, [], None, Some, true, false, IfOk, IfErr, OnOk, OnErr};
ghost use Rattle.ep_serve.specs.Acting.{Acts, IsCutShort};
ghost use Rattle.ep_serve.specs.declared.pending_answer.PendingAnswer.{PendingAnswer as Answer};
ghost use Rattle.ep_embedded.specs.Asking.{IsRequest, IsUnread};
ghost use Rattle.ep_embedded.specs.Hosting.{Grows};
ghost use Rattle.ep_embedded.specs.declared.ask_fault.AskFault.TheVariants.{NotOne};

use crate::ask_fault::AskFault;
use crate::hosted::Hosted;
use ep_base::Noted;
use ep_device::HostDevice;
use ep_node::Node;
use ep_serve::{PendingAnswer, act, dialect_of};
use ep_wire::{JournalDialect, Request, read_request};
use std::alloc::{AllocError, Global};

/// Whether no bytes are left.
fn is_over(left: &[u8]) -> bool
    ensures over { result ≡ true → left.now ≡ [] }
    ensures more { result ≡ false → left.now ≢ [] }
{
    match left.first() {
        None => true,
        Some(_) => false,
    }
}

/// The request that was found, where nothing is left behind it.
fn alone(found: Option<Request>, ends: bool) -> Result<Request, AskFault>
    ensures ok { IfOk result (λ r. (found ≡ Some r) × (ends ≡ true)) }
    ensures err { IfErr result (λ fault. (fault ≡ NotOne) × ((found ≡ None) ⊎ (ends ≡ false))) }
{
    let Some(request) = found else {
        return Err(AskFault::NotOne);
    };
    if !ends {
        drop(request);
        return Err(AskFault::NotOne);
    }
    Ok(request)
}

/// The request that the bytes are, in this dialect.
fn read_one(alloc: Global, bytes: &[u8], dialect: &JournalDialect) -> Result<Request, AskFault>
    ensures ok { IfOk result (IsRequest dialect.now bytes.now) }
    ensures err { IfErr result (IsUnread dialect.now bytes.now) }
{
    let mut source = Noted::new(bytes);
    let mut place = 0;
    match read_request(alloc, &mut source, &mut place, dialect) {
        Ok(found) => alone(found, is_over(source.inner())),
        Err(fault) => Err(AskFault::from(fault)),
    }
}

/// The node does what is asked, and the answer waits behind the others.
#[tactic(auto, using(ep_serve::proofs::Stopping::cut_short, crate::proofs::Longer::acts_grow, crate::proofs::Longer::undone_grows, crate::proofs::Longer::grows_none))]
fn add(
    node: &mut Node<HostDevice>,
    dues: &mut Vec<PendingAnswer>,
    request: Request,
) -> Result<(), AllocError>
    requires { node.old.closed ≡ false }
    ensures ok { OnOk result ((due : Answer) × Acts node.old.replica request due node.new.replica × (dues.new.items ≡ dues.old.items ++ due ∷ [])) }
    ensures same { node.new ≡ record node.old { replica = node.new.replica } }
    ensures grows { Grows node.old.replica node.new.replica }
    ensures err { OnErr result ((dues.new.items ≡ dues.old.items) × ((node.new ≡ node.old) ⊎ IsCutShort node.old.replica request node.new.replica)) }
{
    if dues.reserve(1).is_err() {
        drop(request);
        return Err(AllocError);
    }
    match act(node, request) {
        Ok(due) => {
            dues.push_reserved(due);
            Ok(())
        }
        Err(fault) => Err(fault),
    }
}

impl Hosted {
    ghost use Rattle.std.specs.Prelude.{IfErr, OnOk};
    ghost use Rattle.ep_embedded.specs.Asking.{HasAsked, IsUnasked};

    /// Does what one request asks, whose bytes these are, from its length on, as docs/FORMATS.md lays requests out. Its answer waits for the next `answer`,
    /// in the order of requests, also that of a request that is malformed or refused.
    ///
    /// A fault has changed nothing, with one exception: running out of memory may stop a request of kind 6 or 12, which executes all that is ready, when some of that
    /// has been executed.
    pub fn ask(&mut self, alloc: Global, bytes: &[u8]) -> Result<(), AskFault>
        ensures ok { OnOk result (HasAsked self.old bytes.now self.new) }
        ensures err { IfErr result (λ fault. IsUnasked self.old bytes.now fault self.new) }
    {
        if self.is_anew() {
            return Err(AskFault::Lent);
        }
        let request = match read_one(alloc, bytes, &dialect_of(&self.node)) {
            Ok(request) => request,
            Err(fault) => return Err(fault),
        };
        match add(&mut self.node, &mut self.dues, request) {
            Ok(()) => Ok(()),
            Err(_) => Err(AskFault::Memory),
        }
    }
}
