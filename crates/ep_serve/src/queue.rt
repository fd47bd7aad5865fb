//! The answers that wait.

ghost use Rattle.std.specs.Prelude.{◌≡◌};
ghost use Rattle.ep_serve.specs.Serving.{is_sync};

use crate::acting::act;
use crate::answering::answers_of;
use crate::durable::put_on_disk;
use crate::mode::Mode;
use crate::pending_answer::PendingAnswer;
use crate::serve_fault::ServeFault;
use ep_base::Sink;
use ep_device::Device;
use ep_node::Node;
use ep_wire::Request;
use std::alloc::Global;

/// Whether the request asks for a sync.
fn is_sync(request: &Request) -> bool
    ensures { result ≡ is_sync request.now }
{
    match request {
        Request::Sync => true,
        _ => false,
    }
}

/// The answers that wait, in the order of their requests.
#[derive(Drop)]
pub(crate) struct Queue {
    dues: Vec<PendingAnswer>,
    mode: Mode,
    alloc: Global,
}

impl Queue {
    ghost use Rattle.std.specs.Prelude.{◌≡◌, ◌↔◌, ◌≤◌, ◌++◌, ◌∷◌, [], length, false, OnOk, OnErr, IfErr, IsTrue};
    ghost use Rattle.ep_base.specs.Devices.{FailsAsReported};
    ghost use Rattle.ep_node.specs.Nodes.{IsQuiet};
    ghost use Rattle.ep_serve.specs.Acting.{Acts};
    ghost use Rattle.ep_serve.specs.Answering.{AnswersEach};
    ghost use Rattle.ep_serve.specs.Lasting.{GoesOn, IsKept, StaysKnown};
    ghost use Rattle.ep_serve.specs.Serving.{is_log_failed, is_sync, is_write_failed, DoesOne, IfSettled, IfUnwritten, IsSilent, MayWait, Names, Waits};
    ghost use Rattle.ep_serve.specs.declared.pending_answer.PendingAnswer.{PendingAnswer};
    ghost use Rattle.ep_wire.specs.declared.request.Request.{Request};
    ghost use Rattle.ep_serve.specs.declared.serve_fault.ServeFault.TheVariants.{Memory};

    /// No answers.
    pub(crate) fn new(alloc: Global, mode: Mode) -> Queue
        ensures { (result.dues.items ≡ []) × (result.mode ≡ mode) }
    {
        Queue {
            dues: Vec::new(alloc),
            mode,
            alloc,
        }
    }

    /// The node does what is asked, and the answer waits.
    #[tactic(auto, using(crate::proofs::Stopping::cut_short))]
    fn add<D: Device>(&mut self, node: &mut Node<D>, request: Request) -> Result<(), ServeFault>
        requires { node.old.closed ≡ false }
        ensures ok { OnOk result ((d : PendingAnswer) × Acts node.old.replica request d node.new.replica × (self.new.dues.items ≡ self.old.dues.items ++ d ∷ [])) }
        ensures same { (node.new ≡ record node.old { replica = node.new.replica }) × (self.new.mode ≡ self.old.mode) }
        ensures err { IfErr result (λ fault. (fault ≡ Memory) × DoesOne node.old.replica request node.new.replica) }
    {
        let due = act(node, request)?;
        self.dues.push(due)?;
        Ok(())
    }

    /// Whether the answer to a request that was handled may wait; `asks` says whether it asked for a sync.
    fn may_wait<D: Device>(&self, node: &Node<D>, asks: bool) -> bool
        ensures { (request : Request) → asks ≡ is_sync request → (IsTrue result ↔ MayWait self.now.mode node.now.synced request node.now.replica) }
    {
        !asks && self.mode == Mode::Asked && node.unsynced() > 0
    }

    /// Writes the answers that wait. All that the node took is on the disk.
    fn put_answers<D: Device, K: Sink>(
        &mut self,
        node: &mut Node<D>,
        sink: &mut K,
    ) -> Result<(), ServeFault>
        requires quiet { IsQuiet node.old }
        ensures same { node.new ≡ node.old }
        ensures mode { self.new.mode ≡ self.old.mode }
        ensures ok { OnOk result (AnswersEach node.old.replica self.old.dues.items (K.held sink.old) (K.held sink.new) × (self.new.dues.items ≡ [])) }
        ensures silent { IfErr result (λ fault. IsSilent fault (K.held sink.old) (K.held sink.new)) }
        ensures sink_cause { FailsAsReported is_write_failed result (K.has_failed sink.old) (K.has_failed sink.new) }
        ensures log_cause { FailsAsReported is_log_failed result (D.has_failed node.old.device) (D.has_failed node.new.device) }
        ensures log_why { IfErr result (λ fault. Names fault (D.why node.new.device)) }
    {
        let answers = answers_of(self.alloc, node, &self.dues)?;
        sink.put(&answers)?;
        self.dues.clear();
        Ok(())
    }

    /// Writes what the node took to the disk, and then the answers that wait. A fault but that of writing writes none of them.
    #[tactic(auto, using(crate::proofs::States::settled_kept, crate::proofs::States::settled_quiet))]
    pub(crate) fn settle<D: Device, K: Sink>(
        &mut self,
        node: &mut Node<D>,
        sink: &mut K,
    ) -> Result<(), ServeFault>
        requires { node.old.closed ≡ false }
        ensures replica { node.new.replica ≡ node.old.replica }
        ensures own { node.new.digest ≡ node.old.digest }
        ensures mode { self.new.mode ≡ self.old.mode }
        ensures ok { OnOk result (AnswersEach node.old.replica self.old.dues.items (K.held sink.old) (K.held sink.new) × (self.new.dues.items ≡ [])) }
        ensures silent { IfErr result (λ fault. IsSilent fault (K.held sink.old) (K.held sink.new)) }
        ensures quiet { IfSettled result (IsQuiet node.new) }
        ensures kept { IfSettled result (IsKept node.old.digest D.seen D.moment D.left_since node.old.device node.new.device node.old.replica) }
        ensures known { IfSettled result (StaysKnown D.seen node.old.device node.new.device) }
        ensures onward { GoesOn node.old.digest D.seen D.moment D.left_since node.old.device node.new.device node.old.replica node.old.synced }
        ensures sink_cause { FailsAsReported is_write_failed result (K.has_failed sink.old) (K.has_failed sink.new) }
        ensures log_cause { FailsAsReported is_log_failed result (D.has_failed node.old.device) (D.has_failed node.new.device) }
        ensures log_why { IfErr result (λ fault. Names fault (D.why node.new.device)) }
    {
        put_on_disk(node)?;
        self.put_answers(node, sink)
    }

    /// The node does what is asked. The answers are written where it asks for that, after each request in that mode, and where
    /// nothing that was taken isn't on the disk.
    pub(crate) fn serve<D: Device, K: Sink>(
        &mut self,
        node: &mut Node<D>,
        sink: &mut K,
        request: Request,
    ) -> Result<(), ServeFault>
        requires works { node.old.closed ≡ false }
        requires within { node.old.synced ≤ length node.old.replica.entries }
        ensures mode { self.new.mode ≡ self.old.mode }
        ensures own { node.new.digest ≡ node.old.digest }
        ensures ok { OnOk result (Waits self.old.mode node.old request self.old.dues.items (K.held sink.old) node.new self.new.dues.items (K.held sink.new) (IsKept node.old.digest D.seen D.moment D.left_since node.old.device node.new.device node.new.replica)) }
        ensures silent { IfErr result (λ fault. IsSilent fault (K.held sink.old) (K.held sink.new)) }
        ensures done { OnErr result (DoesOne node.old.replica request node.new.replica) }
        ensures unwritten { IfUnwritten result (IsQuiet node.new × IsKept node.old.digest D.seen D.moment D.left_since node.old.device node.new.device node.new.replica) }
        ensures known { OnOk result (StaysKnown D.seen node.old.device node.new.device) }
        ensures onward { GoesOn node.old.digest D.seen D.moment D.left_since node.old.device node.new.device node.old.replica node.old.synced }
        ensures sink_cause { FailsAsReported is_write_failed result (K.has_failed sink.old) (K.has_failed sink.new) }
        ensures log_cause { FailsAsReported is_log_failed result (D.has_failed node.old.device) (D.has_failed node.new.device) }
        ensures log_why { IfErr result (λ fault. Names fault (D.why node.new.device)) }
    {
        let asks = is_sync(&request);
        self.add(node, request)?;
        if !self.may_wait(node, asks) {
            self.settle(node, sink)?;
        }
        Ok(())
    }
}
