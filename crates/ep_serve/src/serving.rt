//! The loop.

ghost use Rattle.std.specs.Prelude.{◌≡◌, ℕ, List, Some, IfErr};
ghost use Rattle.ep_base.specs.Devices.{FailsAsReported};
ghost use Rattle.ep_node.specs.Nodes.{IsQuiet};
ghost use Rattle.ep_serve.specs.Lasting.{crashes};
ghost use Rattle.ep_serve.specs.Serving.{dialect_of, is_log_failed, is_write_failed, Ends, IfSettled, IsReadTo, Names};

use crate::mode::Mode;
use crate::queue::Queue;
use crate::serve_fault::ServeFault;
use ep_base::{Sink, Source};
use ep_device::Device;
use ep_node::Node;
use ep_wire::{JournalDialect, read_request};
use std::alloc::Global;

/// What requests to the node are spelled in.
pub fn dialect_of<D: Device>(node: &Node<D>) -> JournalDialect
    ensures { result ≡ dialect_of node.now.replica }
{
    JournalDialect {
        version: node.version(),
        size: node.size(),
        me: node.me(),
    }
}

/// Reads requests from the source until it is over, and answers each on the sink, in their order. What an answer reports is on
/// the node's disk before it is written, whatever stops the node after it. At the end, and where a request can't be read, all
/// that was taken is on the disk, and answered. The node begins with all that it took on the disk, as it is opened.
pub fn serve<D: Device, S: Source, K: Sink>(
    alloc: Global,
    node: &mut Node<D>,
    source: &mut S,
    sink: &mut K,
    mode: Mode,
) -> Result<(), ServeFault>
    requires { IsQuiet node.old }

    // What was read, done and answered. What an answer reports is on the disk when this ends, also by a fault; so it is before the
    // answer is written, as any later sync may fail. At no moment a crash takes what was there before.
    ensures served { (zs : List ℕ) → S.left source.old ≡ Some zs → Ends mode (dialect_of node.old.replica) (crashes node.old.digest D.seen D.moment D.left_since node.old.device node.new.device) node.old.replica (record { at = 0; bytes = zs }) (K.held sink.old) (K.held sink.new) result node.new.replica }
    ensures quiet { IfSettled result (IsQuiet node.new) }

    // which device failed, in this call, and why the log's did
    ensures sink_cause { FailsAsReported is_write_failed result (K.has_failed sink.old) (K.has_failed sink.new) }
    ensures log_cause { FailsAsReported is_log_failed result (D.has_failed node.old.device) (D.has_failed node.new.device) }
    ensures log_why { IfErr result (λ fault. Names fault (D.why node.new.device)) }
    ensures source_cause { IsReadTo result (S.has_failed source.old) (S.has_failed source.new) }
{
    let dialect = dialect_of(node);
    let mut queue = Queue::new(alloc, mode);
    let mut place = 0;
    node.is_at_rest();
    for _ in 0..u64::MAX {
        match read_request(alloc, source, &mut place, &dialect) {
            Ok(Some(request)) => queue.serve(node, sink, request)?,
            Ok(None) => {
                queue.settle(node, sink)?;
                return Ok(());
            }
            Err(fault) => {
                queue.settle(node, sink)?;
                return Err(fault.into());
            }
        }
    }
    // No input has so many requests.
    Err(ServeFault::Memory)
}
