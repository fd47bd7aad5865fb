//! The program, over any device, source and sinks.

ghost use Rattle.std.specs.Prelude.{◌≡◌, ℕ, List, [], Some, true, IfOk, IfErr};
ghost use Rattle.ep_base.specs.Devices.{Puts};
ghost use Rattle.ep_cli.specs.Outputs.{became, turned};
ghost use Rattle.ep_log.specs.Origins.{second};
ghost use Rattle.ep_node.specs.Nodes.{IsQuiet, origin_of};
ghost use Rattle.ep_node.specs.Opening.{IsOpened, IsUnopened, IsWrittenAnew};
ghost use Rattle.ep_server.specs.Served.{reported_first, EndsWith, IsFailure, IsNode, IsOver};

use crate::options::Options;
use crate::reporting::{write_cut, write_fault};
use crate::server_fault::ServerFault;
use ep_base::{Sink, Source, WriteFailed};
use ep_cli::{Status, Streams};
use ep_device::Device;
use ep_node::{Begin, Cut, Node, OpenFault, Whose};
use ep_serve::{Mode, serve};
use std::alloc::Global;
use std::mem::forget;

/// Serves as the node whose log the device holds, until the source is over or a fault stops it, and answers how the program
/// ends. What was cut off the log is reported by a line on the fault output before anything is answered, and what stops the node by
/// one more; where reporting fails, the status stays.
pub fn serve_log<D: Device + Drop, S: Source, W: Sink, F: Sink>(
    alloc: Global,
    options: &Options<'_>,
    device: D,
    streams: &mut Streams<S, W, F>,
) -> Status
    ensures { (bytes zs : List ℕ) → D.seen device ≡ Some bytes → S.left streams.old.reader ≡ Some zs → IsNode (record { has_failed = D.has_failed; why = D.why; seen = D.seen; moment = D.moment; left_since = D.left_since })
        (record { begin = options.now.begin; mode = options.now.mode; faults = options.now.size; me = options.now.me }) bytes zs result
        (turned S.has_failed streams.old.reader streams.new.reader) (became W.held W.has_failed streams.old.writer streams.new.writer) (became F.held F.has_failed streams.old.fault_writer streams.new.fault_writer) }
{
    match opened(alloc, options, device) {
        Ok(node) => {
            let _ = write_first(node.cut(), &mut streams.fault_writer);
            let outcome = served(alloc, node, options.mode, streams);
            concluded(outcome, &mut streams.fault_writer)
        }
        Err(fault) => concluded(Err(ServerFault::Open(fault)), &mut streams.fault_writer),
    }
}

/// The node of the device's log, of a replica with this origin.
pub(crate) fn opened_as<D: Device + Drop>(
    alloc: Global,
    device: D,
    whose: Whose,
    begin: Begin,
) -> Result<Node<D>, OpenFault>
    ensures ok { IfOk result (λ node. IsQuiet node × (node.replica.faults ≡ whose.cluster) × (node.replica.me ≡ whose.me)
        × ((bytes : List ℕ) → D.seen device ≡ Some bytes → IsOpened begin whose.origin whose.cluster whose.me bytes node.replica.entries node.cut)) }
    ensures origin { IfOk result (λ node. origin_of node ≡ whose.origin) }
    ensures written { IfOk result (λ node. (bytes : List ℕ) → D.seen device ≡ Some bytes
        → (log : List ℕ) × (D.seen node.device ≡ Some log) × IsWrittenAnew begin whose.origin whose.cluster whose.me bytes log) }
    ensures err { IfErr result (λ fault. ((bytes : List ℕ) → D.seen device ≡ Some bytes → IsUnopened begin whose.origin whose.cluster whose.me bytes fault)
        × IsFailure (record { has_failed = D.has_failed; why = D.why; seen = D.seen; moment = D.moment; left_since = D.left_since }) fault) }
{
    match Node::opened(alloc, device, whose, begin) {
        Ok(node) => Ok(node),
        Err((fault, device)) => {
            drop(device);
            Err(fault)
        }
    }
}

/// Serves with a node that is opened. The process ends then, and its end frees the node's memory: to let it go by parts would cost an eighth of a run.
pub(crate) fn served<D: Device + Drop, S: Source, W: Sink, F>(
    alloc: Global,
    node: Node<D>,
    mode: Mode,
    streams: &mut Streams<S, W, F>,
) -> Result<(), ServerFault>
    requires { IsQuiet node }
    ensures unreported { streams.new.fault_writer ≡ streams.old.fault_writer }
    ensures over { (zs : List ℕ) → S.left streams.old.reader ≡ Some zs → IsOver (record { has_failed = D.has_failed; why = D.why; seen = D.seen; moment = D.moment; left_since = D.left_since }) mode node zs result
        (turned S.has_failed streams.old.reader streams.new.reader) (became W.held W.has_failed streams.old.writer streams.new.writer) }
{
    let mut node = node;
    match serve(
        alloc,
        &mut node,
        &mut streams.reader,
        &mut streams.writer,
        mode,
    ) {
        Ok(()) => {
            forget(node);
            Ok(())
        }
        Err(fault) => {
            forget(node);
            Err(ServerFault::Serve(fault))
        }
    }
}

/// The node of the device's log, of version 2.
fn opened<D: Device + Drop>(
    alloc: Global,
    options: &Options<'_>,
    device: D,
) -> Result<Node<D>, OpenFault>
    ensures ok { IfOk result (λ node. IsQuiet node × (node.replica.faults ≡ options.now.size) × (node.replica.me ≡ options.now.me)
        × ((bytes : List ℕ) → D.seen device ≡ Some bytes → IsOpened options.now.begin second options.now.size options.now.me bytes node.replica.entries node.cut)) }
    ensures origin { IfOk result (λ node. origin_of node ≡ second) }
    ensures written { IfOk result (λ node. (bytes : List ℕ) → D.seen device ≡ Some bytes
        → (log : List ℕ) × (D.seen node.device ≡ Some log) × IsWrittenAnew options.now.begin second options.now.size options.now.me bytes log) }
    ensures err { IfErr result (λ fault. ((bytes : List ℕ) → D.seen device ≡ Some bytes → IsUnopened options.now.begin second options.now.size options.now.me bytes fault)
        × IsFailure (record { has_failed = D.has_failed; why = D.why; seen = D.seen; moment = D.moment; left_since = D.left_since }) fault) }
{
    match Node::open(alloc, device, options.size, options.me, options.begin) {
        Ok(node) => Ok(node),
        Err((fault, device)) => {
            drop(device);
            Err(fault)
        }
    }
}

/// Says what was cut off the log, if anything was.
pub(crate) fn write_first<F: Sink>(
    cut: Option<Cut>,
    fault_writer: &mut F,
) -> Result<(), WriteFailed>
    ensures { Puts (F.held fault_writer.old) (F.held fault_writer.new) (F.has_failed fault_writer.old) (F.has_failed fault_writer.new) result (reported_first cut) }
{
    match cut {
        Some(cut) => write_cut(cut, fault_writer),
        None => Ok(()),
    }
}

/// How the program ends. A fault is reported on the fault output; where that fails, the status stays.
pub(crate) fn concluded<F: Sink>(outcome: Result<(), ServerFault>, fault_writer: &mut F) -> Status
    ensures concluded { EndsWith [] outcome result (became F.held F.has_failed fault_writer.old fault_writer.new) }
    ensures for_good { F.has_failed fault_writer.old ≡ true → F.has_failed fault_writer.new ≡ true }
{
    match outcome {
        Ok(()) => Status::Done,
        Err(fault) => {
            let status = fault.status();
            let _ = write_fault(fault, fault_writer);
            status
        }
    }
}
