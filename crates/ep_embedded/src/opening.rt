//! Beginning a node.

ghost use Rattle.std.specs.Prelude.{◌≡◌, ◌≢◌, [], None, Some, true, false, IfOk, IfErr};
ghost use Rattle.std.specs.Option.{option_map};
ghost use Rattle.ep_device.specs.Memory.{memory_bytes};
ghost use Rattle.ep_node.specs.Nodes.{IsQuiet};
ghost use Rattle.ep_opening.specs.Bytes.{opening_bytes};
ghost use Rattle.ep_embedded.specs.Beginning.{begin_of, log_of, IsBegunAs, IsFileOf, IsOriginOf, IsUnbegunAs, IsUnfounded};
ghost use Rattle.ep_embedded.specs.Hosting.{Buffer};

use crate::arena::Arena;
use crate::hosted::Hosted;
use crate::seat::Seat;
use crate::start_fault::StartFault;
use ep_base::Size;
use ep_device::{HostDevice, MemoryDevice};
use ep_log::Origin;
use ep_node::{Begin, Node, OpenFault, Whose};
use ep_opening::SpelledFile;
use std::alloc::Global;

pub(crate) fn is_same_size(size: Size, other: Size) -> bool
    ensures yes { result ≡ true → size ≡ other }
    ensures no { result ≡ false → size ≢ other }
{
    size == other
}

/// What a replica of a cluster of this size begins with, by this file.
fn beginning_by(alloc: Global, cluster: Size, spelled: SpelledFile) -> Result<Origin, StartFault>
    ensures ok { IfOk result (IsFileOf cluster (opening_bytes spelled)) }
    ensures err { IfErr result (IsUnfounded cluster (Some (opening_bytes spelled))) }
{
    let digest = spelled.digest();
    let file = spelled.into_file();
    let found = file.size();
    if !is_same_size(found, cluster) {
        drop(file);
        return Err(StartFault::OtherSize(found.count()));
    }
    let generation = file.generation();
    let origin = Origin::of(alloc, generation, file.into_opening(), digest)?;
    Ok(origin)
}

/// What a replica of a cluster of this size begins with, by the file of these bytes.
fn beginning_in(alloc: Global, cluster: Size, bytes: Vec<u8>) -> Result<Origin, StartFault>
    ensures ok { IfOk result (IsFileOf cluster bytes.items) }
    ensures err { IfErr result (IsUnfounded cluster (Some bytes.items)) }
{
    match SpelledFile::read(alloc, bytes) {
        Ok(spelled) => beginning_by(alloc, cluster, spelled),
        Err(fault) => Err(StartFault::from(fault)),
    }
}

/// What a replica of a cluster of this size begins with: nothing, in version 2; or what the file of these bytes says.
fn beginning_of(
    alloc: Global,
    cluster: Size,
    opening: Option<Vec<u8>>,
) -> Result<Origin, StartFault>
    ensures ok { IfOk result (IsOriginOf cluster (option_map (λ v. v.items) opening)) }
    ensures err { IfErr result (IsUnfounded cluster (option_map (λ v. v.items) opening)) }
{
    match opening {
        None => Ok(Origin::second(alloc)),
        Some(bytes) => beginning_in(alloc, cluster, bytes),
    }
}

/// Whether a log is begun.
fn begin_of(log: &Option<Vec<u8>>) -> Begin
    ensures { result ≡ begin_of (option_map (λ v. v.items) log.now) }
{
    match log {
        None => Begin::New,
        Some(_) => Begin::Existing,
    }
}

/// The bytes that there are of a log.
fn bytes_of(alloc: Global, log: Option<Vec<u8>>) -> Vec<u8>
    ensures { result.items ≡ log_of (option_map (λ v. v.items) log) }
{
    match log {
        None => Vec::new(alloc),
        Some(bytes) => bytes,
    }
}

/// The node, whose log was written anew in memory, is to be written anew by its caller.
fn hosted_by(alloc: Global, node: Node<MemoryDevice>) -> Hosted
    requires { IsQuiet node }
    ensures node { (result.node.replica ≡ node.replica) × (result.node.digest ≡ node.digest) × (result.node.cut ≡ node.cut) }
    ensures quiet { IsQuiet result.node }
    ensures lent { (bytes : Buffer) × (result.lent ≡ Some bytes) × (bytes.items ≡ memory_bytes node.device) }
    ensures anew { result.is_anew ≡ true }
    ensures none { (result.dues ≡ []) × (result.held ≡ None) × (result.answers.items ≡ []) }
{
    let (node, device) = node.onto(HostDevice);
    Hosted {
        node,
        lent: Some(device.into_bytes()),
        is_anew: true,
        durable: 0,
        dues: Vec::new(alloc),
        held: None,
        until: 0,
        answers: Vec::new(alloc),
        blocks: Arena::new(alloc),
    }
}

/// The node of this replica: new, or as it goes on from this log.
#[tactic(auto, using(crate::proofs::Beginning::no_memory))]
pub(crate) fn begun_as(
    alloc: Global,
    whose: Whose,
    log: Option<Vec<u8>>,
) -> Result<Hosted, OpenFault>
    ensures ok { IfOk result (IsBegunAs whose.origin whose.cluster whose.me (option_map (λ v. v.items) log)) }
    ensures err { IfErr result (IsUnbegunAs whose.origin whose.cluster whose.me (option_map (λ v. v.items) log)) }
{
    let begin = begin_of(&log);
    let device = MemoryDevice::new(alloc, bytes_of(alloc, log), 0)?;
    match Node::opened(alloc, device, whose, begin) {
        Ok(node) => Ok(hosted_by(alloc, node)),
        Err((fault, device)) => {
            drop(device);
            Err(fault)
        }
    }
}

impl Hosted {
    ghost use Rattle.std.specs.Prelude.{◌≡◌, IfOk, IfErr};
    ghost use Rattle.std.specs.Option.{option_map};
    ghost use Rattle.ep_embedded.specs.Beginning.{IsBegun, IsUnbegun};

    /// The node of this seat. It is of version 2, or of the generation whose opening file's bytes these are. With no log it is new, and with the bytes of one
    /// it goes on from there; a torn end is cut off (`cut` reports). In both cases the log comes first: `ready` lends it, to be written anew in place of what
    /// was there, and nothing is taken or reported before it is `synced`, since what a read returned may never have reached the disk.
    pub fn open(
        alloc: Global,
        seat: Seat,
        opening: Option<Vec<u8>>,
        log: Option<Vec<u8>>,
    ) -> Result<Hosted, StartFault>
        ensures ok { IfOk result (IsBegun seat (option_map (λ v. v.items) opening) (option_map (λ v. v.items) log)) }
        ensures err { IfErr result (IsUnbegun seat (option_map (λ v. v.items) opening) (option_map (λ v. v.items) log)) }
    {
        let origin = beginning_of(alloc, seat.cluster, opening)?;
        let whose = Whose {
            cluster: seat.cluster,
            me: seat.me,
            origin,
        };
        match begun_as(alloc, whose, log) {
            Ok(hosted) => Ok(hosted),
            Err(fault) => Err(StartFault::from(fault)),
        }
    }
}
