//! What a node knows, read whole.

ghost use Rattle.std.specs.Prelude.{◌≡◌, ◌<◌, ◌^◌, length, IfOk};
ghost use Rattle.std.specs.FinMap.{entries};
ghost use Rattle.ep_exec.specs.Bytes.{contents_bytes};
ghost use Rattle.ep_replica.specs.Pending.{state_of};

use crate::hosted::Hosted;
use crate::report_fault::ReportFault;
use ep_base::{Noted, ReplicaId};
use ep_bundle::write_contents;
use ep_exec::Contents;
use ep_replica::Replica;
use std::alloc::{AllocError, Global};

/// A map of more keys than this isn't reported.
const MOST_KEYS: usize = 4_294_967_295;

/// What the keys of the replica's map have.
fn contents_of(replica: &Replica) -> Result<Contents, AllocError>
    ensures contents { IfOk result (λ c. c ≡ (state_of replica.now).store.contents) }
    ensures few { IfOk result (λ c. length (entries c) < 2 ^ 32) }
{
    let Ok(contents) = replica.journal().contents() else {
        return Err(AllocError);
    };
    if !contents.is_within(MOST_KEYS) {
        drop(contents);
        return Err(AllocError);
    }
    Ok(contents)
}

/// The bytes of a map.
fn bytes_of(alloc: Global, contents: &Contents) -> Result<Vec<u8>, AllocError>
    requires { length (entries contents.now) < 2 ^ 32 }
    ensures { IfOk result (λ bytes. bytes.items ≡ contents_bytes contents.now) }
{
    let map = contents.listing()?;
    let mut sink = Noted::new(Vec::new(alloc));
    match write_contents(&map, &mut sink) {
        Ok(()) => Ok(sink.into_inner()),
        Err(_) => Err(AllocError),
    }
}

/// The bytes of the replica's map.
fn listed(alloc: Global, replica: &Replica) -> Result<Vec<u8>, AllocError>
    ensures { IfOk result (λ bytes. bytes.items ≡ contents_bytes (state_of replica.now).store.contents) }
{
    let contents = contents_of(replica)?;
    bytes_of(alloc, &contents)
}

impl Hosted {
    ghost use Rattle.std.specs.Prelude.{◌≡◌, IfErr, OnOk};
    ghost use Rattle.ep_node.specs.Handled.{handled_from};
    ghost use Rattle.ep_embedded.specs.Reporting.{HasListed, IsUnreported};

    /// The greatest entry number in the frames from the peer that this replica has handled; 0 where it has handled none. So many entries the peer's log has had.
    pub fn handled(&self, peer: ReplicaId) -> u32
        ensures { result ≡ handled_from peer self.now.node.replica.entries }
    {
        self.node.handled(peer)
    }

    /// Copies what all keys of the replica's map have, after all that it executed: how many keys have a value, and each with its value, in rising order, as a
    /// bundle of version 3 has the map that it opens with. They are `answers` from then on. A fault leaves the node as it was.
    pub fn list(&mut self, alloc: Global) -> Result<(), ReportFault>
        ensures ok { OnOk result (HasListed self.old self.new) }
        ensures err { IfErr result (λ fault. IsUnreported self.old fault × (self.new ≡ self.old)) }
    {
        let copied = match self.shown() {
            Some(replica) => listed(alloc, replica),
            None => return Err(ReportFault::Unsynced),
        };
        match copied {
            Ok(bytes) => {
                self.answers = bytes;
                Ok(())
            }
            Err(_) => Err(ReportFault::Memory),
        }
    }
}
