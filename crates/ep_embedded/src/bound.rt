//! Beginning a node whose log names a reference.

ghost use Rattle.std.specs.Prelude.{◌≡◌, Some, IfOk, IfErr};
ghost use Rattle.std.specs.Option.{option_map};
ghost use Rattle.ep_opening.specs.Bytes.{opening_bytes};
ghost use Rattle.ep_embedded.specs.Beginning.{IsUnfounded};
ghost use Rattle.ep_embedded.specs.Bound.{IsUnbegunWith};
ghost use Rattle.ep_embedded.specs.Succeeding.{IsBegunBy};

use crate::heir::Heir;
use crate::hosted::Hosted;
use crate::opening::{begun_as, is_same_size};
use crate::start_fault::StartFault;
use ep_base::Size;
use ep_log::Origin;
use ep_node::Whose;
use ep_opening::{OpeningFile, SpelledFile};
use std::alloc::Global;

/// The file of these bytes, if it is one of a cluster of this size.
fn file_in(alloc: Global, cluster: Size, bytes: Vec<u8>) -> Result<OpeningFile, StartFault>
    ensures ok { IfOk result (λ file. (bytes.items ≡ opening_bytes file) × (cluster ≡ file.faults)) }
    ensures err { IfErr result (IsUnfounded cluster (Some bytes.items)) }
{
    let file = SpelledFile::read(alloc, bytes)?.into_file();
    let found = file.size();
    if is_same_size(found, cluster) {
        return Ok(file);
    }
    drop(file);
    Err(StartFault::OtherSize(found.count()))
}

/// The node of this heir, which begins with what the file says.
fn begun_with(
    alloc: Global,
    heir: &Heir,
    file: OpeningFile,
    log: Option<Vec<u8>>,
) -> Result<Hosted, StartFault>
    ensures ok { IfOk result (IsBegunBy heir.now file (option_map (λ v. v.items) log)) }
    ensures err { IfErr result (IsUnbegunWith heir.now file (option_map (λ v. v.items) log)) }
{
    let generation = file.generation();
    let origin = Origin::of(alloc, generation, file.into_opening(), heir.digest)?;
    let whose = Whose {
        cluster: heir.cluster,
        me: heir.me,
        origin,
    };
    match begun_as(alloc, whose, log) {
        Ok(hosted) => Ok(hosted),
        Err(fault) => Err(StartFault::from(fault)),
    }
}

impl Hosted {
    ghost use Rattle.std.specs.Prelude.{IfOk, IfErr};
    ghost use Rattle.std.specs.Option.{option_map};
    ghost use Rattle.ep_embedded.specs.Bound.{IsBegunBound, IsUnbegunBound};

    /// The node of this heir, of the generation whose opening file's bytes these are, whose log names the heir's digest: that of the reference which stood for the file
    /// before that was written. That it did is the caller's to know, by a binding on the disk. All else is as of `open`.
    pub fn open_bound(
        alloc: Global,
        heir: &Heir,
        opening: Vec<u8>,
        log: Option<Vec<u8>>,
    ) -> Result<Hosted, StartFault>
        ensures ok { IfOk result (IsBegunBound heir.now opening.items (option_map (λ v. v.items) log)) }
        ensures err { IfErr result (IsUnbegunBound heir.now opening.items (option_map (λ v. v.items) log)) }
    {
        match file_in(alloc, heir.cluster, opening) {
            Ok(file) => begun_with(alloc, heir, file, log),
            Err(fault) => {
                drop(log);
                Err(fault)
            }
        }
    }
}
