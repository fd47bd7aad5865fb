//! Logs and receipts, collected.

ghost use Rattle.std.specs.Prelude.{◌≡◌, ◌⊎◌, length, map, string_bytes, IfOk, IfErr};
ghost use Rattle.ep_assemble.specs.Files.{IsCollected, IsNotCollected};
ghost use Rattle.ep_assemble.specs.Logs.{contents};
ghost use Rattle.ep_cli.specs.Files.{IsReason, IsUnread};
ghost use Rattle.ep_cli.specs.Outputs.{became};
ghost use Rattle.ep_server.specs.NamedFiles.{CollectsFiles};

use crate::collect_names::CollectNames;
use crate::gathered_files::GatheredFiles;
use ep_assemble::collect_files;
use ep_base::Sink;
use ep_cli::{FilesFault, Printout, Status, Streams, put_printout, read_files, turned_away};
use std::alloc::Global;
use std::rt::Files;

/// Reads the files and writes the bundle of what they hold, in one go. Each torn end has a line on the fault output, or what stops it has one;
/// where reporting fails, the status stays.
pub fn collect_named<R: Files + AllocGlobal, S, W: Sink, F: Sink>(
    rt: &R,
    names: &CollectNames,
    streams: &mut Streams<S, W, F>,
) -> Status
    ensures { CollectsFiles (map string_bytes names.now.logs.items) (map string_bytes names.now.receipts.items) result
        (became W.held W.has_failed streams.old.writer streams.new.writer) (became F.held F.has_failed streams.old.fault_writer streams.new.fault_writer) }
{
    match gather(rt, names) {
        Ok(gathered) => put_printout(bundle_of(rt.alloc(), names, &gathered), streams),
        Err(fault) => turned_away(fault, &mut streams.fault_writer),
    }
}

/// The bundle of what the files gave.
fn bundle_of(
    alloc: Global,
    names: &CollectNames,
    gathered: &GatheredFiles,
) -> Result<Printout, FilesFault>
    requires logs { length gathered.now.logs.items ≡ length names.now.logs.items }
    requires receipts { length gathered.now.receipts.items ≡ length names.now.receipts.items }
    ensures ok { IfOk result (λ p. IsCollected (map string_bytes names.now.logs.items) (map string_bytes names.now.receipts.items) (contents gathered.now.logs.items) (contents gathered.now.receipts.items) p.text.items p.lines.items) }
    ensures err { IfErr result (IsReason (IsNotCollected (map string_bytes names.now.logs.items) (map string_bytes names.now.receipts.items) (contents gathered.now.logs.items) (contents gathered.now.receipts.items))) }
{
    collect_files(
        alloc,
        &names.logs,
        &names.receipts,
        &gathered.logs,
        &gathered.receipts,
    )
}

/// The bytes of the files with these names.
fn gather<R: Files + AllocGlobal>(rt: &R, names: &CollectNames) -> Result<GatheredFiles, FilesFault>
    ensures logs { IfOk result (λ g. length g.logs.items ≡ length names.now.logs.items) }
    ensures receipts { IfOk result (λ g. length g.receipts.items ≡ length names.now.receipts.items) }
    ensures err { IfErr result (λ e. IsUnread (map string_bytes names.now.logs.items) e ⊎ IsUnread (map string_bytes names.now.receipts.items) e) }
{
    let logs = read_files(rt, &names.logs)?;
    let receipts = read_files(rt, &names.receipts)?;
    Ok(GatheredFiles { logs, receipts })
}
