//! Logs and receipts, assembled to a bundle.

ghost use Rattle.std.specs.Prelude.{◌≡◌, ◌<◌, ◌^◌, length, IfOk, IfErr};
ghost use Rattle.ep_base.specs.Quorums.{size};
ghost use Rattle.ep_bundle.specs.Bytes.{bundle_bytes};
ghost use Rattle.ep_assemble.specs.Logs.{IsAssembled, IsBundled, IsRefused, contents};
ghost use Rattle.ep_assemble.specs.Receipts.{AreUnheld};

use crate::assemble_fault::AssembleFault;
use crate::assembled::{Assembled, End};
use crate::collecting::collect;
use crate::logs::read_logs;
use crate::receipts::read_receipts;
use ep_base::Noted;
use ep_bundle::write_bundle;
use ep_journal::Journals;
use ep_rules::Receipt;
use std::alloc::{AllocError, Global};
use std::mem::forget;

/// The most receipts that a bundle counts.
const MOST_RECEIPTS: usize = 4_294_967_295;

/// A bundle, and the end of each file of receipts.
#[derive(Drop)]
pub(crate) struct Bundled {
    pub bundle: Vec<u8>,
    pub ends: Vec<End>,
}

/// The bundle of the journals that these logs hold, in any order, and of the receipts that these files hold, in their order.
pub fn assemble(
    alloc: Global,
    logs: &[Vec<u8>],
    receipts: &[Vec<u8>],
) -> Result<Assembled, AssembleFault>
    ensures ok { IfOk result (λ a. IsAssembled (contents logs.now) (contents receipts.now) a.bundle.items a.ends.items a.receipt_ends.items) }
    ensures err { IfErr result (λ e. IsRefused e (contents logs.now) (contents receipts.now)) }
{
    let logs = read_logs(alloc, logs)?;
    let journals = collect(logs.journals)?;
    let bundled = bundle_of(alloc, journals, receipts)?;
    Ok(Assembled {
        bundle: bundled.bundle,
        ends: logs.ends,
        receipt_ends: bundled.ends,
    })
}

/// The bundle of these journals, and of the receipts that these files hold. The process ends then, and its end frees the journals' memory.
pub(crate) fn bundle_of(
    alloc: Global,
    journals: Journals,
    receipts: &[Vec<u8>],
) -> Result<Bundled, AssembleFault>
    ensures ok { IfOk result (λ b. IsBundled journals (contents receipts.now) b.bundle.items b.ends.items) }
    ensures err { IfErr result (AreUnheld journals.version (size journals.faults) (contents receipts.now)) }
{
    match bundle_with(alloc, &journals, receipts) {
        Ok(bundled) => {
            forget(journals);
            Ok(bundled)
        }
        Err(fault) => {
            drop(journals);
            Err(fault)
        }
    }
}

fn bundle_with(
    alloc: Global,
    journals: &Journals,
    receipts: &[Vec<u8>],
) -> Result<Bundled, AssembleFault>
    ensures ok { IfOk result (λ b. IsBundled journals.now (contents receipts.now) b.bundle.items b.ends.items) }
    ensures err { IfErr result (AreUnheld journals.now.version (size journals.now.faults) (contents receipts.now)) }
{
    let held = read_receipts(alloc, journals.version(), journals.size(), receipts)?;
    if held.receipts.len() > MOST_RECEIPTS {
        return Err(AssembleFault::TooManyReceipts);
    }
    let bundle = bytes_of(alloc, journals, &held.receipts)?;
    Ok(Bundled {
        bundle,
        ends: held.ends,
    })
}

/// The bytes of the bundle of these journals and receipts.
fn bytes_of(alloc: Global, journals: &Journals, receipts: &[Receipt]) -> Result<Vec<u8>, AllocError>
    requires receipts { length receipts.now < 2 ^ 32 }
    ensures { IfOk result (λ bytes. bytes.items ≡ bundle_bytes journals.now receipts.now) }
{
    let map = journals.opening().contents().listing()?;
    let mut gathered = Noted::new(Vec::new(alloc));
    match write_bundle(journals, &map, receipts, &mut gathered) {
        Ok(()) => Ok(gathered.into_inner()),
        Err(_) => Err(AllocError),
    }
}
