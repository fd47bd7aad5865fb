//! Bundles as bytes.

ghost use Rattle.std.specs.Prelude.{◌≡◌, ◌<◌, ◌^◌, length, IfOk, IfErr};
ghost use Rattle.ep_bundle.specs.Bytes.{bundle_bytes};
ghost use Rattle.ep_main.specs.declared.engine_fault.EngineFault.TheVariants.{Memory};

use crate::engine_fault::EngineFault;
use ep_base::Noted;
use ep_bundle::write_bundle;
use ep_journal::Journals;
use ep_rules::Receipt;
use std::alloc::Global;

/// The bytes of a bundle. They are gathered first and then put in one go, as a report's are.
pub(crate) fn gather_bundle(
    alloc: Global,
    journals: &Journals,
    receipts: &[Receipt],
) -> Result<Vec<u8>, EngineFault>
    requires receipts { length receipts.now < 2 ^ 32 }
    ensures value { IfOk result (λ bytes. bytes.items ≡ bundle_bytes journals.now receipts.now) }
    ensures memory { IfErr result (λ e. e ≡ Memory) }
{
    let Ok(map) = journals.opening().contents().listing() else {
        return Err(EngineFault::Memory);
    };
    let mut gathered = Noted::new(Vec::new(alloc));
    match write_bundle(journals, &map, receipts, &mut gathered) {
        Ok(()) => Ok(gathered.into_inner()),
        Err(_) => Err(EngineFault::Memory),
    }
}
