//! A bundle of version 1 or 2, upgraded to version 3.

ghost use Rattle.std.specs.Prelude.{◌≡◌, ◌≤◌, ◌<◌, ◌^◌, ℕ, List, length, IfOk, IfErr};
ghost use Rattle.ep_base.specs.Versions.{version_number};
ghost use Rattle.ep_bundle.specs.Respelled.{IsBundle, IsNoBundle, IsNoThird, IsThird, IsUnread};

use crate::bundle::read_bundle;
use crate::bundle_fault::BundleFault;
use crate::respelled_writing::bundle_text;
use ep_base::Noted;
use ep_journal::Journals;
use ep_rules::Receipt;
use std::alloc::Global;
use std::mem::forget;

/// What a fault of bytes in memory is reported as: reading them never fails.
fn reported(fault: BundleFault) -> BundleFault
    ensures { (zs : List ℕ) → IsUnread zs fault → IsNoBundle zs result }
{
    match fault {
        BundleFault::Memory | BundleFault::ReadFailed => BundleFault::Memory,
        BundleFault::BadBundle(field) => BundleFault::BadBundle(field),
        BundleFault::NotARun(replica, entry) => BundleFault::NotARun(replica, entry),
    }
}

/// Reads the bytes as a bundle, and lets it go.
fn check(alloc: Global, bytes: &[u8]) -> Result<(), BundleFault>
    ensures ok { IfOk result (λ _. IsBundle bytes.now) }
    ensures err { IfErr result (IsNoBundle bytes.now) }
{
    let mut source = Noted::new(bytes);
    match read_bundle(alloc, &mut source) {
        Ok(bundle) => {
            forget(bundle);
            Ok(())
        }
        Err(fault) => Err(reported(fault)),
    }
}

/// The bytes of the bundle of these journals in version 3, of generation 1, which opens with nothing, and of these receipts. `NotARun` reports
/// the first entry that is no step in version 3.
pub fn in_third(
    alloc: Global,
    journals: &Journals,
    receipts: &[Receipt],
) -> Result<Vec<u8>, BundleFault>
    requires early { version_number journals.now.version ≤ 2 }
    requires receipts { length receipts.now < 2 ^ 32 }
    ensures ok { IfOk result (λ text. IsThird journals.now receipts.now text.items) }
    ensures err { IfErr result (IsNoThird journals.now receipts.now) }
{
    let text = bundle_text(alloc, journals, receipts)?;
    check(alloc, &text)?;
    Ok(text)
}
