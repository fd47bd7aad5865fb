//! Bundles, upgraded to version 2 or 3.

ghost use Rattle.std.specs.Prelude.{◌≡◌, ◌≤◌, ℕ, List, Some, IfOk, IfErr, false};
ghost use Rattle.ep_base.specs.Devices.{FailsAsReported};
ghost use Rattle.ep_base.specs.Versions.{version_number};
ghost use Rattle.ep_base.specs.declared.version_kind.VersionKind.TheVariants.{V2};
ghost use Rattle.ep_bundle.specs.Bytes.{bundle_bytes};
ghost use Rattle.ep_journal.specs.Upgrading.{IsUpgraded};
ghost use Rattle.ep_main.specs.Faults.{is_read, is_write};
ghost use Rattle.ep_cli.specs.Printed.{Makes};
ghost use Rattle.ep_main.specs.Runs.{Does, IsVerdict};
ghost use Rattle.ep_main.specs.declared.asked.Asked.TheVariants.{Upgrade};
ghost use Rattle.ep_main.specs.Upgrades.{IsThirdFault};
ghost use Rattle.ep_main.specs.declared.engine_fault.EngineFault.TheVariants.{Memory};
ghost use Rattle.ep_main.specs.declared.target.Target.TheVariants.{Second, Third};
ghost use Rattle.ep_bundle.specs.Respelled.{IsThird};

use crate::engine_fault::EngineFault;
use crate::gathering::gather_bundle;
use crate::target::Target;
use ep_base::Source;
use ep_bundle::{Bundle, bundles_are_canonical, in_third, read_bundle, read_bundle_of};
use ep_cli::{Made, Status};
use std::alloc::Global;
use std::mem::forget;

/// Reads a bundle to its end, and upgrades its journals to this version: the bundle of these, with the same receipts. It doesn't audit: what
/// doesn't fit together stays as it is.
pub(crate) fn upgraded_of<S: Source>(
    alloc: Global,
    target: Target,
    reader: &mut S,
) -> Result<Made, EngineFault>
    ensures rewrites { (zs : List ℕ) → S.left reader.old ≡ Some zs → Makes (Does (Upgrade target)) result zs }
    ensures verdict { IfOk result (λ m. IsVerdict m.status) }
    ensures read { FailsAsReported is_read result (S.has_failed reader.old) (S.has_failed reader.new) }
    ensures unwritten { IfErr result (λ e. is_write e ≡ false) }
{
    match target {
        Target::Second => second_of(alloc, reader),
        Target::Third => third_from(alloc, reader),
    }
}

/// The same to version 2, of a bundle of version 1 or 2: version 3 isn't read.
fn second_of<S: Source>(alloc: Global, reader: &mut S) -> Result<Made, EngineFault>
    ensures rewrites { (zs : List ℕ) → S.left reader.old ≡ Some zs → Makes (Does (Upgrade Second)) result zs }
    ensures verdict { IfOk result (λ m. IsVerdict m.status) }
    ensures read { FailsAsReported is_read result (S.has_failed reader.old) (S.has_failed reader.new) }
    ensures unwritten { IfErr result (λ e. is_write e ≡ false) }
{
    bundles_are_canonical();
    let bundle = read_bundle_of(alloc, reader, 1, 2)?;
    let upgraded = upgrade(alloc, bundle)?;
    let text = bundle_of(alloc, &upgraded);
    // The system takes memory back at the process's end, all at once.
    forget(upgraded);
    match text {
        Ok(text) => Ok(Made {
            text,
            status: Status::Done,
        }),
        Err(fault) => Err(fault),
    }
}

/// The same to version 3.
fn third_from<S: Source>(alloc: Global, reader: &mut S) -> Result<Made, EngineFault>
    ensures rewrites { (zs : List ℕ) → S.left reader.old ≡ Some zs → Makes (Does (Upgrade Third)) result zs }
    ensures verdict { IfOk result (λ m. IsVerdict m.status) }
    ensures read { FailsAsReported is_read result (S.has_failed reader.old) (S.has_failed reader.new) }
    ensures unwritten { IfErr result (λ e. is_write e ≡ false) }
{
    let bundle = read_bundle(alloc, reader)?;
    let text = third_of(alloc, &bundle);
    // The system takes memory back at the process's end, all at once.
    forget(bundle);
    match text {
        Ok(text) => Ok(Made {
            text,
            status: Status::Done,
        }),
        Err(fault) => Err(fault),
    }
}

/// The bundle with its journals in version 2.
fn upgrade(alloc: Global, bundle: Bundle) -> Result<Bundle, EngineFault>
    ensures journals { version_number bundle.journals.version ≤ 2 → IfOk result (λ b. IsUpgraded bundle.journals b.journals) }
    ensures same { bundle.journals.version ≡ V2 → IfOk result (λ b. b.journals ≡ bundle.journals) }
    ensures receipts { IfOk result (λ b. b.receipts.items ≡ bundle.receipts.items) }
    ensures memory { IfErr result (λ e. e ≡ Memory) }
{
    let Bundle { journals, receipts } = bundle;
    let journals = journals.into_upgraded(alloc)?;
    Ok(Bundle { journals, receipts })
}

/// The bytes of a bundle.
fn bundle_of(alloc: Global, bundle: &Bundle) -> Result<Vec<u8>, EngineFault>
    ensures value { IfOk result (λ bytes. bytes.items ≡ bundle_bytes bundle.now.journals bundle.now.receipts.items) }
    ensures memory { IfErr result (λ e. e ≡ Memory) }
{
    if bundle.receipts.len() >= 4_294_967_296 {
        return Err(EngineFault::Memory);
    }
    gather_bundle(alloc, &bundle.journals, bundle.receipts.as_slice())
}

/// The bytes of the bundle in version 3.
fn third_of(alloc: Global, bundle: &Bundle) -> Result<Vec<u8>, EngineFault>
    ensures late { 3 ≤ version_number bundle.now.journals.version → IfOk result (λ bytes. bytes.items ≡ bundle_bytes bundle.now.journals bundle.now.receipts.items) }
    ensures early { version_number bundle.now.journals.version ≤ 2 → IfOk result (λ bytes. IsThird bundle.now.journals bundle.now.receipts.items bytes.items) }
    ensures refused { version_number bundle.now.journals.version ≤ 2 → IfErr result (IsThirdFault bundle.now.journals bundle.now.receipts.items) }
    ensures memory { 3 ≤ version_number bundle.now.journals.version → IfErr result (λ e. e ≡ Memory) }
{
    if bundle.journals.version().number() > 2 {
        return bundle_of(alloc, bundle);
    }
    respelled(alloc, bundle)
}

/// The bytes of a bundle of version 1 or 2, in version 3.
fn respelled(alloc: Global, bundle: &Bundle) -> Result<Vec<u8>, EngineFault>
    requires { version_number bundle.now.journals.version ≤ 2 }
    ensures third { IfOk result (λ bytes. IsThird bundle.now.journals bundle.now.receipts.items bytes.items) }
    ensures refused { IfErr result (IsThirdFault bundle.now.journals bundle.now.receipts.items) }
{
    if bundle.receipts.len() >= 4_294_967_296 {
        return Err(EngineFault::Memory);
    }
    match in_third(alloc, &bundle.journals, bundle.receipts.as_slice()) {
        Ok(text) => Ok(text),
        Err(fault) => Err(EngineFault::from(fault)),
    }
}
