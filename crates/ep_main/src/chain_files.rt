//! The bundles of a chain, read from files.

ghost use Rattle.std.specs.Prelude.{◌≡◌, ◌++◌, ℕ, List, codes, length, map, string_bytes, IfOk, IfErr, OnOk};
ghost use Rattle.ep_main.specs.Chains.{AreRead, IsLinkOf, IsNoFile, IsNoLink, IsStopped, file_line};
ghost use Rattle.ep_main.specs.ChainLines.{IsRefusal, IsUnreadLate};

use ep_audit::ChainLink;
use ep_base::Noted;
use ep_bundle::{Bundle, BundleFault, read_bundle_of};
use ep_cli::{FilesFault, read_file};
use std::alloc::{AllocError, Global};
use std::rt::Files;

/// Appends the line of a file that is no bundle of version 3.
fn push_file_line(name: &str, fault: BundleFault, line: &mut Vec<u8>) -> Result<(), AllocError>
    ensures { OnOk result (line.new.items ≡ line.old.items ++ file_line name.now fault) }
{
    line.extend_from_slice(fault.to_string(*line.allocator())?.as_bytes())?;
    line.extend_from_slice(b" in ")?;
    line.extend_from_slice(name.as_bytes())?;
    line.extend_from_slice(b"\n")
}

/// The line of the file with this name, which is no bundle of version 3 for this fault.
fn placed(alloc: Global, name: &str, fault: BundleFault) -> FilesFault
    ensures { IsRefusal name.now fault result }
{
    let mut line = Vec::new(alloc);
    match push_file_line(name, fault, &mut line) {
        Ok(()) => FilesFault::Refused(line),
        Err(_) => FilesFault::Memory,
    }
}

/// What a fault of the bytes of the file with this name is reported as: a slice never fails.
fn no_link(alloc: Global, name: &str, fault: BundleFault) -> FilesFault
    ensures { (zs : List ℕ) → IsUnreadLate zs fault → IsNoLink name.now zs result }
{
    match fault {
        BundleFault::Memory | BundleFault::ReadFailed => FilesFault::Memory,
        BundleFault::BadBundle(field) => placed(alloc, name, BundleFault::BadBundle(field)),
        BundleFault::NotARun(replica, entry) => {
            placed(alloc, name, BundleFault::NotARun(replica, entry))
        }
    }
}

/// The generation that these bytes of the file with this name are the bundle of.
pub(crate) fn link_of(alloc: Global, name: &str, bytes: &[u8]) -> Result<ChainLink, FilesFault>
    ensures ok { IfOk result (IsLinkOf bytes.now) }
    ensures err { IfErr result (IsNoLink name.now bytes.now) }
{
    let mut source = Noted::new(bytes);
    match read_bundle_of(alloc, &mut source, 3, 3) {
        Ok(Bundle { journals, receipts }) => Ok(ChainLink { journals, receipts }),
        Err(fault) => Err(no_link(alloc, name, fault)),
    }
}

/// The generation of which the file with this name has the bundle.
fn read_link<R: Files + AllocGlobal>(rt: &R, name: &str) -> Result<ChainLink, FilesFault>
    ensures ok { IfOk result (λ l. (zs : List ℕ) × IsLinkOf zs l) }
    ensures err { IfErr result (IsNoFile name.now) }
{
    let bytes = read_file(rt, name)?;
    link_of(rt.alloc(), name, &bytes)
}

/// The generations of which the files with these names have the bundles, in order, up to the first that isn't read.
pub(crate) fn read_links<R: Files + AllocGlobal>(
    rt: &R,
    names: &[String],
) -> Result<Vec<ChainLink>, FilesFault>
    ensures count { IfOk result (λ links. length links.items ≡ length names.now) }
    ensures read { IfOk result (λ links. AreRead links.items) }
    ensures err { IfErr result (IsStopped (map string_bytes names.now)) }
{
    let mut links = Vec::new(rt.alloc());
    for name in names {
        links.reserve(1)?;
        links.push_reserved(read_link(rt, name)?);
    }
    Ok(links)
}
