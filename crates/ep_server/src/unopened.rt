//! Why a folder doesn't give what a generation opens with, reported by its name.

ghost use Rattle.std.specs.Prelude.{◌≡◌, ◌++◌, codes, IfOk};
ghost use Rattle.ep_base.specs.Devices.{Puts};
ghost use Rattle.ep_server.specs.Faults.{line_of_folder};
ghost use Rattle.ep_server.specs.NamedFiles.{IsUnopened};

use crate::folder_fault::FolderFault;
use crate::reporting::write_folder_fault;
use ep_base::{Noted, Sink, WriteFailed};
use ep_cli::{FilesFault, unread};
use ep_device::DeviceFault;
use std::alloc::{AllocError, Global};

/// The fault of a folder, with its line.
#[tactic(auto, using(crate::proofs::Gathered::unread_folder))]
pub(crate) fn unopened(alloc: Global, folder: &str, why: FolderFault) -> FilesFault
    ensures { IsUnopened folder.now result }
{
    match why {
        FolderFault::Memory => FilesFault::Memory,
        FolderFault::Failed(cause) => unread(alloc, folder, DeviceFault::Failed(cause)),
        why => refused(alloc, folder, why),
    }
}

#[tactic(auto, using(crate::proofs::Gathered::refused_line))]
fn refused(alloc: Global, folder: &str, why: FolderFault) -> FilesFault
    ensures { IsUnopened folder.now result }
{
    match line_of(alloc, folder, why) {
        Ok(line) => FilesFault::Refused(line),
        Err(_) => FilesFault::Memory,
    }
}

/// The folder's name, and the line of its fault.
fn line_of(alloc: Global, folder: &str, why: FolderFault) -> Result<Vec<u8>, AllocError>
    ensures { IfOk result (λ line. line.items ≡ folder.now ++ codes ": " ++ line_of_folder why) }
{
    let mut sink = Noted::new(Vec::new(alloc));
    match put_line(folder, why, &mut sink) {
        Ok(()) => Ok(sink.into_inner()),
        Err(_) => Err(AllocError),
    }
}

fn put_line<F: Sink>(folder: &str, why: FolderFault, sink: &mut F) -> Result<(), WriteFailed>
    ensures { Puts (F.held sink.old) (F.held sink.new) (F.has_failed sink.old) (F.has_failed sink.new) result (folder.now ++ codes ": " ++ line_of_folder why) }
{
    sink.put(folder.as_bytes())?;
    sink.put(b": ")?;
    write_folder_fault(why, sink)
}
