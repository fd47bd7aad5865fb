//! Files that the command line names.

ghost use Rattle.std.specs.Prelude.{◌≡◌, ◌++◌, length, map, string_bytes, IfOk, IfErr, OnOk};
ghost use Rattle.ep_cli.specs.Files.{IsOfFile, IsUnread, unread_line};

use crate::causes::push_cause;
use crate::files_fault::FilesFault;
use ep_device::{DeviceFault, SystemFault, fault_of};
use std::alloc::{AllocError, Global};
use std::fs;
use std::rt::Files;

/// The bytes of the files with these names.
pub fn read_files<R: Files + AllocGlobal>(
    rt: &R,
    names: &[String],
) -> Result<Vec<Vec<u8>>, FilesFault>
    ensures count { IfOk result (λ files. length files.items ≡ length names.now) }
    ensures err { IfErr result (IsUnread (map string_bytes names.now)) }
{
    let mut files = Vec::new(rt.alloc());
    for name in names {
        let bytes = read_file(rt, name)?;
        if files.push(bytes).is_err() {
            return Err(FilesFault::Memory);
        }
    }
    Ok(files)
}

/// The bytes of a file.
pub fn read_file<R: Files + AllocGlobal>(rt: &R, name: &str) -> Result<Vec<u8>, FilesFault>
    ensures { IfErr result (IsOfFile name.now) }
{
    match fs::read(rt, name) {
        Ok(bytes) => Ok(bytes),
        Err(error) => Err(unread(rt.alloc(), name, fault_of(&error))),
    }
}

/// The fault of a file that can't be read for this reason, with its line.
pub fn unread(alloc: Global, name: &str, why: DeviceFault) -> FilesFault
    ensures { IsOfFile name.now result }
{
    match why {
        DeviceFault::Memory => FilesFault::Memory,
        DeviceFault::Failed(cause) => unread_for(alloc, name, cause),
    }
}

fn unread_for(alloc: Global, name: &str, cause: SystemFault) -> FilesFault
    ensures { IsOfFile name.now result }
{
    let mut line = Vec::new(alloc);
    match push_unread(name, cause, &mut line) {
        Ok(()) => FilesFault::ReadFailed(line),
        Err(_) => FilesFault::Memory,
    }
}

/// Appends the line of a file that can't be read.
fn push_unread(name: &str, cause: SystemFault, line: &mut Vec<u8>) -> Result<(), AllocError>
    ensures { OnOk result (line.new.items ≡ line.old.items ++ unread_line name.now cause) }
{
    line.extend_from_slice(b"reading ")?;
    line.extend_from_slice(name.as_bytes())?;
    line.extend_from_slice(b" failed: ")?;
    push_cause(cause, line)?;
    line.extend_from_slice(b"\n")
}
