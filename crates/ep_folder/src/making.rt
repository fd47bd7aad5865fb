//! What is written into a folder: on the disk before the call returns.

use crate::generation_folder::GenerationFolder;
use crate::paths::{generation_path, mark_path};
use crate::planning::is_to_be_marked;
use ep_base::Generation;
use ep_device::{Device, DeviceFault, FileDevice, SystemFault, fault_of, lock_of};
use itoa::Buffer;
use std::fs::File;
use std::io::ErrorKind;
use std::path::Path;
use std::rt::Files;
use std::{fs, io};

/// The lock of the folder, as long as this is held: one process at a time acts for its replica, in whatever generation.
pub fn lock_folder<R: Files<File = File> + AllocGlobal>(
    rt: &R,
    folder: &str,
) -> Result<File, DeviceFault> {
    let mut name = String::from_str(rt.alloc(), folder)?;
    name.push_str("/node")?;
    lock_of(rt.alloc(), rt, name.as_str())
}

/// Makes the folder of a replica, where it isn't there; the folder that it is in has to be. Its name outlasts a crash.
pub fn make_place<R: Files<File = File>>(rt: &R, folder: &str) -> Result<(), DeviceFault> {
    match placed(rt, folder) {
        Ok(()) => Ok(()),
        Err(error) => Err(fault_of(&error)),
    }
}

fn placed<R: Files<File = File>>(rt: &R, folder: &str) -> io::Result<()> {
    match fs::create_dir(rt, folder) {
        Ok(()) => synced(rt, parent_of(folder)),
        Err(error) if error.kind() == ErrorKind::AlreadyExists => Ok(()),
        Err(error) => Err(error),
    }
}

/// Makes the folder of a generation, where it isn't there. Its name outlasts a crash, and that of the folder that it is in.
pub fn make_folder<R: Files<File = File> + AllocGlobal>(
    rt: &R,
    folder: &str,
    generation: Generation,
) -> Result<(), DeviceFault> {
    let path = generation_path(rt.alloc(), folder, generation)?;
    match made(rt, path.as_str(), folder) {
        Ok(()) => Ok(()),
        Err(error) => Err(fault_of(&error)),
    }
}

/// Makes the folder, and has its name outlast a crash. It may have been there: then nobody knows whether the name would.
fn made<R: Files<File = File>>(rt: &R, path: &str, folder: &str) -> io::Result<()> {
    match fs::create_dir(rt, path) {
        Ok(()) => {}
        Err(error) if error.kind() == ErrorKind::AlreadyExists => {}
        Err(error) => return Err(error),
    }
    synced(rt, folder)?;
    synced(rt, parent_of(folder))
}

/// The folder that a folder is in.
fn parent_of(folder: &str) -> &str {
    match Path::new(folder).parent() {
        Some(parent) if !parent.as_str().is_empty() => parent.as_str(),
        Some(_) => ".",
        None => folder,
    }
}

/// Writes a file: a crash leaves what was there before, or all of it.
pub fn write_whole<R: Files<File = File> + AllocGlobal>(
    rt: &R,
    path: &str,
    bytes: &[u8],
) -> Result<(), DeviceFault> {
    let mut device = FileDevice::open(rt.alloc(), rt, path)?;
    device.replace(bytes)?;
    Ok(())
}

/// Marks each earlier generation that has a folder here as left for this one, whose log is begun. A mark that is there outlasts a crash then.
pub fn leave_earlier<R: Files<File = File> + AllocGlobal>(
    rt: &R,
    folder: &str,
    held: &[GenerationFolder],
    later: Generation,
) -> Result<(), DeviceFault> {
    for one in held {
        leave(rt, folder, one, later)?;
    }
    Ok(())
}

/// Marks this generation, where it is an earlier one. Where its folder is gone by now, nothing is marked.
fn leave<R: Files<File = File> + AllocGlobal>(
    rt: &R,
    folder: &str,
    held: &GenerationFolder,
    later: Generation,
) -> Result<(), DeviceFault> {
    match left(rt, folder, held, later) {
        Err(DeviceFault::Failed(SystemFault::NotFound)) => Ok(()),
        answer => answer,
    }
}

fn left<R: Files<File = File> + AllocGlobal>(
    rt: &R,
    folder: &str,
    held: &GenerationFolder,
    later: Generation,
) -> Result<(), DeviceFault> {
    let Ok(earlier) = Generation::new(held.number) else {
        return Ok(());
    };
    if is_to_be_marked(held, later.number()) {
        return mark(rt, folder, earlier, later);
    }
    if held.left_for > 0 {
        return sync_folder(rt, folder, earlier);
    }
    Ok(())
}

/// Writes the mark that says that a generation is left for this later one.
fn mark<R: Files<File = File> + AllocGlobal>(
    rt: &R,
    folder: &str,
    earlier: Generation,
    later: Generation,
) -> Result<(), DeviceFault> {
    let path = mark_path(rt.alloc(), folder, earlier)?;
    let mut digits = Buffer::new();
    let text = digits.format(later.number());
    write_whole(rt, path.as_str(), text.as_bytes())
}

/// Has the names in the folder of a generation outlast a crash.
fn sync_folder<R: Files<File = File> + AllocGlobal>(
    rt: &R,
    folder: &str,
    generation: Generation,
) -> Result<(), DeviceFault> {
    let path = generation_path(rt.alloc(), folder, generation)?;
    match synced(rt, path.as_str()) {
        Ok(()) => Ok(()),
        Err(error) => Err(fault_of(&error)),
    }
}

fn synced<R: Files<File = File>>(rt: &R, path: &str) -> io::Result<()> {
    File::open(rt, path)?.sync_all()
}
