//! What a folder has.

use crate::generation_folder::GenerationFolder;
use crate::named::{generation_in, left_in};
use crate::paths::{binding_path, log_path, mark_path, opening_path, reference_path};
use ep_base::Generation;
use ep_device::{DeviceFault, fault_of};
use ep_opening::write_binding;
use std::alloc::AllocError;
use std::fs::File;
use std::io::{ErrorKind, Read, Seek, SeekFrom};
use std::rt::Files;
use std::{fs, io};

/// How many bytes a digest has.
const DIGEST_LEN: usize = 32;

/// What the folder has of each generation. Names that spell none are passed over.
pub fn look<R: Files<File = File> + AllocGlobal>(
    rt: &R,
    folder: &str,
) -> Result<Vec<GenerationFolder>, DeviceFault> {
    let mut all = Vec::new(rt.alloc());
    let entries = match fs::read_dir(&rt, folder) {
        Ok(entries) => entries,
        Err(error) => return Err(fault_of(&error)),
    };
    for entry in entries {
        let number = match entry {
            Ok(entry) => generation_in(entry.file_name().as_bytes()),
            // (a name that is no text is none of these)
            Err(error) if error.kind() == ErrorKind::InvalidFilename => None,
            Err(error) => return Err(fault_of(&error)),
        };
        if let Some(held) = held_of(rt, folder, number)? {
            append(&mut all, held)?;
        }
    }
    Ok(all)
}

fn append(all: &mut Vec<GenerationFolder>, held: GenerationFolder) -> Result<(), AllocError> {
    all.push(held)?;
    Ok(())
}

/// What it has of the generation of this number, where that is one.
fn held_of<R: Files<File = File> + AllocGlobal>(
    rt: &R,
    folder: &str,
    number: Option<u32>,
) -> Result<Option<GenerationFolder>, DeviceFault> {
    let Some(number) = number else {
        return Ok(None);
    };
    match Generation::new(number) {
        Ok(generation) => Ok(Some(held_in(rt, folder, generation)?)),
        Err(_) => Ok(None),
    }
}

fn held_in<R: Files<File = File> + AllocGlobal>(
    rt: &R,
    folder: &str,
    generation: Generation,
) -> Result<GenerationFolder, DeviceFault> {
    let opening = opening_path(rt.alloc(), folder, generation)?;
    let reference = reference_path(rt.alloc(), folder, generation)?;
    let mark = mark_path(rt.alloc(), folder, generation)?;
    Ok(GenerationFolder {
        number: generation.number(),
        has_opening: is_there(rt, opening.as_str())?,
        has_reference: is_there(rt, reference.as_str())?,
        is_bound: is_bound(rt, folder, generation)?,
        left_for: left_for(rt, mark.as_str(), generation.number())?,
    })
}

/// Whether what is there says that the opening is the one that the reference stood for: by the digests that the two end with. (Whether each is the digest of
/// the bytes before it is seen when they are read.)
fn is_bound<R: Files<File = File> + AllocGlobal>(
    rt: &R,
    folder: &str,
    generation: Generation,
) -> Result<bool, DeviceFault> {
    let path = binding_path(rt.alloc(), folder, generation)?;
    if !is_there(rt, path.as_str())? {
        return Ok(false);
    }
    let bytes = read_bytes(rt, path.as_str())?;
    binds(rt, folder, generation, &bytes)
}

/// Whether the bytes bind the opening to the reference.
fn binds<R: Files<File = File> + AllocGlobal>(
    rt: &R,
    folder: &str,
    generation: Generation,
    bytes: &[u8],
) -> Result<bool, DeviceFault> {
    let reference = reference_path(rt.alloc(), folder, generation)?;
    let opening = opening_path(rt.alloc(), folder, generation)?;
    let Some(named) = digest_at(rt, reference.as_str())? else {
        return Ok(false);
    };
    let Some(written) = digest_at(rt, opening.as_str())? else {
        return Ok(false);
    };
    let wanted = write_binding(rt.alloc(), named, written)?;
    Ok(wanted.as_slice() == bytes)
}

/// The last 32 bytes of a file; none where it isn't there, or has fewer.
fn digest_at<R: Files<File = File>>(
    rt: &R,
    path: &str,
) -> Result<Option<[u8; DIGEST_LEN]>, DeviceFault> {
    match fs::metadata(rt, path) {
        Ok(found) if found.len() < DIGEST_LEN as u64 => Ok(None),
        Ok(_) => last_of(rt, path),
        Err(error) if is_missing(&error) => Ok(None),
        Err(error) => Err(fault_of(&error)),
    }
}

fn last_of<R: Files<File = File>>(
    rt: &R,
    path: &str,
) -> Result<Option<[u8; DIGEST_LEN]>, DeviceFault> {
    match read_last(rt, path) {
        Ok(digest) => Ok(Some(digest)),
        Err(error) => Err(fault_of(&error)),
    }
}

/// The last 32 bytes of a file that has as many.
fn read_last<R: Files<File = File>>(rt: &R, path: &str) -> io::Result<[u8; DIGEST_LEN]> {
    let mut digest = [0; DIGEST_LEN];
    let mut file = File::open(rt, path)?;
    file.seek(SeekFrom::End(-32))?;
    file.read_exact(&mut digest)?;
    Ok(digest)
}

/// Whether something has this name.
fn is_there<R: Files>(rt: &R, path: &str) -> Result<bool, DeviceFault> {
    match fs::metadata(rt, path) {
        Ok(_) => Ok(true),
        Err(error) if is_missing(&error) => Ok(false),
        Err(error) => Err(fault_of(&error)),
    }
}

/// Whether the error says that nothing has the name. (What isn't a folder has nothing in it.)
fn is_missing(error: &io::Error) -> bool {
    matches!(error.kind(), ErrorKind::NotFound | ErrorKind::NotADirectory)
}

/// Whether the folder has a folder `generations`, as that of a store has.
pub fn has_generations<R: Files + AllocGlobal>(rt: &R, folder: &str) -> Result<bool, DeviceFault> {
    let mut path = String::from_str(rt.alloc(), folder)?;
    path.push_str("/generations")?;
    match fs::metadata(rt, path.as_str()) {
        Ok(found) => Ok(found.is_dir()),
        Err(_) => Ok(false),
    }
}

/// The later generation that the mark of this name says was begun; 0 where there is none.
fn left_for<R: Files + AllocGlobal>(
    rt: &R,
    mark: &str,
    generation: u32,
) -> Result<u32, DeviceFault> {
    if !is_there(rt, mark)? {
        return Ok(0);
    }
    let bytes = read_bytes(rt, mark)?;
    Ok(left_in(&bytes, generation))
}

/// All the bytes of a file.
pub fn read_bytes<R: Files + AllocGlobal>(rt: &R, path: &str) -> Result<Vec<u8>, DeviceFault> {
    match fs::read(rt, path) {
        Ok(bytes) => Ok(bytes),
        Err(error) => Err(fault_of(&error)),
    }
}

/// Whether the log of a generation has a byte.
pub fn has_log<R: Files + AllocGlobal>(
    rt: &R,
    folder: &str,
    generation: Generation,
) -> Result<bool, DeviceFault> {
    let path = log_path(rt.alloc(), folder, generation)?;
    match fs::metadata(rt, path.as_str()) {
        Ok(found) => Ok(found.len() > 0),
        Err(error) if is_missing(&error) => Ok(false),
        Err(error) => Err(fault_of(&error)),
    }
}
