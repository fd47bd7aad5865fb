//! The names of what is in a folder.

ghost use Rattle.std.specs.Prelude.{◌≡◌, codes, string_bytes, IfOk};
ghost use Rattle.ep_folder.specs.Paths.{file_path, generation_path};

use ep_base::Generation;
use itoa::Buffer;
use std::alloc::{AllocError, Global};

/// FOLDER/G
pub fn generation_path(
    alloc: Global,
    folder: &str,
    generation: Generation,
) -> Result<String, AllocError>
    ensures { IfOk result (λ path. string_bytes path ≡ generation_path folder.now generation) }
{
    let mut digits = Buffer::new();
    let mut path = String::from_str(alloc, folder)?;
    path.push_str("/")?;
    path.push_str(digits.format(generation.number()))?;
    Ok(path)
}

/// FOLDER/G/NAME
pub fn file_path(
    alloc: Global,
    folder: &str,
    generation: Generation,
    name: &str,
) -> Result<String, AllocError>
    ensures { IfOk result (λ path. string_bytes path ≡ file_path folder.now generation name.now) }
{
    let mut path = generation_path(alloc, folder, generation)?;
    path.push_str("/")?;
    path.push_str(name)?;
    Ok(path)
}

/// FOLDER/G/opening
pub fn opening_path(
    alloc: Global,
    folder: &str,
    generation: Generation,
) -> Result<String, AllocError>
    ensures { IfOk result (λ path. string_bytes path ≡ file_path folder.now generation (codes "opening")) }
{
    file_path(alloc, folder, generation, "opening")
}

/// FOLDER/G/log
pub fn log_path(alloc: Global, folder: &str, generation: Generation) -> Result<String, AllocError>
    ensures { IfOk result (λ path. string_bytes path ≡ file_path folder.now generation (codes "log")) }
{
    file_path(alloc, folder, generation, "log")
}

/// FOLDER/G/left
pub fn mark_path(alloc: Global, folder: &str, generation: Generation) -> Result<String, AllocError>
    ensures { IfOk result (λ path. string_bytes path ≡ file_path folder.now generation (codes "left")) }
{
    file_path(alloc, folder, generation, "left")
}

/// FOLDER/G/reference
pub fn reference_path(
    alloc: Global,
    folder: &str,
    generation: Generation,
) -> Result<String, AllocError>
    ensures { IfOk result (λ path. string_bytes path ≡ file_path folder.now generation (codes "reference")) }
{
    file_path(alloc, folder, generation, "reference")
}

/// FOLDER/G/whole
pub fn binding_path(
    alloc: Global,
    folder: &str,
    generation: Generation,
) -> Result<String, AllocError>
    ensures { IfOk result (λ path. string_bytes path ≡ file_path folder.now generation (codes "whole")) }
{
    file_path(alloc, folder, generation, "whole")
}
