//! What says that an opening file is the one that a reference stood for.

ghost use Rattle.std.specs.Prelude.{◌≡◌, IfOk};
ghost use Rattle.ep_opening.specs.References.{binding_bytes};

use std::alloc::{AllocError, Global};

/// How many bytes a binding has.
const BINDING_LEN: usize = 69;

/// The bytes that bind the opening file of this digest to the reference of that one. No other bytes do: who reads some compares them with these.
pub fn write_binding(
    alloc: Global,
    reference: [u8; 32],
    file: [u8; 32],
) -> Result<Vec<u8>, AllocError>
    ensures { IfOk result (λ bytes. bytes.items ≡ binding_bytes reference file) }
{
    let mut bytes = Vec::with_capacity(alloc, BINDING_LEN)?;
    bytes.extend_from_slice(&[0x45, 0x50, 0x4f, 0x42, 3])?;
    bytes.extend_from_slice(&reference)?;
    bytes.extend_from_slice(&file)?;
    Ok(bytes)
}
