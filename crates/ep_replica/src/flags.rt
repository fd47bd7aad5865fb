//! Lists of flags.

ghost use Rattle.std.specs.Prelude.{◌≡◌, ◌≤◌, ℕ, OnOk, false, length, slice_index_or};

use std::alloc::AllocError;

/// Makes so many flags. What is set stays so.
#[inline(always)]
pub(crate) fn widen(flags: &mut Vec<bool>, count: usize) -> Result<(), AllocError>
    ensures many { OnOk result (count ≤ length flags.new.items) }
    ensures longer { length flags.old.items ≤ length flags.new.items }
    ensures same { (place : ℕ) → slice_index_or flags.new.items place false ≡ slice_index_or flags.old.items place false }
{
    if count <= flags.len() {
        return Ok(());
    }
    flags.resize(count, false)
}
