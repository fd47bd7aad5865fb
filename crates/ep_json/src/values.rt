//! What joins the values of arrays and objects.

ghost use Rattle.std.specs.Prelude.{◌≡◌, ◌++◌, OnOk};
ghost use Rattle.ep_json.specs.Values.{comma, name_text};

use crate::strings::push_string;
use std::alloc::AllocError;

/// Appends the comma before an item of an array, or a member of an object: there is none before the first one.
pub fn push_comma(text: &mut Vec<u8>, is_first: bool) -> Result<(), AllocError>
    ensures { OnOk result (text.new.items ≡ text.old.items ++ comma is_first) }
{
    if is_first {
        return Ok(());
    }
    text.push(b',')?;
    Ok(())
}

/// Appends the name of a member and the colon behind it.
pub fn push_name(text: &mut Vec<u8>, name: &[u8]) -> Result<(), AllocError>
    ensures { OnOk result (text.new.items ≡ text.old.items ++ name_text name.now) }
{
    push_string(text, name)?;
    text.push(b':')?;
    Ok(())
}
