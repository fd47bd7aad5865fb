//! What was made, printed.

ghost use Rattle.ep_cli.specs.Outputs.{became};
ghost use Rattle.ep_cli.specs.Printed.{IsPut, IsTextPut};

use crate::made::Made;
use crate::status::Status;
use ep_base::Sink;

/// Writes what was made, in one go, and answers how the program then ends; or `unwritten`, where the output fails.
pub fn put_made<E: Drop, W: Sink>(
    made: Result<Made, E>,
    unwritten: E,
    writer: &mut W,
) -> Result<Status, E>
    ensures { IsPut unwritten made result (became W.held W.has_failed writer.old writer.new) }
{
    match made {
        Ok(made) => put_text(&made.text, made.status, unwritten, writer),
        Err(fault) => Err(fault),
    }
}

/// Writes a text, after which the program ends so; or answers `unwritten`, where the output fails.
pub fn put_text<E: Drop, W: Sink>(
    text: &[u8],
    status: Status,
    unwritten: E,
    writer: &mut W,
) -> Result<Status, E>
    ensures { IsTextPut unwritten text.now status result (became W.held W.has_failed writer.old writer.new) }
{
    match writer.put(text) {
        Ok(()) => Ok(status),
        Err(_) => Err(unwritten),
    }
}
