//! Members of objects.

use ep_report::Part;

/// A member of an object: its name, and the part of a line that is its value.
#[derive(Drop)]
pub(crate) struct Member<'a> {
    pub name: &'a [u8],
    pub value: Part<'a>,
}
