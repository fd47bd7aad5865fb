//! References, as a host reads them.

ghost use Rattle.std.specs.Prelude.{◌≡◌};
ghost use Rattle.ep_library.specs.References.{read_of, ReportsReference};

use crate::codes::opening_status;
use crate::place::Place;
use crate::reference_head::ReferenceHead;
use crate::refusals::opening_place;
use crate::status::DONE;
use ep_opening::OpeningReference;
use std::alloc::Global;

/// What the reference says.
fn read_of(reference: &OpeningReference) -> ReferenceHead
    ensures { result ≡ read_of reference.now }
{
    ReferenceHead {
        length: reference.length(),
        generation: reference.generation().number(),
        replicas: reference.size().count(),
    }
}

/// Reads a reference, of 82 bytes, exactly: what is refused no reference has. EP_MEMORY; EP_OPENING_SHORT,
/// EP_OPENING_DAMAGED, EP_OPENING_WRONG, where `place` becomes the numbers that the status names.
#[unsafe(no_mangle)]
pub extern "C" fn ep_read_reference(
    alloc: Global,
    reference: &[u8],
    read: &mut ReferenceHead,
    place: &mut Place,
) -> u8
    ensures { ReportsReference result reference.now read.old place.old read.new place.new }
{
    match ep_opening::read_reference(alloc, reference) {
        Ok(found) => {
            *read = read_of(&found);
            DONE
        }
        Err(fault) => {
            *place = opening_place(fault);
            opening_status(fault)
        }
    }
}
