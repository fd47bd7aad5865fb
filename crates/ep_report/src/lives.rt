//! What journals and their history say of a generation.

ghost use Rattle.std.specs.Prelude.{◌≡◌, ◌<◌, ◌≤◌, ◌^◌, length, IfOk, IfSome};
ghost use Rattle.std.specs.FinMap.{entries};
ghost use Rattle.std.specs.Option.{option_copied};
ghost use Rattle.ep_report.specs.Lives.{life_reported, life_with, reported_in};

use crate::life::Life;
use ep_audit::{Closing, Happening, contents_of};
use ep_base::{Generation, VersionKind};
use ep_exec::Contents;
use ep_journal::Journals;
use std::alloc::{AllocError, Global};

/// What the keys have after the journals' history; none in versions 1 and 2, whose reports don't have it.
pub fn reported_contents(
    alloc: Global,
    journals: &Journals,
    history: &[Happening],
) -> Result<Option<Contents>, AllocError>
    ensures value { IfOk result (λ m. m ≡ reported_in journals.now history.now) }
    ensures few { IfOk result (λ m. IfSome m (λ m. length (entries m) < 2 ^ 32)) }
{
    match journals.version().kind() {
        VersionKind::V1 | VersionKind::V2 => Ok(None),
        VersionKind::V3(_) => Ok(Some(contents_of(alloc, journals.opening(), history)?)),
    }
}

/// The generation of which the journals are, with the first seal of their history and what the keys then have; none in versions 1 and 2.
pub fn life_of<'a>(
    journals: &Journals,
    closing: Option<&'a Closing>,
    contents: &'a Option<Contents>,
) -> Option<Life<'a>>
    requires { IfSome contents.now (λ m. length (entries m) < 2 ^ 32) }
    ensures { result ≡ life_reported journals.now (option_copied closing.entry) contents.now }
{
    let base_stamp = journals.opening().base_stamp();
    match contents {
        None => None,
        Some(contents) => match journals.version().kind() {
            VersionKind::V1 | VersionKind::V2 => None,
            VersionKind::V3(number) => Some(life_from(number, base_stamp, closing, contents)),
        },
    }
}

/// The generation of this number, whose clocks went on from this stamp, its first seal, and what the keys then have.
fn life_from<'a>(
    number: u32,
    base_stamp: u64,
    closing: Option<&'a Closing>,
    contents: &'a Contents,
) -> Life<'a>
    requires number { 1 ≤ number }
    requires keys { length (entries contents.now) < 2 ^ 32 }
    ensures { result ≡ life_with number base_stamp (option_copied closing.entry) contents.now }
{
    let Ok(generation) = Generation::new(number) else {
        unreachable!()
    };
    Life::new(generation, base_stamp, closing, contents)
}
