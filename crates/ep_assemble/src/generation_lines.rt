//! The lines that are reported of opening files and logs of a generation, by the names of their files.

ghost use Rattle.std.specs.Prelude.{◌≡◌, ◌++◌, codes, decimal, map, string_bytes, OnOk};
ghost use Rattle.ep_opening.specs.Texts.{field_text};
ghost use Rattle.ep_assemble.specs.GenerationLines.{cluster_line, differing_line, generation_line, missing_line, opening_line, opening_text};

use crate::differing::Differing;
use crate::generation_fault::GenerationFault;
use crate::generation_names::GenerationNames;
use crate::lines::{name_of, push_other, push_refusal};
use ep_cli::push_number;
use ep_opening::{OpeningFault, OpeningField};
use std::alloc::AllocError;

/// Appends the name of a field.
fn push_field(field: OpeningField, out: &mut Vec<u8>) -> Result<(), AllocError>
    ensures { OnOk result (out.new.items ≡ out.old.items ++ field_text field) }
{
    out.extend_from_slice(field.to_string(*out.allocator())?.as_bytes())
}

/// Appends which field is wrong, and where it begins.
fn push_wrong(at: u64, field: OpeningField, out: &mut Vec<u8>) -> Result<(), AllocError>
    ensures { OnOk result (out.new.items ≡ out.old.items ++ (field_text field ++ (codes " is wrong at byte " ++ decimal at))) }
{
    push_field(field, out)?;
    push_number(b" is wrong at byte ", at, out)
}

/// Appends why an opening file was not read.
fn push_opening_text(fault: OpeningFault, out: &mut Vec<u8>) -> Result<(), AllocError>
    ensures { OnOk result (out.new.items ≡ out.old.items ++ opening_text fault) }
{
    match fault {
        OpeningFault::Memory => out.extend_from_slice(b"out of memory"),
        OpeningFault::CutShort(at) => push_number(b"cut short at byte ", at, out),
        OpeningFault::Damaged(at) => push_number(b"damaged, by the digest at byte ", at, out),
        OpeningFault::Wrong(at, field) => push_wrong(at, field, out),
    }
}

/// Appends the line of an opening file that is refused.
pub(crate) fn push_opening_line(
    name: &str,
    fault: OpeningFault,
    out: &mut Vec<u8>,
) -> Result<(), AllocError>
    ensures { OnOk result (out.new.items ≡ out.old.items ++ opening_line name.now fault) }
{
    out.extend_from_slice(b"opening refused ")?;
    out.extend_from_slice(name.as_bytes())?;
    out.extend_from_slice(b": ")?;
    push_opening_text(fault, out)?;
    out.extend_from_slice(b"\n")
}

/// Appends a name, and what is wrong with the file.
pub fn push_named(name: &str, what: &[u8], out: &mut Vec<u8>) -> Result<(), AllocError>
    ensures { OnOk result (out.new.items ≡ out.old.items ++ (name.now ++ what.now)) }
{
    out.extend_from_slice(name.as_bytes())?;
    out.extend_from_slice(what)
}

/// Appends the line of an opening file that isn't like the others.
fn push_differing(
    names: &[String],
    place: usize,
    how: Differing,
    out: &mut Vec<u8>,
) -> Result<(), AllocError>
    ensures { OnOk result (out.new.items ≡ out.old.items ++ differing_line (map string_bytes names.now) place how) }
{
    let name = name_of(names, place);
    match how {
        Differing::Generation => push_named(name, b" is of another generation\n", out),
        Differing::Size => push_other(name, out),
        Differing::Map => push_named(name, b" has another map than the first opening\n", out),
    }
}

/// Appends the line of a fault of the files with these names.
pub(crate) fn push_generation_refusal(
    names: &GenerationNames,
    fault: GenerationFault,
    out: &mut Vec<u8>,
) -> Result<(), AllocError>
    ensures { OnOk result (out.new.items ≡ out.old.items ++ generation_line (map string_bytes names.now.openings.items) (map string_bytes names.now.logs.items) (map string_bytes names.now.receipts.items) fault) }
{
    match fault {
        GenerationFault::NoLog => out.extend_from_slice(b"no log\n"),
        GenerationFault::Opening(place, fault) => {
            push_opening_line(name_of(&names.openings, place), fault, out)
        }
        GenerationFault::Other(place, how) => push_differing(&names.openings, place, how, out),
        GenerationFault::LogSize(place) => push_other(name_of(&names.logs, place), out),
        GenerationFault::Assemble(fault) => push_refusal(&names.logs, &names.receipts, fault, out),
    }
}

/// Appends the line of a file that a folder lacks.
pub(crate) fn push_missing(name: &str, out: &mut Vec<u8>) -> Result<(), AllocError>
    ensures { OnOk result (out.new.items ≡ out.old.items ++ missing_line name.now) }
{
    push_named(
        name,
        b" is missing: a generation in which a machine's log is gone can't be audited whole; a chain begins behind it\n",
        out,
    )
}
