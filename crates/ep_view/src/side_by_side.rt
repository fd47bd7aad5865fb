//! The entries of journals side by side, in a column a replica.

ghost use Rattle.std.specs.Prelude.{◌≡◌, ◌++◌, OnOk};
ghost use Rattle.ep_view.specs.Columns.{IsCut, IsFirstRow, row_text};

use crate::editions::push_edition;
use crate::handled::Handled;
use crate::lines::push_happened;
use crate::selection::Selection;
use crate::showing::{push_none_kept, schedule};
use ep_audit::entry_at;
use ep_base::ReplicaId;
use ep_journal::{Entry, Journals};
use ep_report::{Part, push_parts};
use std::alloc::{AllocError, Global};

/// How many bytes wide a column is. There are two spaces between columns, so that three of them take 100.
const WIDTH: usize = 32;

/// What stands between the names of two columns, as `replica 0` is 9 wide.
const GAP: &[u8] = b"                         ";

// Where the first row of a text that is wider than a column ends, and where the next one begins: at the last space that leaves
// the row no wider than the column, or else at the column's end.
fn cut_of(text: &[u8]) -> (usize, usize)
    ensures { IsCut text.now result }
{
    let mut cut = (WIDTH, WIDTH);
    for place in 1..WIDTH + 1 {
        if text.get(place) == Some(&b' ') {
            cut = (place, place + 1);
        }
    }
    cut
}

// The first row of a text, and what is left of it.
fn first_row(text: &[u8]) -> (&[u8], &[u8])
    ensures { IsFirstRow text.now result.0.now result.1.now }
{
    if text.len() <= WIDTH {
        return (text, &[]);
    }
    let (end, next) = cut_of(text);
    (
        text.get(..end).unwrap_or(text),
        text.get(next..).unwrap_or(&[]),
    )
}

// Appends a row in the replica's column.
fn push_row(text: &mut Vec<u8>, replica: u8, row: &[u8]) -> Result<(), AllocError>
    ensures { OnOk result (text.new.items ≡ text.old.items ++ row_text replica row.now) }
{
    for _ in 0..usize::from(replica) * (WIDTH + 2) {
        text.push(b' ')?;
    }
    push_parts(text, &[Part::Text(row), Part::Text(b"\n")])
}

// Appends a text in the replica's column.
fn push_cell(text: &mut Vec<u8>, replica: u8, cell: &[u8]) -> Result<(), AllocError> {
    let mut rest = cell;
    for _ in 0..cell.len() {
        if rest.is_empty() {
            return Ok(());
        }
        let (row, after) = first_row(rest);
        push_row(text, replica, row)?;
        rest = after;
    }
    Ok(())
}

// What is reported of an entry in its replica's column.
fn cell_of(alloc: Global, handled: &Handled, entry: &Entry) -> Result<Vec<u8>, AllocError> {
    let mut cell = Vec::new(alloc);
    push_parts(
        &mut cell,
        &[
            Part::Text(b"stamp "),
            Part::Number(entry.stamp.ticks()),
            Part::Text(b" entry "),
            Part::Number(entry.number as u64),
            Part::Text(b": "),
        ],
    )?;
    push_happened(&mut cell, handled, entry)?;
    Ok(cell)
}

// Appends an entry, if it is asked for.
fn push_kept(
    text: &mut Vec<u8>,
    handled: &Handled,
    part: &Selection,
    replica: ReplicaId,
    entry: &Entry,
) -> Result<(), AllocError> {
    if !part.keeps(replica, entry) {
        return Ok(());
    }
    let cell = cell_of(*text.allocator(), handled, entry)?;
    push_cell(text, replica.index(), &cell)
}

// Appends the entries at these places.
fn push_cells(
    text: &mut Vec<u8>,
    journals: &Journals,
    handled: &Handled,
    part: &Selection,
    places: &[(ReplicaId, u32)],
) -> Result<(), AllocError> {
    journals.are_journals();
    for (replica, number) in places {
        if let Some(entry) = entry_at(journals, *replica, *number) {
            push_kept(text, handled, part, *replica, entry)?;
        }
    }
    Ok(())
}

// Appends the names of as many columns.
fn push_names(text: &mut Vec<u8>, count: u8) -> Result<(), AllocError> {
    for replica in 0..count {
        let gap = if replica > 0 { GAP } else { b"" };
        push_parts(
            text,
            &[
                Part::Text(gap),
                Part::Text(b"replica "),
                Part::Number(replica as u64),
            ],
        )?;
    }
    text.push(b'\n')?;
    Ok(())
}

/// The entries of the journals that the part keeps, as `show` reports them, by stamp and then by replica, each in the column of
/// its replica, or that it keeps none. A column is 32 wide, with two spaces between two: 100 for three replicas. The line of the
/// journals' edition, if there is one, stands first, in no column.
pub fn columns(
    alloc: Global,
    journals: &Journals,
    part: &Selection,
) -> Result<Vec<u8>, AllocError> {
    let handled = Handled::of(alloc, journals)?;
    let reported = reported_in_columns(alloc, journals, &handled, part);
    drop(handled);
    reported
}

fn reported_in_columns(
    alloc: Global,
    journals: &Journals,
    handled: &Handled,
    part: &Selection,
) -> Result<Vec<u8>, AllocError> {
    let places = schedule(alloc, journals)?;
    let mut text = Vec::new(alloc);
    push_edition(&mut text, journals.version(), journals.opening())?;
    push_names(&mut text, journals.size().count())?;
    let names = text.len();
    push_cells(&mut text, journals, handled, part, &places)?;
    if text.len() == names {
        push_none_kept(&mut text, places.len())?;
    }
    Ok(text)
}
