//! In which part of a bundle a field is.

use ep_base::{Noted, ReplicaId, Source};
use ep_bundle::{
    BadField, BundleFault, BundleField, BundleHeader, JournalDialect, field_u8, field_u32,
    read_count, read_draft, read_header, read_receipt, read_run,
};
use std::alloc::Global;

/// How many bytes of a header stand before the number of the opening's keys.
const BEFORE_KEYS: usize = 22;

/// A part of a bundle: words with `#` for each of its numbers.
#[derive(Drop)]
pub(crate) struct Region {
    pub words: &'static [u8],
    pub numbers: [u64; 2],
}

/// In which part of the bundle the field is that its reader refuses: part after part is read again, up to that one.
/// None where memory is refused.
pub(crate) fn region_of(alloc: Global, bytes: &[u8], field: &BadField) -> Option<Region> {
    let mut region = Region {
        words: b"the header",
        numbers: [0, 0],
    };
    let mut source = Noted::new(bytes);
    let passed = match field.name {
        BundleField::PairKeyLength
        | BundleField::PairValueLength
        | BundleField::PairKey
        | BundleField::PairValue => pass_keys(alloc, &mut source, field.at, &mut region),
        _ => pass_parts(alloc, &mut source, &mut region),
    };
    match passed {
        Err(BundleFault::Memory) => None,
        _ => Some(region),
    }
}

/// Reads the keys of the opening, up to the one that has this place.
fn pass_keys<S: Source>(
    alloc: Global,
    source: &mut S,
    at: u64,
    region: &mut Region,
) -> Result<(), BundleFault> {
    let mut place = 0;
    read_run(alloc, source, &mut place, BundleField::Other, BEFORE_KEYS)?;
    let keys = field_u32(source, &mut place, BundleField::Keys, 0, u32::MAX)?;
    for key in 0..keys {
        if place > at {
            return Ok(());
        }
        region.words = b"the opening, key #";
        region.numbers = [u64::from(key).saturating_add(1), 0];
        pass_key(alloc, source, &mut place)?;
    }
    Ok(())
}

/// Reads a key of the opening, with its value.
fn pass_key<S: Source>(alloc: Global, source: &mut S, place: &mut u64) -> Result<(), BundleFault> {
    let key = field_u8(source, place, BundleField::PairKeyLength, 0, u8::MAX)?;
    let value = field_u32(source, place, BundleField::PairValueLength, 0, 65_535)?;
    read_run(alloc, source, place, BundleField::PairKey, key as usize)?;
    read_run(alloc, source, place, BundleField::PairValue, value as usize)?;
    Ok(())
}

/// Reads the header, the journals and the receipts.
fn pass_parts<S: Source>(
    alloc: Global,
    source: &mut S,
    region: &mut Region,
) -> Result<(), BundleFault> {
    let mut place = 0;
    let header = read_header(alloc, source, &mut place)?;
    let passed = pass_journals(alloc, source, &mut place, &header, region);
    let reported = match passed {
        Ok(()) => pass_receipts(alloc, source, &mut place, &header, region),
        Err(fault) => Err(fault),
    };
    drop(header);
    reported
}

/// Reads the journals, without a step.
fn pass_journals<S: Source>(
    alloc: Global,
    source: &mut S,
    place: &mut u64,
    header: &BundleHeader,
    region: &mut Region,
) -> Result<(), BundleFault> {
    for index in 0..header.cluster.count() {
        let Ok(me) = ReplicaId::new(index) else {
            return Ok(());
        };
        let dialect = JournalDialect {
            version: header.version,
            size: header.cluster,
            me,
        };
        pass_journal(alloc, source, place, &dialect, region)?;
    }
    Ok(())
}

fn pass_journal<S: Source>(
    alloc: Global,
    source: &mut S,
    place: &mut u64,
    dialect: &JournalDialect,
    region: &mut Region,
) -> Result<(), BundleFault> {
    let replica = u64::from(dialect.me.index());
    region.words = b"the journal of replica #";
    region.numbers = [replica, 0];
    let count = read_count(source, place, dialect.me)?;
    for entry in 0..count {
        region.words = b"the journal of replica # entry #";
        region.numbers = [replica, u64::from(entry).saturating_add(1)];
        let draft = read_draft(alloc, source, place, dialect)?;
        drop(draft);
    }
    Ok(())
}

fn pass_receipts<S: Source>(
    alloc: Global,
    source: &mut S,
    place: &mut u64,
    header: &BundleHeader,
    region: &mut Region,
) -> Result<(), BundleFault> {
    for receipt in 0..header.receipts {
        region.words = b"receipt #";
        region.numbers = [u64::from(receipt).saturating_add(1), 0];
        let read = read_receipt(alloc, source, place, header.version, header.cluster)?;
        drop(read);
    }
    Ok(())
}
