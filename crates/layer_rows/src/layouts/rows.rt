//! From the items of a case to its rows.

use crate::layouts::items::{Item, LabelName};
use crate::layouts::labels::{Labels, Place};
use asm_levels::{Distance, PackedRow, Row, RowSize};
use std::alloc::{AllocError, Global};

/// How far the end is behind the start.
fn distance(end: Place, start: Place, less: u64) -> Distance {
    Distance::Between {
        number: end.offset.wrapping_sub(start.offset).wrapping_sub(less),
        ahead: end.row,
        behind: start.row,
    }
}

/// The distance between two labels.
fn span(labels: &Labels, end: LabelName, start: LabelName) -> Option<Distance> {
    Some(distance(labels.place(end)?, labels.place(start)?, 0))
}

/// What the size of the item's row depends on. Plain bytes and labels have no row.
fn size_of(item: &Item, here: Place, labels: &Labels) -> Option<RowSize> {
    match *item {
        Item::Bytes(_) | Item::Label(_) => None,
        Item::Jump {
            conditional,
            target,
        } => {
            // A distance counts from the end of the short form, of two bytes.
            let distance = distance(labels.place(target)?, here, 2);
            Some(RowSize::Jump {
                conditional,
                distance,
            })
        }
        Item::Leb128 { signed, end, start } => {
            let distance = span(labels, end, start)?;
            Some(RowSize::Leb128 { signed, distance })
        }
        Item::Advance { end, start } => {
            let distance = span(labels, end, start)?;
            Some(RowSize::Advance { distance })
        }
        Item::Align { log, most } => Some(RowSize::Align { log, most }),
        Item::Org { label, bytes } => {
            let Place { row, offset } = labels.place(label)?;
            Some(RowSize::Org {
                from: row,
                ahead: offset.checked_add(bytes)?,
                behind: 0,
            })
        }
        Item::Section => Some(RowSize::End),
    }
}

/// Appends the row of an item that has one. Answers whether it names labels that are there.
fn push_row(
    alloc: Global,
    item: &Item,
    here: Place,
    labels: &mut Labels,
    rows: &mut Vec<PackedRow>,
) -> Result<bool, AllocError> {
    match item {
        Item::Bytes(_) => return Ok(true),
        Item::Label(_) => {
            labels.pass();
            return Ok(true);
        }
        _ => {}
    }
    let Some(size) = size_of(item, here, labels) else {
        return Ok(false);
    };
    let offset = here.offset;
    rows.push(PackedRow::new(alloc, Row { offset, size })?)?;
    Ok(true)
}

/// The rows of the items, with the end mark of the last section; none where a label is missing.
pub fn rows_of(alloc: Global, items: &[Item]) -> Result<Option<Vec<PackedRow>>, AllocError> {
    let Some(mut labels) = Labels::of(alloc, items)? else {
        return Ok(None);
    };
    let mut rows = Vec::new(alloc);
    let mut here = Place::first();
    for item in items {
        if !push_row(alloc, item, here, &mut labels, &mut rows)? {
            return Ok(None);
        }
        here = match here.behind(item) {
            Some(here) => here,
            None => return Ok(None),
        };
    }
    let offset = here.offset;
    let end = Row {
        offset,
        size: RowSize::End,
    };
    rows.push(PackedRow::new(alloc, end)?)?;
    Ok(Some(rows))
}
