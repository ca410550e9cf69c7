//! Rows as they are kept: sources of jumps have many, and each round walks over them.

ghost use Rattle.std.specs.Prelude.{◌≡◌, IfOk, IfSome, Some};
ghost use Rattle.asm_levels.specs.declared.distances.Distance.TheVariants.{Between};
ghost use Rattle.asm_levels.specs.Packing.{unpacked};

use crate::distances::Distance;
use crate::needs::top;
use crate::rows::{Row, RowSize};
use asm_base::NoMemory;
use std::alloc::Global;
use std::marker::Model;

/// A row by its kind. The numbers of nearly all rows stand here.
#[derive(Drop)]
pub(crate) enum Held {
    Fixed {
        offset: u32,
        bytes: u64,
    },
    Align {
        log: u8,
        offset: u32,
        most: u64,
    },
    Jump {
        conditional: bool,
        offset: u32,
        ahead: u32,
        behind: u32,
        number: u64,
    },
    Leb128 {
        signed: bool,
        offset: u32,
        ahead: u32,
        behind: u32,
        number: u64,
    },
    Advance {
        offset: u32,
        ahead: u32,
        behind: u32,
        number: u64,
    },
    End {
        offset: u32,
    },
    /// Any other row, in an allocation of its own: an `.org`, a distance that is a sum, or one behind many bytes.
    Other(Box<Row>),
}

/// A row in few bytes.
#[derive(Drop)]
pub struct PackedRow {
    pub(crate) held: Held,
}

const _: () = prove!(size_of::<PackedRow>() <= 24);

impl Model for PackedRow {
    ghost use Rattle.asm_levels.specs.declared.rows.Row.{Row};
    ghost use Rattle.asm_levels.specs.Packing.{unpacked};

    ghost Value = { Row };

    ghost view = { λ row. unpacked row.held };
}

/// The row of this size that stands at this offset, if it takes no allocation.
#[inline(always)]
fn held_in_place(offset: u32, size: &RowSize) -> Option<Held>
    ensures { IfSome result (λ held. unpacked held ≡ record { offset = offset; size = size.now }) }
{
    match size {
        RowSize::Fixed(bytes) => Some(Held::Fixed {
            offset,
            bytes: *bytes,
        }),
        RowSize::Align { log, most } => Some(Held::Align {
            log: *log,
            offset,
            most: *most,
        }),
        RowSize::Jump {
            conditional,
            distance: Distance::Between {
                number,
                ahead,
                behind,
            },
        } => Some(Held::Jump {
            conditional: *conditional,
            offset,
            ahead: *ahead,
            behind: *behind,
            number: *number,
        }),
        RowSize::Leb128 {
            signed,
            distance: Distance::Between {
                number,
                ahead,
                behind,
            },
        } => Some(Held::Leb128 {
            signed: *signed,
            offset,
            ahead: *ahead,
            behind: *behind,
            number: *number,
        }),
        RowSize::Advance {
            distance: Distance::Between {
                number,
                ahead,
                behind,
            },
        } => Some(Held::Advance {
            offset,
            ahead: *ahead,
            behind: *behind,
            number: *number,
        }),
        RowSize::End => Some(Held::End { offset }),
        RowSize::Org { .. }
        | RowSize::Jump { .. }
        | RowSize::Leb128 { .. }
        | RowSize::Advance { .. } => None,
    }
}

/// A row in an allocation of its own.
#[inline(never)]
fn boxed(alloc: Global, row: Row) -> Result<PackedRow, NoMemory>
    ensures { IfOk result (λ made. made ≡ row) }
{
    Ok(PackedRow {
        held: Held::Other(Box::new(alloc, row)?),
    })
}

/// The distance, unless it is a sum.
fn copied_distance(distance: &Distance) -> Option<Distance>
    ensures { IfSome result (λ copied. copied ≡ distance.now) }
{
    match distance {
        Distance::Between {
            number,
            ahead,
            behind,
        } => Some(between(*number, *ahead, *behind)),
        Distance::Sum { .. } => None,
    }
}

/// What the size of a row depends on, unless it is a sum.
fn copied_size(size: &RowSize) -> Option<RowSize>
    ensures { IfSome result (λ copied. copied ≡ size.now) }
{
    match size {
        RowSize::Fixed(bytes) => Some(RowSize::Fixed(*bytes)),
        RowSize::Align { log, most } => Some(RowSize::Align {
            log: *log,
            most: *most,
        }),
        RowSize::Org {
            from,
            ahead,
            behind,
        } => Some(RowSize::Org {
            from: *from,
            ahead: *ahead,
            behind: *behind,
        }),
        RowSize::Jump {
            conditional,
            distance,
        } => Some(RowSize::Jump {
            conditional: *conditional,
            distance: copied_distance(distance)?,
        }),
        RowSize::Leb128 { signed, distance } => Some(RowSize::Leb128 {
            signed: *signed,
            distance: copied_distance(distance)?,
        }),
        RowSize::Advance { distance } => Some(RowSize::Advance {
            distance: copied_distance(distance)?,
        }),
        RowSize::End => Some(RowSize::End),
    }
}

/// A distance between two rows.
fn between(number: u64, ahead: u32, behind: u32) -> Distance
    ensures { result ≡ Between number ahead behind }
{
    Distance::Between {
        number,
        ahead,
        behind,
    }
}

/// A row of this size that stands at this offset.
fn row_at(offset: u32, size: RowSize) -> Option<Row>
    ensures { result ≡ Some (record { offset = offset; size = size }) }
{
    Some(Row {
        offset: u64::from(offset),
        size,
    })
}

/// The row that is held in this way, unless its distance is a sum.
fn unpacked(held: &Held) -> Option<Row>
    ensures { IfSome result (λ row. row ≡ unpacked held.now) }
{
    match held {
        Held::Fixed { offset, bytes } => row_at(*offset, RowSize::Fixed(*bytes)),
        Held::Align { log, offset, most } => row_at(
            *offset,
            RowSize::Align {
                log: *log,
                most: *most,
            },
        ),
        Held::Jump {
            conditional,
            offset,
            ahead,
            behind,
            number,
        } => row_at(
            *offset,
            RowSize::Jump {
                conditional: *conditional,
                distance: between(*number, *ahead, *behind),
            },
        ),
        Held::Leb128 {
            signed,
            offset,
            ahead,
            behind,
            number,
        } => row_at(
            *offset,
            RowSize::Leb128 {
                signed: *signed,
                distance: between(*number, *ahead, *behind),
            },
        ),
        Held::Advance {
            offset,
            ahead,
            behind,
            number,
        } => row_at(
            *offset,
            RowSize::Advance {
                distance: between(*number, *ahead, *behind),
            },
        ),
        Held::End { offset } => row_at(*offset, RowSize::End),
        Held::Other(row) => Some(Row {
            offset: row.offset,
            size: copied_size(&row.size)?,
        }),
    }
}

impl PackedRow {
    ghost use Rattle.std.specs.Prelude.{◌≡◌, IfOk, IfSome};
    ghost use Rattle.asm_levels.specs.Needs.{top};

    /// The row, packed.
    #[inline(always)]
    pub fn new(alloc: Global, row: Row) -> Result<PackedRow, NoMemory>
        ensures { IfOk result (λ made. made ≡ row) }
    {
        if row.offset < 1 << 32 {
            if let Some(held) = held_in_place(row.offset as u32, &row.size) {
                return Ok(PackedRow { held });
            }
        }
        boxed(alloc, row)
    }

    /// The row, unless its distance is a sum.
    pub fn row(&self) -> Option<Row>
        ensures { IfSome result (λ row. row ≡ self.now) }
    {
        unpacked(&self.held)
    }

    /// The number of its levels above the lowest.
    pub fn top(&self) -> u8
        ensures { result ≡ top self.now.size }
    {
        top(self)
    }
}
