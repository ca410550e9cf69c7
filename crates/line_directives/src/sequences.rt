//! The rows of a section.

ghost use Rattle.std.specs.Prelude.{◌≡◌, Some, OnOk};
ghost use Rattle.line_directives.specs.Sequences as spec;

use asm_base::Place;
use line_rows::{Distance, LineRow, SectionRows};
use std::alloc::{AllocError, Global};

/// How far a place is from one before it.
fn distance_to(last: Place, place: Place) -> Distance
    ensures { result ≡ spec.distance_to last place }
{
    if last.item == place.item && last.offset <= place.offset {
        Distance::Known(place.offset - last.offset)
    } else {
        Distance::Between(last, place)
    }
}

/// The rows of a section: those of a sequence of the table (DWARF 5, section 6.2.5).
#[derive(Drop)]
pub struct Sequence {
    /// The place of the first row.
    pub start: Place,
    /// The place of the last one.
    pub last: Place,
    /// The last row.
    pub row: LineRow,
    /// The rows as bytes.
    pub rows: SectionRows,
}

impl Sequence {
    ghost use Rattle.std.specs.Prelude.{◌≡◌, Some, OnOk};
    ghost use Rattle.line_directives.specs.Sequences.{with_row_at};

    /// Puts a row last.
    fn add(&mut self, row: &LineRow, place: Place) -> Result<(), AllocError>
        ensures { OnOk result (self.new ≡ with_row_at place row.now (Some self.old)) }
    {
        self.rows.row(row, distance_to(self.last, place))?;
        self.last = place;
        self.row = *row;
        Ok(())
    }
}

/// Puts a row last among those of a section, of which it may be the first.
pub(crate) fn add_row(
    sequence: &mut Option<Sequence>,
    alloc: Global,
    row: &LineRow,
    place: Place,
) -> Result<(), AllocError>
    ensures { OnOk result (sequence.new ≡ Some (spec.with_row_at place row.now sequence.old)) }
{
    match sequence {
        Some(sequence) => sequence.add(row, place),
        None => {
            let rows = SectionRows::begin(alloc, row)?;
            *sequence = Some(Sequence {
                start: place,
                last: place,
                row: *row,
                rows,
            });
            Ok(())
        }
    }
}
