//! The rows of a section, made into bytes one after another.

ghost use Rattle.std.specs.Prelude.{◌≡◌};
ghost use Rattle.line_rows.specs.Sections as spec;

use crate::rows::{LineRow, Registers, RowBytes};
use crate::writing::push_row;
use asm_base::Place;
use leb128::push_unsigned;
use std::alloc::{AllocError, Global};
use std::marker::Model;

/// How far a row is from the one before it.
#[derive(Clone, Copy, Debug)]
pub enum Distance {
    /// So many bytes.
    Known(u64),
    /// As the layout says, from the one place to the other.
    Between(Place, Place),
}

/// A distance that is not known yet.
#[derive(Clone, Copy, PartialEq, Eq, Debug)]
pub struct Gap {
    /// Before which byte of the rows its bytes are due.
    pub at: usize,
    /// The place of the row before.
    pub from: Place,
    /// The place of the row itself.
    pub to: Place,
}

/// The rows of a section. Contracts see what is made so far.
#[derive(Drop)]
pub struct SectionRows {
    /// Those of all rows, but of the distances in `gaps`.
    bytes: Vec<u8>,
    /// In the order of the bytes.
    gaps: Vec<Gap>,
    /// The registers behind the last row.
    registers: Registers,
}

impl Model for SectionRows {
    ghost use Rattle.line_rows.specs.Sections.{Made};

    ghost Value = { Made };

    ghost view = { λ inside. record { bytes = inside.bytes.items; gaps = inside.gaps.items; registers = inside.registers } };
}

impl SectionRows {
    ghost use Rattle.std.specs.Prelude.{◌≡◌, if◌then◌else◌, is_ok, IfOk};
    ghost use Rattle.line_rows.specs.Sections as spec;

    /// The first row of a section.
    pub fn begin(alloc: Global, row: &LineRow) -> Result<SectionRows, AllocError>
        ensures { IfOk result (λ rows. rows ≡ spec.first_made row.now) }
    {
        let mut made = RowBytes::new();
        push_row(&mut made, &crate::machine::start().row.registers(), row);
        made.push(0x01);
        let mut bytes = Vec::new(alloc);
        bytes.extend_from_slice(&made)?;
        Ok(SectionRows {
            bytes,
            gaps: Vec::new(alloc),
            registers: row.registers(),
        })
    }

    /// A row behind others. Where no memory is found nothing changes.
    pub fn row(&mut self, row: &LineRow, distance: Distance) -> Result<(), AllocError>
        ensures { self.new ≡ (if is_ok result then spec.with_row distance row.now self.old
            else self.old) }
    {
        let mut made = RowBytes::new();
        push_row(&mut made, &self.registers, row);
        made.push(0x02);
        match distance {
            Distance::Known(distance) => {
                push_unsigned(&mut made, distance);
                made.push(0x01);
                self.bytes.extend_from_slice(&made)?;
            }
            Distance::Between(from, to) => {
                let at = self.bytes.len() + made.len();
                self.gaps.push(Gap { at, from, to })?;
                made.push(0x01);
                if let Err(error) = self.bytes.extend_from_slice(&made) {
                    self.gaps.pop();
                    return Err(error);
                }
            }
        }
        self.registers = row.registers();
        Ok(())
    }

    /// The bytes of all rows, but of the distances that are gaps.
    pub fn as_bytes(&self) -> &[u8]
        ensures { result.now ≡ self.now.bytes }
    {
        self.bytes.as_slice()
    }

    /// The gaps, in the order of the bytes.
    pub fn gaps(&self) -> &[Gap]
        ensures { result.now ≡ self.now.gaps }
    {
        self.gaps.as_slice()
    }
}
