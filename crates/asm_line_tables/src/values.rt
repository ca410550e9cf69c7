//! The values of a `.loc`, each in its range.

ghost use Rattle.std.specs.Prelude.{◌≡◌, ◌≤◌, ◌^◌};
ghost use Rattle.asm_base.specs.Refusals.{Returns};
ghost use Rattle.asm_line_tables.specs.Numbers as spec;
ghost use Rattle.asm_line_tables.specs.Words.{no_marks, with_mark};

use crate::words::{LocMark, LocMarks, LocNumbers, LocValue};
use asm_operands::{PlaceCause, PlaceFault};
use line_directives::LocLine;

/// No mark stands.
#[inline(always)]
pub(crate) fn no_marks() -> LocMarks
    ensures { result ≡ no_marks }
{
    LocMarks {
        basic_block: false,
        prologue_end: false,
        epilogue_begin: false,
    }
}

/// The marks with one more.
#[inline(always)]
pub(crate) fn with_mark(mark: LocMark, marks: LocMarks) -> LocMarks
    ensures { result ≡ with_mark mark marks }
{
    match mark {
        LocMark::BasicBlock => LocMarks {
            basic_block: true,
            ..marks
        },
        LocMark::PrologueEnd => LocMarks {
            prologue_end: true,
            ..marks
        },
        LocMark::EpilogueBegin => LocMarks {
            epilogue_begin: true,
            ..marks
        },
    }
}

/// Nothing is said.
#[inline(always)]
pub(crate) fn no_numbers() -> LocNumbers
    ensures { result ≡ spec.no_numbers }
{
    LocNumbers {
        file: 0,
        line: 0,
        column: 0,
        is_stmt: None,
        isa: None,
        discriminator: 0,
    }
}

/// A number below this bound.
#[inline(always)]
pub(crate) fn below(bound: u64, value: u64) -> Result<u32, PlaceCause>
    requires { bound ≤ 2 ^ 31 }
    ensures { result ≡ spec.below bound value }
{
    if value < bound {
        Ok(value as u32)
    } else {
        Err(PlaceCause::OutOfRange)
    }
}

/// The numbers with a value more, which has to be in its range.
#[inline(always)]
pub(crate) fn with_number(
    kind: LocValue,
    value: u64,
    numbers: LocNumbers,
) -> Result<LocNumbers, PlaceCause>
    ensures { result ≡ spec.with_number kind value numbers }
{
    match kind {
        LocValue::File => {
            let file = below(1 << 16, value)?;
            Ok(LocNumbers { file, ..numbers })
        }
        LocValue::Line => {
            let line = below(1 << 31, value)?;
            Ok(LocNumbers { line, ..numbers })
        }
        LocValue::Column => {
            let column = below(1 << 31, value)?;
            Ok(LocNumbers { column, ..numbers })
        }
        LocValue::IsStmt => {
            let is_stmt = Some(below(2, value)? == 1);
            Ok(LocNumbers { is_stmt, ..numbers })
        }
        LocValue::Isa => {
            let isa = Some(below(1 << 31, value)?);
            Ok(LocNumbers { isa, ..numbers })
        }
        LocValue::Discriminator => {
            let discriminator = below(1 << 31, value)?;
            Ok(LocNumbers {
                discriminator,
                ..numbers
            })
        }
    }
}

/// The numbers that values are, one after the other.
pub(crate) fn with_numbers(kinds: &[LocValue], values: &[u64]) -> Result<LocNumbers, PlaceFault>
    ensures { Returns result (spec.with_numbers kinds.now values.now spec.no_numbers) }
{
    let mut numbers = no_numbers();
    for (index, kind) in kinds.iter().enumerate() {
        let Some(value) = values.get(index) else {
            return Ok(numbers);
        };
        match with_number(*kind, *value, numbers) {
            Ok(more) => numbers = more,
            Err(cause) => return Err(PlaceFault::Fault(cause)),
        }
    }
    Ok(numbers)
}

/// The row that is meant.
#[inline(always)]
pub(crate) fn loc_line(numbers: LocNumbers, marks: LocMarks) -> LocLine
    ensures { result ≡ spec.loc_line numbers marks }
{
    LocLine {
        file: numbers.file,
        line: numbers.line,
        column: numbers.column,
        is_stmt: numbers.is_stmt,
        isa: numbers.isa,
        discriminator: numbers.discriminator,
        basic_block: marks.basic_block,
        prologue_end: marks.prologue_end,
        epilogue_begin: marks.epilogue_begin,
    }
}
