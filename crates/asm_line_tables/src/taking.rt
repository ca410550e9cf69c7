//! Directives taken where they stand, and the faults of that.

ghost use Rattle.std.specs.Prelude.{◌≡◌, slice_get};
ghost use Rattle.asm_values.specs.PlacedBy.{placed_by, PlacesBy};
ghost use Rattle.asm_values.specs.State.{here};
ghost use Rattle.asm_line_tables.specs.Placing as spec;

use asm_base::{Bytes, Place, Pos, SectionPlace};
use asm_frags::{SHT_NOBITS, Sections};
use asm_operands::{PlaceCause, PlaceFault};
use asm_uses::Naming;
use asm_values::Assembler;
use line_directives::{LineTableCause, LineTableFault, LocLine};

/// The fault of a directive as one of placing.
fn line_fault(cause: LineTableCause) -> PlaceCause
    ensures { result ≡ spec.line_fault cause }
{
    match cause {
        LineTableCause::UnassignedFileNumber => PlaceCause::UnassignedFileNumber,
        LineTableCause::FileNumberInUse => PlaceCause::FileNumberInUse,
    }
}

/// The place where the next statement puts.
#[inline(always)]
#[tactic(auto, unfolding(asm_uses::specs::Places::spot_at))]
fn place_here(assembler: &Assembler) -> SectionPlace
    ensures { result ≡ (here (placed_by assembler.now)).place }
{
    let number = assembler.current;
    if (number as usize) < assembler.sections.len() {
        let section = assembler.sections.section(number);
        SectionPlace {
            section: number,
            place: Place {
                item: section.items().len() as u64,
                offset: section.bytes().len() as u64,
            },
        }
    } else {
        SectionPlace {
            section: number,
            place: Place { item: 0, offset: 0 },
        }
    }
}

/// Whether a row can stand in the section of this number.
#[inline(always)]
fn takes_rows(sections: &Sections, number: u32) -> bool
    ensures { result ≡ spec.takes_rows (slice_get sections.now number) }
{
    (number as usize) < sections.len() && sections.section(number).kind() != SHT_NOBITS
}

/// Takes a row at the place of the statement, and then allows or refuses the names of its expressions.
#[tactic(auto, unfolding(crate::specs::Placing::take_loc))]
pub(crate) fn take_loc(
    assembler: &mut Assembler,
    naming: Naming,
    line: LocLine,
) -> Result<(), PlaceFault>
    ensures placed { PlacesBy (spec.take_loc naming line) assembler.old assembler.new result }
    ensures kept { assembler.new.notes ≡ assembler.old.notes }
{
    let at = place_here(assembler);
    match assembler.lines.loc(line, at) {
        Ok(()) => {
            if takes_rows(&assembler.sections, assembler.current) {
                assembler.table.allow(naming)
            } else {
                Err(PlaceFault::Fault(PlaceCause::BadSection))
            }
        }
        Err(LineTableFault::Fault(cause)) => Err(PlaceFault::Fault(line_fault(cause))),
        Err(LineTableFault::NoMemory) => Err(PlaceFault::NoMemory),
    }
}

/// Takes a file under a number, and then allows or refuses the names of its expression.
#[tactic(auto, unfolding(crate::specs::Placing::take_file))]
pub(crate) fn take_file(
    assembler: &mut Assembler,
    naming: Naming,
    pos: Pos,
    number: u32,
    directory: Option<Bytes>,
    name: Bytes,
) -> Result<(), PlaceFault>
    ensures placed { PlacesBy (spec.take_file naming pos number directory name)
        assembler.old assembler.new result }
    ensures kept { assembler.new.notes ≡ assembler.old.notes }
{
    match assembler.lines.file(pos, number, directory, name) {
        Ok(()) => assembler.table.allow(naming),
        Err(LineTableFault::Fault(cause)) => Err(PlaceFault::Fault(line_fault(cause))),
        Err(LineTableFault::NoMemory) => Err(PlaceFault::NoMemory),
    }
}
