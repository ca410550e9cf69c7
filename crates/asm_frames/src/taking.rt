//! Directives taken where they stand, and the faults of that.

ghost use Rattle.std.specs.Prelude.{◌≡◌};
ghost use Rattle.asm_base.specs.Refusals.{Fails};
ghost use Rattle.asm_uses.specs.Tables.{allowed};
ghost use Rattle.asm_values.specs.PlacedBy.{PlacesBy};
ghost use Rattle.asm_frames.specs.Placing as spec;

use asm_operands::{PlaceCause, PlaceFault};
use asm_uses::{Naming, SymbolUses};
use asm_values::Assembler;
use cfi_directives::{CfiCause, CfiFault, CfiLine};

/// The fault of a directive as one of placing.
fn frame_fault(cause: CfiCause) -> PlaceCause
    ensures { result ≡ spec.frame_fault cause }
{
    match cause {
        CfiCause::OutOfRange => PlaceCause::OutOfRange,
        CfiCause::CfiOutsideProcedure => PlaceCause::CfiOutsideProcedure,
        CfiCause::UnbalancedCfiState => PlaceCause::UnbalancedCfiState,
    }
}

/// The fault of a directive: that of its number comes before those of the names of its operands.
#[inline(never)]
fn refused_by(table: &SymbolUses, naming: Naming, cause: CfiCause) -> PlaceFault
    ensures { Fails result (spec.refused_by cause (allowed naming table.now)) }
{
    if matches!(cause, CfiCause::OutOfRange) {
        return PlaceFault::Fault(PlaceCause::OutOfRange);
    }
    match table.allow(naming) {
        Ok(()) => PlaceFault::Fault(frame_fault(cause)),
        Err(fault) => fault,
    }
}

/// Takes a directive, and then allows or refuses the names of its operands.
#[tactic(auto, unfolding(crate::specs::Placing::take_named))]
pub(crate) fn take_named(
    assembler: &mut Assembler,
    naming: Naming,
    line: CfiLine,
) -> Result<(), PlaceFault>
    ensures placed { PlacesBy (spec.take_named naming line) assembler.old assembler.new result }
    ensures kept { assembler.new.notes ≡ assembler.old.notes }
{
    let at = assembler.here().place;
    match assembler.procedures.take(line, at) {
        Ok(()) => assembler.table.allow(naming),
        Err(CfiFault::Fault(cause)) => Err(refused_by(&assembler.table, naming, cause)),
        Err(CfiFault::NoMemory) => Err(PlaceFault::NoMemory),
    }
}

/// Takes a directive without expressions.
#[tactic(auto, unfolding(crate::specs::Placing::take_line))]
pub(crate) fn take_line(assembler: &mut Assembler, line: CfiLine) -> Result<(), PlaceFault>
    ensures placed { PlacesBy (spec.take_line line) assembler.old assembler.new result }
    ensures kept { assembler.new.notes ≡ assembler.old.notes }
{
    let at = assembler.here().place;
    match assembler.procedures.take(line, at) {
        Ok(()) => Ok(()),
        Err(CfiFault::Fault(cause)) => Err(PlaceFault::Fault(frame_fault(cause))),
        Err(CfiFault::NoMemory) => Err(PlaceFault::NoMemory),
    }
}
