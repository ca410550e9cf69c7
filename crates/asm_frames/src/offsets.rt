//! Directives whose last operand is an offset, which has to be known (GNU as manual, "CFI directives").

ghost use Rattle.std.specs.Prelude.{◌≡◌, map};
ghost use Rattle.asm_base.specs.Refusals.{GivesBy};
ghost use Rattle.asm_base.specs.Tokens.{spelled};
ghost use Rattle.asm_operands.specs.OperandParts.{operands_left};
ghost use Rattle.asm_values.specs.KnownOperands.{known_operands};
ghost use Rattle.asm_values.specs.KnownOperandsIn.{known_operands_in};
ghost use Rattle.asm_values.specs.PlacedBy.{placed_by, PlacesBy};
ghost use Rattle.asm_frames.specs.Placing as spec;

use crate::operands::next_register;
use crate::taking::take_named;
use crate::words::{OffsetWord, SlotWord, offset_row, signed, slot_row};
use asm_base::{Pos, Token};
use asm_operands::{Operands, PlaceFault};
use asm_uses::Naming;
use asm_values::{Assembler, KnownOperands, constant_operands};
use cfi_directives::CfiLine;

/// The offset that is the last operand, of any kind.
#[inline(never)]
fn any_offset(
    assembler: &mut Assembler,
    pos: Pos,
    operands: Operands,
) -> Result<KnownOperands, PlaceFault>
    ensures value { GivesBy (known_operands_in (placed_by assembler.new)) result
        (known_operands pos (placed_by assembler.old) 1 (operands_left operands.entry)) }
    ensures kept { assembler.new.notes ≡ assembler.old.notes }
{
    let mut rest = operands;
    assembler.known_operands(pos, 1, &mut rest)
}

/// The offset that is the last operand: numbers alone need no tree.
fn last_offset(
    assembler: &mut Assembler,
    pos: Pos,
    operands: Operands,
) -> Result<KnownOperands, PlaceFault>
    ensures value { GivesBy (known_operands_in (placed_by assembler.new)) result
        (known_operands pos (placed_by assembler.old) 1 (operands_left operands.entry)) }
    ensures kept { assembler.new.notes ≡ assembler.old.notes }
{
    match constant_operands(1, operands) {
        Some(values) => {
            let naming = Naming {
                before: assembler.table.symbols().len(),
                meant: true,
            };
            Ok(KnownOperands { naming, values })
        }
        None => any_offset(assembler, pos, operands),
    }
}

/// A directive of an offset.
#[tactic(auto, unfolding(crate::specs::Placing::place_offset))]
pub(crate) fn place_offset(
    assembler: &mut Assembler,
    word: OffsetWord,
    pos: Pos,
    tokens: &[Token],
) -> Result<(), PlaceFault>
    ensures placed { PlacesBy (spec.place_offset word pos (map spelled tokens.now))
        assembler.old assembler.new result }
    ensures kept { assembler.new.notes ≡ assembler.old.notes }
{
    let given = last_offset(assembler, pos, Operands::new(tokens))?;
    let offset = signed(given.values.first);
    take_named(
        assembler,
        given.naming,
        CfiLine::Row(offset_row(word, offset)),
    )
}

/// A directive of a register and an offset.
#[tactic(auto, unfolding(crate::specs::Placing::place_slot))]
pub(crate) fn place_slot(
    assembler: &mut Assembler,
    word: SlotWord,
    pos: Pos,
    tokens: &[Token],
) -> Result<(), PlaceFault>
    ensures placed { PlacesBy (spec.place_slot word pos (map spelled tokens.now))
        assembler.old assembler.new result }
    ensures kept { assembler.new.notes ≡ assembler.old.notes }
{
    let mut operands = Operands::new(tokens);
    let register = next_register(assembler, &mut operands)?;
    let given = last_offset(assembler, pos, operands)?;
    let offset = signed(given.values.first);
    take_named(
        assembler,
        given.naming,
        CfiLine::Row(slot_row(word, register, offset)),
    )
}
