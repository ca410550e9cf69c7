//! The operands of `.cfi_` directives that are registers (GNU as manual, "CFI directives").

ghost use Rattle.std.specs.Prelude.{◌≡◌, map};
ghost use Rattle.asm_base.specs.Refusals.{GivesBy, Returns};
ghost use Rattle.asm_base.specs.Tokens.{spelled};
ghost use Rattle.asm_expr.specs.Trees.{tree_of};
ghost use Rattle.asm_operands.specs.OperandParts.{operands_left, Takes};
ghost use Rattle.asm_operands.specs.Operands.{each};
ghost use Rattle.asm_values.specs.State.{known_here};
ghost use Rattle.asm_values.specs.PlacedBy.{placed_by};
ghost use Rattle.asm_frames.specs.Operands as spec;

use crate::registers::{number_of, register_numbered};
use asm_base::Token;
use asm_expr::{Expr, ExprFault, known_value, names_of};
use asm_operands::{
    Operands, PlaceCause, PlaceFault, constant_operand, expression_of, is_mark, no_more,
};
use asm_values::Assembler;
use att_operands::{NamedRegister, register_named};
use cfi_directives::DwarfRegister;

/// What a name names as a register, with `%` in front or without.
fn named_in(operand: &[Token]) -> Option<NamedRegister>
    ensures { result ≡ spec.named_in (map spelled operand.now) }
{
    match operand {
        [token] => register_named(token.bytes),
        [mark, token] if is_mark(mark, b'%') => register_named(token.bytes),
        _ => None,
    }
}

/// The value of an expression that names no symbol.
fn unnamed_value(assembler: &Assembler, expr: &Expr) -> Result<u64, PlaceFault>
    ensures { Returns result
        (spec.unnamed_value (known_here (placed_by assembler.now)) (tree_of expr.now)) }
{
    let names = names_of(assembler.alloc, expr).map_err(ExprFault::raise)?;
    if !names.is_empty() {
        return Err(PlaceFault::Fault(PlaceCause::BadOperand));
    }
    match known_value(assembler.alloc, expr, &assembler.view()) {
        Ok(value) => Ok(value),
        Err(ExprFault::Fault(_)) => Err(PlaceFault::Fault(PlaceCause::BadOperand)),
        Err(ExprFault::NoMemory) => Err(PlaceFault::NoMemory),
    }
}

/// The number that an operand of any kind is.
#[inline(never)]
#[tactic(auto, unfolding(crate::specs::Operands::number_in))]
fn any_number(assembler: &Assembler, operand: &[Token]) -> Result<u64, PlaceFault>
    ensures { Returns result
        (spec.number_in (known_here (placed_by assembler.now)) (map spelled operand.now)) }
{
    match expression_of(assembler.alloc, operand) {
        Ok(expr) => unnamed_value(assembler, &expr),
        Err(PlaceFault::Fault(_)) => Err(PlaceFault::Fault(PlaceCause::BadOperand)),
        Err(PlaceFault::NoMemory) => Err(PlaceFault::NoMemory),
    }
}

/// The number that an operand is: that of numbers alone needs no tree.
fn number_in(assembler: &Assembler, operand: &[Token]) -> Result<u64, PlaceFault>
    ensures { Returns result
        (spec.number_in (known_here (placed_by assembler.now)) (map spelled operand.now)) }
{
    match constant_operand(operand) {
        Some(value) => Ok(value),
        None => any_number(assembler, operand),
    }
}

/// The DWARF number of a register.
fn said_number(assembler: &Assembler, operand: &[Token]) -> Result<u64, PlaceFault>
    ensures { let operand = map spelled operand.now in Returns result
        (spec.said_number (known_here (placed_by assembler.now)) operand (spec.named_in operand)) }
{
    match named_in(operand) {
        Some(named) => number_of(named).ok_or(PlaceFault::Fault(PlaceCause::BadOperand)),
        None => number_in(assembler, operand),
    }
}

/// A register: its name, or a number below 64.
#[tactic(auto, unfolding(crate::specs::Operands::register_in))]
pub(crate) fn register_in(
    assembler: &Assembler,
    operand: &[Token],
) -> Result<DwarfRegister, PlaceFault>
    ensures { Returns result
        (spec.register_in (known_here (placed_by assembler.now)) (map spelled operand.now)) }
{
    let number = said_number(assembler, operand)?;
    register_numbered(number).ok_or(PlaceFault::Fault(PlaceCause::BadOperand))
}

/// The register that is the next operand, which has to be there.
pub(crate) fn next_register(
    assembler: &Assembler,
    operands: &mut Operands,
) -> Result<DwarfRegister, PlaceFault>
    ensures { Takes (λ register. register)
        (spec.next_register (known_here (placed_by assembler.now))) operands.old operands.new result }
{
    match operands.next() {
        Some(operand) => register_in(assembler, operand),
        None => Err(PlaceFault::Fault(PlaceCause::BadOperand)),
    }
}

/// One register, and no operand behind it.
pub(crate) fn one_register(
    assembler: &Assembler,
    operands: &mut Operands,
) -> Result<DwarfRegister, PlaceFault>
    ensures { Returns result (spec.one_register (known_here (placed_by assembler.now))
        (operands_left operands.old)) }
{
    let register = next_register(assembler, operands)?;
    no_more(operands, register)
}

/// Two registers, and no operand behind them.
pub(crate) fn two_registers(
    assembler: &Assembler,
    operands: &mut Operands,
) -> Result<(DwarfRegister, DwarfRegister), PlaceFault>
    ensures { Returns result (spec.two_registers (known_here (placed_by assembler.now))
        (operands_left operands.old)) }
{
    let one = next_register(assembler, operands)?;
    let other = next_register(assembler, operands)?;
    no_more(operands, (one, other))
}

/// The registers that operands are.
#[tactic(auto, unfolding(asm_operands::specs::Operands::each, asm_operands::specs::Operands::behind))]
pub(crate) fn registers(
    assembler: &Assembler,
    operands: Operands,
) -> Result<Vec<DwarfRegister>, PlaceFault>
    ensures { GivesBy (λ registers. registers.items) result
        (each (spec.register_in (known_here (placed_by assembler.now)))
        (operands_left operands.entry)) }
{
    let mut registers = Vec::new(assembler.alloc);
    for operand in operands {
        registers.push(register_in(assembler, operand)?)?;
    }
    Ok(registers)
}
