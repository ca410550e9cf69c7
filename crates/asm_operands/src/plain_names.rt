//! Operands that are names and strings.

ghost use Rattle.std.specs.Prelude.{map, option_map, Ok};
ghost use Rattle.asm_base.specs.Tokens.{spelled};
ghost use Rattle.asm_operands.specs.NamedTrees.{FindsBareName, FindsLoneName};
ghost use Rattle.asm_base.specs.Refusals.{GivesBy};
ghost use Rattle.asm_operands.specs.OperandParts.{operands_left, Takes};
ghost use Rattle.asm_operands.specs.Operands.{name_of, string_of, each, needed};
ghost use Rattle.asm_operands.specs.NamedTrees as spec;

use crate::directive_operands::{Operands, is_name, name_of, string_of};
use crate::place_faults::{PlaceCause, PlaceFault};
use asm_base::Token;
use asm_expr::{Name, Spelling};
use std::alloc::Global;

/// The name that an operand is, if it is one without quotes.
#[tactic(auto, unfolding(crate::specs::Operands::name_of, crate::specs::Operands::symbol_name))]
pub fn bare_name<'a>(operand: &[Token<'a>]) -> Option<&'a [u8]>
    ensures { FindsBareName (map spelled operand.now) (option_map (λ name. name.now) result) }
{
    match operand {
        [token] if is_name(token) => Some(token.bytes),
        _ => None,
    }
}

/// The next operand, which has to be the name of a symbol.
pub fn needed_name(alloc: Global, operands: &mut Operands) -> Result<Spelling, PlaceFault>
    ensures { Takes (λ name. name) (needed name_of) operands.old operands.new result }
{
    match operands.next() {
        Some(operand) => name_of(alloc, operand),
        None => Err(PlaceFault::Fault(PlaceCause::BadOperand)),
    }
}

/// The next operand, which has to be a string.
pub fn needed_string(alloc: Global, operands: &mut Operands) -> Result<Vec<u8>, PlaceFault>
    ensures { Takes (λ string. string.items) (needed string_of)
        operands.old operands.new result }
{
    match operands.next() {
        Some(operand) => string_of(alloc, operand),
        None => Err(PlaceFault::Fault(PlaceCause::BadOperand)),
    }
}

/// The name that an operand gives a symbol.
#[tactic(auto, unfolding(crate::specs::NamedTrees::plain_of))]
fn plain_of(alloc: Global, operand: &[Token]) -> Result<Name, PlaceFault>
    ensures { GivesBy (λ name. name) result (spec.plain_of (map spelled operand.now)) }
{
    Ok(Name::Plain(name_of(alloc, operand)?))
}

/// The names that operands give symbols.
#[tactic(auto, unfolding(crate::specs::Operands::each, crate::specs::Operands::behind))]
pub fn names(alloc: Global, operands: Operands) -> Result<Vec<Name>, PlaceFault>
    ensures { GivesBy (λ names. names.items) result
        (each spec.plain_of (operands_left operands.entry)) }
{
    let mut names = Vec::new(alloc);
    for operand in operands {
        names.push(plain_of(alloc, operand)?)?;
    }
    Ok(names)
}

/// The name that the only operand is, if it is one without quotes. None says nothing of the operands.
#[inline(always)]
pub fn lone_name<'a>(tokens: &[Token<'a>]) -> Option<&'a [u8]>
    ensures { FindsLoneName (map spelled tokens.now) (option_map (λ name. name.now) result) }
{
    let mut operands = Operands::new(tokens);
    let name = bare_name(operands.next()?)?;
    match operands.next() {
        None => Some(name),
        Some(_) => None,
    }
}
