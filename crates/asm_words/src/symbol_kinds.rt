//! The kinds of symbols (GNU as manual, ".type"), and operands that are a name and a kind.

ghost use Rattle.std.specs.Prelude.{map, Ok};
ghost use Rattle.asm_base.specs.Tokens.{spelled};
ghost use Rattle.asm_base.specs.Refusals.{GivesBy, Returns};
ghost use Rattle.asm_operands.specs.OperandParts.{operands_left, Takes};
ghost use Rattle.asm_operands.specs.Operands.{needed};
ghost use Rattle.asm_words.specs.SymbolKinds as spec;
ghost use Rattle.asm_words.specs.SymbolKinds.{FindsKind, FindsBareKind};

use crate::section_operands::begins_type;
use asm_base::Token;
use asm_expr::Name;
use asm_operands::{Operands, PlaceCause, PlaceFault, bare_name, is_name, needed_name, no_more};
use asm_symbols::Kind;
use std::alloc::Global;

/// The kind of a symbol by its word (gABI, chapter 4, "Symbol Table").
#[tactic(auto, unfolding(crate::specs::SymbolKinds::kind_named))]
fn kind_named(word: &[u8]) -> Result<Kind, PlaceFault>
    ensures { GivesBy (λ kind. kind) result (spec.kind_named word.now) }
{
    if word == b"function".as_slice() {
        Ok(Kind::Function)
    } else if word == b"object".as_slice() {
        Ok(Kind::Object)
    } else if word == b"notype".as_slice() {
        Ok(Kind::NoType)
    } else if word == b"tls_object".as_slice() {
        Ok(Kind::Tls)
    } else if word == b"common".as_slice() {
        Ok(Kind::Common)
    } else {
        Err(PlaceFault::Fault(PlaceCause::BadOperand))
    }
}

/// A kind behind `@` or `%`.
#[tactic(auto, unfolding(crate::specs::SymbolKinds::kind_of))]
fn kind_of(operand: &[Token]) -> Result<Kind, PlaceFault>
    ensures { GivesBy (λ kind. kind) result (spec.kind_of (map spelled operand.now)) }
{
    match operand {
        [mark, word] if begins_type(mark) && is_name(word) => kind_named(word.bytes),
        _ => Err(PlaceFault::Fault(PlaceCause::BadOperand)),
    }
}

/// The next operand, which has to be a kind.
fn needed_kind(operands: &mut Operands) -> Result<Kind, PlaceFault>
    ensures { Takes (λ kind. kind) (needed spec.kind_of) operands.old operands.new result }
{
    match operands.next() {
        Some(operand) => kind_of(operand),
        None => Err(PlaceFault::Fault(PlaceCause::BadOperand)),
    }
}

/// A name and a kind.
#[derive(Drop)]
pub struct NamedKind {
    pub name: Name,
    pub kind: Kind,
}

/// Operands that have to be a name and a kind.
#[tactic(auto, unfolding(crate::specs::SymbolKinds::named_kind))]
pub fn named_kind(alloc: Global, operands: &mut Operands) -> Result<NamedKind, PlaceFault>
    ensures { Returns result (spec.named_kind (operands_left operands.old)) }
{
    let name = needed_name(alloc, operands)?;
    let kind = needed_kind(operands)?;
    no_more(
        operands,
        NamedKind {
            name: Name::Plain(name),
            kind,
        },
    )
}

/// A name without quotes and a kind.
#[derive(Clone, Copy)]
pub struct BareKind<'a> {
    pub name: &'a [u8],
    pub kind: Kind,
}

/// The kind that an operand is. None says nothing of the operand.
#[inline(always)]
fn kind_found(operand: &[Token]) -> Option<Kind>
    ensures { FindsKind (map spelled operand.now) result }
{
    kind_of(operand).ok()
}

/// The name without quotes and the kind that two operands are. None says nothing of the operands.
#[inline(always)]
pub fn bare_kind<'a>(tokens: &[Token<'a>]) -> Option<BareKind<'a>>
    ensures { FindsBareKind (map spelled tokens.now) result }
{
    let mut operands = Operands::new(tokens);
    let name = bare_name(operands.next()?)?;
    let kind = kind_found(operands.next()?)?;
    match operands.next() {
        None => Some(BareKind { name, kind }),
        Some(_) => None,
    }
}
