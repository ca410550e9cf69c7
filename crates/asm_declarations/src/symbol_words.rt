//! What directives say of symbols (GNU as manual, ".globl", ".weak", ".local", ".hidden", ".protected", ".internal", ".type").

ghost use Rattle.std.specs.Prelude.{◌≡◌, map};
ghost use Rattle.asm_base.specs.Tokens.{spelled};
ghost use Rattle.asm_base.specs.Refusals.{Gives};
ghost use Rattle.asm_declarations.specs.SymbolWords.{place_said, place_type};
ghost use Rattle.asm_declarations.specs.BareNames.{say_name};
ghost use Rattle.asm_values.specs.PlacedBy.{placed_by, PlacesBy};

use asm_base::{Pos, Token};
use asm_operands::{
    Operands, PlaceCause, PlaceFault, begins_with_place, has_dot, lone_name, names,
};
use asm_symbols::SymbolAttribute;
use asm_values::Assembler;
use asm_words::{bare_kind, named_kind};

/// This is said of the symbol of the name, unless a symbol is named by `.`.
#[inline(always)]
fn say_name(
    assembler: &mut Assembler,
    pos: Pos,
    attribute: SymbolAttribute,
    name: &[u8],
    dot: bool,
) -> Result<(), PlaceFault>
    ensures placed { PlacesBy (say_name pos attribute name.now dot) assembler.old assembler.new result }
    ensures kept { assembler.new.notes ≡ assembler.old.notes }
{
    assembler.table.say_text(pos, attribute, name)?;
    assembler.unless_dot(dot)
}

/// `.globl` and the others, with a name at least: one name needs no list.
pub fn place_said(
    assembler: &mut Assembler,
    pos: Pos,
    attribute: SymbolAttribute,
    tokens: &[Token],
) -> Result<(), PlaceFault>
    ensures placed { PlacesBy (place_said pos attribute (map spelled tokens.now))
        assembler.old assembler.new result }
    ensures kept { assembler.new.notes ≡ assembler.old.notes }
{
    match lone_name(tokens) {
        Some(name) => say_name(assembler, pos, attribute, name, has_dot(tokens)),
        None => place_any_said(assembler, pos, attribute, tokens),
    }
}

/// `.globl` and the others, of any operands.
#[inline(never)]
#[tactic(auto, unfolding(crate::specs::SymbolWords::place_said))]
fn place_any_said(
    assembler: &mut Assembler,
    pos: Pos,
    attribute: SymbolAttribute,
    tokens: &[Token],
) -> Result<(), PlaceFault>
    ensures placed { PlacesBy (place_said pos attribute (map spelled tokens.now))
        assembler.old assembler.new result }
    ensures kept { assembler.new.notes ≡ assembler.old.notes }
{
    if tokens.is_empty() {
        return Err(PlaceFault::Fault(PlaceCause::BadOperand));
    }
    let names = names(assembler.alloc, Operands::new(tokens))?;
    assembler.table.say_all(pos, attribute, &names)?;
    assembler.unless_dot(has_dot(tokens))
}

/// `.type`
#[tactic(auto, unfolding(crate::specs::SymbolWords::place_type, asm_uses::specs::Tables::symbol_of))]
pub fn place_type(assembler: &mut Assembler, pos: Pos, tokens: &[Token]) -> Result<(), PlaceFault>
    ensures placed { PlacesBy (place_type pos (map spelled tokens.now))
        assembler.old assembler.new result }
    ensures kept { assembler.new.notes ≡ assembler.old.notes }
{
    match bare_kind(tokens) {
        Some(words) => {
            let id = assembler.table.symbol_of_text(pos, words.name)?;
            assembler.table.set_kind(id, words.kind)?;
            assembler.unless_dot(begins_with_place(tokens))
        }
        None => place_any_type(assembler, pos, tokens),
    }
}

/// `.type` of any operands.
#[inline(never)]
#[tactic(auto, unfolding(crate::specs::SymbolWords::place_type, asm_uses::specs::Tables::symbol_of))]
fn place_any_type(assembler: &mut Assembler, pos: Pos, tokens: &[Token]) -> Result<(), PlaceFault>
    ensures placed { PlacesBy (place_type pos (map spelled tokens.now))
        assembler.old assembler.new result }
    ensures kept { assembler.new.notes ≡ assembler.old.notes }
{
    let words = named_kind(assembler.alloc, &mut Operands::new(tokens))?;
    let id = assembler.table.symbol_of(pos, &words.name)?;
    assembler.table.set_kind(id, words.kind)?;
    assembler.unless_dot(begins_with_place(tokens))
}
