//! `.loc` (GNU as manual, ".loc").

ghost use Rattle.std.specs.Prelude.{◌≡◌, map};
ghost use Rattle.asm_base.specs.Refusals.{GivesBy, Returns};
ghost use Rattle.asm_base.specs.Tokens.{spelled};
ghost use Rattle.asm_operands.specs.Expressions.{constant_in};
ghost use Rattle.asm_operands.specs.Operands.{each};
ghost use Rattle.asm_values.specs.PlacedBy.{placed_by, PlacesBy};
ghost use Rattle.asm_values.specs.State.{known_here};
ghost use Rattle.asm_line_tables.specs.Placing as spec;
ghost use Rattle.asm_line_tables.specs.WordsIn.{loc_words_in};

use crate::constants::constant_loc;
use crate::reading::{LocExprs, loc_words};
use crate::taking::take_loc;
use crate::values::{loc_line, with_numbers};
use crate::words::LocNumbers;
use asm_base::{Pos, Token};
use asm_expr::Linear;
use asm_operands::{PlaceFault, constant_in};
use asm_uses::{Naming, forms};
use asm_values::Assembler;
use line_directives::LocLine;
use std::alloc::Global;

/// The values of forms, each of which has to be known.
#[tactic(auto, unfolding(asm_operands::specs::Operands::each, asm_operands::specs::Operands::behind))]
fn constants(alloc: Global, forms: &[Linear]) -> Result<Vec<u64>, PlaceFault>
    ensures { GivesBy (λ values. values.items) result (each constant_in forms.now) }
{
    let mut values = Vec::new(alloc);
    for form in forms {
        values.push(constant_in(form)?)?;
    }
    Ok(values)
}

/// The numbers that expressions are, whose names have symbols: the forms of all are made before a value is asked for.
#[tactic(auto, unfolding(crate::specs::Placing::known_numbers))]
fn known_numbers(assembler: &Assembler, words: &LocExprs) -> Result<LocNumbers, PlaceFault>
    ensures { Returns result
        (spec.known_numbers (known_here (placed_by assembler.now)) (loc_words_in words.now)) }
{
    let forms = forms(assembler.alloc, assembler.view(), words.exprs.as_slice())?;
    let values = constants(assembler.alloc, forms.as_slice())?;
    with_numbers(words.kinds.as_slice(), values.as_slice())
}

/// `.loc` of any expressions.
#[inline(never)]
#[tactic(auto, unfolding(crate::specs::Placing::place_loc))]
fn place_any_loc(assembler: &mut Assembler, pos: Pos, tokens: &[Token]) -> Result<(), PlaceFault>
    ensures placed { PlacesBy (spec.place_loc pos (map spelled tokens.now))
        assembler.old assembler.new result }
    ensures kept { assembler.new.notes ≡ assembler.old.notes }
{
    let words = loc_words(assembler.alloc, tokens)?;
    let naming = assembler.table.intern_trees(pos, words.exprs.as_slice())?;
    let numbers = known_numbers(assembler, &words)?;
    take_loc(assembler, naming, loc_line(numbers, words.marks))
}

/// `.loc`: most are of numbers alone, which need no tree.
pub fn place_loc(assembler: &mut Assembler, pos: Pos, tokens: &[Token]) -> Result<(), PlaceFault>
    ensures placed { PlacesBy (spec.place_loc pos (map spelled tokens.now))
        assembler.old assembler.new result }
    ensures kept { assembler.new.notes ≡ assembler.old.notes }
{
    match constant_loc(tokens) {
        Some(line) => {
            let naming = Naming {
                before: assembler.table.symbols().len(),
                meant: true,
            };
            take_loc(assembler, naming, line)
        }
        None => place_any_loc(assembler, pos, tokens),
    }
}
