//! `.file` with a number (GNU as manual, ".file").

ghost use Rattle.std.specs.Prelude.{◌≡◌, map};
ghost use Rattle.asm_base.specs.Refusals.{Returns};
ghost use Rattle.asm_base.specs.Tokens.{spelled};
ghost use Rattle.asm_expr.specs.Trees.{tree_of};
ghost use Rattle.asm_values.specs.PlacedBy.{placed_by, PlacesBy};
ghost use Rattle.asm_values.specs.State.{known_here};
ghost use Rattle.asm_line_tables.specs.Constants.{place_file_number};
ghost use Rattle.asm_line_tables.specs.Placing as spec;

use crate::constants::front_number;
use crate::parts::cut;
use crate::reading::{FilePaths, paths_of};
use crate::taking::take_file;
use crate::values::below;
use asm_base::{Pos, Token};
use asm_expr::Expr;
use asm_operands::{PlaceFault, constant_in, expression_of};
use asm_uses::{Naming, form_in};
use asm_values::Assembler;

/// A number that is 0 to 65,535.
fn checked_number(value: u64) -> Result<u32, PlaceFault>
    ensures { Returns result (spec.checked_number value) }
{
    match below(1 << 16, value) {
        Ok(number) => Ok(number),
        Err(cause) => Err(PlaceFault::Fault(cause)),
    }
}

/// The number that an expression is, whose names have symbols.
fn file_number(assembler: &Assembler, expr: &Expr) -> Result<u32, PlaceFault>
    ensures { Returns result
        (spec.file_number (known_here (placed_by assembler.now)) (tree_of expr.now)) }
{
    let form = form_in(assembler.alloc, assembler.view(), expr)?;
    let value = constant_in(&form)?;
    checked_number(value)
}

/// `.file` with a number that is any expression.
#[inline(never)]
#[tactic(auto, unfolding(crate::specs::Placing::place_numbered_file, crate::specs::Words::file_words, asm_uses::specs::Tables::with_trees, asm_uses::specs::Tables::are_meant))]
fn place_any_file(assembler: &mut Assembler, pos: Pos, tokens: &[Token]) -> Result<(), PlaceFault>
    ensures placed { PlacesBy (spec.place_numbered_file pos (map spelled tokens.now))
        assembler.old assembler.new result }
    ensures kept { assembler.new.notes ≡ assembler.old.notes }
{
    let alloc = assembler.alloc;
    let parts = cut(tokens);
    let expr = expression_of(alloc, parts.front)?;
    let FilePaths { directory, name } = paths_of(alloc, parts.behind)?;
    let before = assembler.table.symbols().len();
    let meant = assembler.table.intern_tree(pos, &expr)?;
    let number = file_number(assembler, &expr)?;
    take_file(
        assembler,
        Naming { before, meant },
        pos,
        number,
        directory,
        name,
    )
}

/// `.file` with this number, and these tokens behind it.
fn place_file_number(
    assembler: &mut Assembler,
    pos: Pos,
    value: u64,
    behind: &[Token],
) -> Result<(), PlaceFault>
    ensures placed { PlacesBy (place_file_number pos value (map spelled behind.now))
        assembler.old assembler.new result }
    ensures kept { assembler.new.notes ≡ assembler.old.notes }
{
    let FilePaths { directory, name } = paths_of(assembler.alloc, behind)?;
    let number = checked_number(value)?;
    let naming = Naming {
        before: assembler.table.symbols().len(),
        meant: true,
    };
    take_file(assembler, naming, pos, number, directory, name)
}

/// `.file` with a number: most numbers need no tree.
pub fn place_numbered_file(
    assembler: &mut Assembler,
    pos: Pos,
    tokens: &[Token],
) -> Result<(), PlaceFault>
    ensures placed { PlacesBy (spec.place_numbered_file pos (map spelled tokens.now))
        assembler.old assembler.new result }
    ensures kept { assembler.new.notes ≡ assembler.old.notes }
{
    match front_number(tokens) {
        Some(found) => place_file_number(assembler, pos, found.value, found.behind),
        None => place_any_file(assembler, pos, tokens),
    }
}
