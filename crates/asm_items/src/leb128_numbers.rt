//! Numbers in groups of seven bits (GNU as manual, ".uleb128", ".sleb128").

ghost use Rattle.std.specs.Prelude.{◌≡◌, [], ◌∷◌, map};
ghost use Rattle.asm_base.specs.Refusals.{GivesBy};
ghost use Rattle.asm_base.specs.Tokens.{spelled};
ghost use Rattle.asm_expr.specs.Trees.{tree_of};
ghost use Rattle.asm_items.specs.Leb128Numbers as spec;
ghost use Rattle.asm_operands.specs.Operands.{operands_of};
ghost use Rattle.asm_operands.specs.Sums.{sum_tree};
ghost use Rattle.asm_values.specs.PlacedBy.{placed_by, PlacesBy};
ghost use Rattle.asm_values.specs.State.{put_bytes};
ghost use Rattle.item_bytes.specs.Leb128.{least_leb128};

use asm_base::{Pos, Token};
use asm_expr::{Expr, Linear};
use asm_operands::{FewSums, Operands, PlaceCause, PlaceFault, Sum, expressions, few_sums};
use asm_uses::{View, forms, one_uses_place, sum_form_in, uses_place};
use asm_values::{Assembler, no_name_is_allowed, only_number, sums_have_the_forms_of_trees};
use item_bytes::least_leb128;
use item_contents::Growth;
use std::alloc::Global;

/// Puts a form: the bytes of a value that is known, or an item that grows with the value.
fn put_number(
    assembler: &mut Assembler,
    pos: Pos,
    signed: bool,
    form: Linear,
) -> Result<(), PlaceFault>
    ensures placed { PlacesBy (spec.put_number pos signed form) assembler.old assembler.new result }
    ensures kept { assembler.new.notes ≡ assembler.old.notes }
{
    if form.terms().is_empty() {
        assembler.put_bytes(pos, least_leb128(signed, form.constant()).as_slice())
    } else {
        assembler.push_growing(pos, Growth::Leb128 { signed }, None, form)
    }
}

/// Puts one form after the other.
#[tactic(auto, unfolding(crate::specs::Leb128Numbers::put_numbers, asm_operands::specs::Results::all_steps))]
fn put_numbers(
    assembler: &mut Assembler,
    pos: Pos,
    signed: bool,
    forms: Vec<Linear>,
) -> Result<(), PlaceFault>
    ensures placed { PlacesBy (spec.put_numbers pos signed forms.items)
        assembler.old assembler.new result }
    ensures kept { assembler.new.notes ≡ assembler.old.notes }
{
    for form in forms {
        put_number(assembler, pos, signed, form)?;
    }
    Ok(())
}

/// The expressions of operands, of which there is at least one.
fn some_expressions(alloc: Global, tokens: &[Token]) -> Result<Vec<Expr>, PlaceFault>
    ensures { GivesBy (λ exprs. map tree_of exprs.items) result
        (spec.some_expressions (operands_of (map spelled tokens.now))) }
{
    if tokens.is_empty() {
        return Err(PlaceFault::Fault(PlaceCause::BadExpression));
    }
    expressions(alloc, Operands::new(tokens))
}

/// Numbers of any operands: all are read before a form is made.
#[inline(never)]
#[tactic(auto, unfolding(crate::specs::Leb128Numbers::place_leb128, crate::specs::Leb128Numbers::put_leb128))]
fn place_any(
    assembler: &mut Assembler,
    pos: Pos,
    signed: bool,
    tokens: &[Token],
) -> Result<(), PlaceFault>
    ensures placed { PlacesBy (spec.place_leb128 pos signed (map spelled tokens.now))
        assembler.old assembler.new result }
    ensures kept { assembler.new.notes ≡ assembler.old.notes }
{
    let exprs = some_expressions(assembler.alloc, tokens)?;
    let naming = assembler.table.intern_trees(pos, &exprs)?;
    let view = assembler.view();
    let forms = forms(assembler.alloc, view, &exprs)?;
    let View { spot, place, .. } = view;
    let keeps = one_uses_place(place, &forms);
    put_numbers(assembler, pos, signed, forms)?;
    assembler.table.end_naming(pos, naming, spot, keeps)
}

/// One number that is a sum, without a tree.
#[tactic(auto, unfolding(crate::specs::Leb128Numbers::put_leb128, crate::specs::Leb128Numbers::put_numbers, asm_operands::specs::Results::all_steps, asm_operands::specs::Operands::each))]
fn place_sum(assembler: &mut Assembler, pos: Pos, signed: bool, sum: &Sum) -> Result<(), PlaceFault>
    ensures placed { PlacesBy (spec.leb128_read pos signed (sum_tree sum.now ∷ []))
        assembler.old assembler.new result }
    ensures kept { assembler.new.notes ≡ assembler.old.notes }
{
    sums_have_the_forms_of_trees();
    let (naming, named) = assembler.table.intern_one(pos, sum)?;
    let view = assembler.view();
    let form = sum_form_in(assembler.alloc, view, &named)?;
    let View { spot, place, .. } = view;
    let keeps = uses_place(place, &form);
    put_number(assembler, pos, signed, form)?;
    assembler.table.end_naming(pos, naming, spot, keeps)
}

/// Numbers, of which one may have a name: without a tree where it is one number that is a sum.
#[inline(never)]
fn place_named(
    assembler: &mut Assembler,
    pos: Pos,
    signed: bool,
    tokens: &[Token],
) -> Result<(), PlaceFault>
    ensures placed { PlacesBy (spec.place_leb128 pos signed (map spelled tokens.now))
        assembler.old assembler.new result }
    ensures kept { assembler.new.notes ≡ assembler.old.notes }
{
    match few_sums(tokens) {
        Some(FewSums::One(sum)) => place_sum(assembler, pos, signed, &sum),
        _ => place_any(assembler, pos, signed, tokens),
    }
}

/// The bytes of a number.
fn put_constant(
    assembler: &mut Assembler,
    pos: Pos,
    signed: bool,
    value: u64,
) -> Result<(), PlaceFault>
    ensures placed { PlacesBy (put_bytes pos (least_leb128 signed value))
        assembler.old assembler.new result }
    ensures kept { assembler.new.notes ≡ assembler.old.notes }
{
    assembler.put_bytes(pos, least_leb128(signed, value).as_slice())
}

/// `.uleb128`, `.sleb128`: at once where it is one number.
pub fn place_leb128(
    assembler: &mut Assembler,
    pos: Pos,
    signed: bool,
    tokens: &[Token],
) -> Result<(), PlaceFault>
    ensures placed { PlacesBy (spec.place_leb128 pos signed (map spelled tokens.now))
        assembler.old assembler.new result }
    ensures kept { assembler.new.notes ≡ assembler.old.notes }
{
    no_name_is_allowed();
    match only_number(tokens) {
        Some(value) => put_constant(assembler, pos, signed, value),
        None => place_named(assembler, pos, signed, tokens),
    }
}
