//! The forms of expressions at the place of a statement.

ghost use Rattle.std.specs.Prelude.{map, option_map, Ok};
ghost use Rattle.asm_expr.specs.Trees.{tree_of};
ghost use Rattle.asm_base.specs.Refusals.{GivesBy, Returns};
ghost use Rattle.asm_operands.specs.Results.{if_some};
ghost use Rattle.asm_operands.specs.Operands.{each};
ghost use Rattle.asm_uses.specs.KnownIn.{known_in};
ghost use Rattle.asm_operands.specs.Expressions.{form_in, up_to_three_forms};
ghost use Rattle.asm_operands.specs.UpToThreeTrees.{trees_in};

use crate::places::View;
use asm_expr::{Expr, ExprFault, Linear, linear_form};
use asm_operands::{PlaceFault, UpToThree};
use std::alloc::Global;

/// The form of an expression.
#[tactic(auto, unfolding(asm_operands::specs::Expressions::form_in))]
pub fn form_in(alloc: Global, view: View, expr: &Expr) -> Result<Linear, PlaceFault>
    ensures { GivesBy (λ form. form) result (form_in (known_in view.entry) (tree_of expr.now)) }
{
    linear_form(alloc, expr, &view).map_err(ExprFault::raise)
}

/// The forms of expressions.
#[tactic(auto, unfolding(asm_operands::specs::Operands::each, asm_operands::specs::Operands::behind))]
pub fn forms(alloc: Global, view: View, exprs: &[Expr]) -> Result<Vec<Linear>, PlaceFault>
    ensures { GivesBy (λ forms. forms.items) result
        (each (form_in (known_in view.entry)) (map tree_of exprs.now)) }
{
    let mut forms = Vec::new(alloc);
    for expr in exprs {
        forms.push(form_in(alloc, view, expr)?)?;
    }
    Ok(forms)
}

/// The form of an expression that may be missing.
pub fn form_if(alloc: Global, view: View, expr: &Option<Expr>) -> Result<Option<Linear>, PlaceFault>
    ensures { GivesBy (λ form. form) result
        (if_some (form_in (known_in view.entry)) (option_map tree_of expr.now)) }
{
    match expr {
        Some(expr) => Ok(Some(form_in(alloc, view, expr)?)),
        None => Ok(None),
    }
}

/// The forms of expressions.
#[tactic(auto, unfolding(asm_operands::specs::Expressions::up_to_three_forms))]
pub fn up_to_three_forms(
    alloc: Global,
    view: View,
    exprs: &UpToThree<Expr>,
) -> Result<UpToThree<Linear>, PlaceFault>
    ensures { Returns result (up_to_three_forms (known_in view.entry) (trees_in exprs.now)) }
{
    let first = form_in(alloc, view, &exprs.first)?;
    let second = form_if(alloc, view, &exprs.second)?;
    let third = form_if(alloc, view, &exprs.third)?;
    Ok(UpToThree {
        first,
        second,
        third,
    })
}
