//! The expressions that operands are, with a name before them or without, and the values of their forms.

ghost use Rattle.std.specs.Prelude.{map, Ok};
ghost use Rattle.asm_base.specs.Tokens.{spelled};
ghost use Rattle.asm_expr.specs.Trees.{tree_of};
ghost use Rattle.asm_base.specs.Refusals.{GivesBy, Returns};
ghost use Rattle.asm_operands.specs.Operands.{each};
ghost use Rattle.asm_operands.specs.OperandParts.{operands_left};
ghost use Rattle.asm_operands.specs.Expressions.{alone, expression_of, constant_in};
ghost use Rattle.asm_operands.specs.NamedTrees as spec;
ghost use Rattle.asm_operands.specs.NamedTrees.{named_tree_in};

use crate::directive_operands::Operands;
use crate::place_faults::{PlaceCause, PlaceFault};
use crate::plain_names::needed_name;
use crate::up_to_three::{first_tree, no_more};
use asm_base::Token;
use asm_expr::{Expr, ExprFault, Linear, Spelling, value_of};
use expr_texts::parse_front;
use std::alloc::Global;

/// The expression, where nothing stands behind it.
fn alone(expr: Expr, rest: &[Token]) -> Result<Expr, PlaceFault>
    ensures { GivesBy tree_of result (alone (map spelled rest.now) (tree_of expr)) }
{
    if rest.is_empty() {
        Ok(expr)
    } else {
        Err(PlaceFault::Fault(PlaceCause::BadOperand))
    }
}

/// The expression that an operand is.
#[tactic(auto, unfolding(crate::specs::Expressions::expression_of))]
pub fn expression_of(alloc: Global, operand: &[Token]) -> Result<Expr, PlaceFault>
    ensures { GivesBy tree_of result (expression_of (map spelled operand.now)) }
{
    let (expr, length) = parse_front(alloc, operand).map_err(ExprFault::raise)?;
    alone(expr, &operand[length..])
}

/// The expressions that operands are.
#[tactic(auto, unfolding(crate::specs::Operands::each, crate::specs::Operands::behind))]
pub fn expressions(alloc: Global, operands: Operands) -> Result<Vec<Expr>, PlaceFault>
    ensures { GivesBy (λ exprs. map tree_of exprs.items) result
        (each expression_of (operands_left operands.entry)) }
{
    let mut exprs = Vec::new(alloc);
    for operand in operands {
        exprs.push(expression_of(alloc, operand)?)?;
    }
    Ok(exprs)
}

/// The value of a form, which has to be known.
#[tactic(auto, unfolding(crate::specs::Expressions::constant_in))]
pub fn constant_in(form: &Linear) -> Result<u64, PlaceFault>
    ensures { Returns result (constant_in form.now) }
{
    match value_of(form) {
        Ok(value) => Ok(value),
        Err(cause) => Err(PlaceFault::Fault(PlaceCause::from(cause))),
    }
}

/// A name and an expression.
#[derive(Drop)]
pub struct NamedExpr {
    pub name: Spelling,
    pub expr: Expr,
}

/// Operands that have to be a name and an expression.
#[tactic(auto, unfolding(crate::specs::NamedTrees::named_tree))]
pub fn named_tree(alloc: Global, operands: &mut Operands) -> Result<NamedExpr, PlaceFault>
    ensures { GivesBy named_tree_in result (spec.named_tree (operands_left operands.old)) }
{
    let name = needed_name(alloc, operands)?;
    let expr = first_tree(alloc, operands)?;
    no_more(operands, NamedExpr { name, expr })
}
