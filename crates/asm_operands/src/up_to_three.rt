//! One to three operands that are expressions, of which only the first has to be there.

ghost use Rattle.std.specs.Prelude.{option_map, Ok};
ghost use Rattle.asm_expr.specs.Trees.{tree_of};
ghost use Rattle.asm_base.specs.Refusals.{GivesBy, Returns};
ghost use Rattle.asm_operands.specs.Results.{if_some};
ghost use Rattle.asm_operands.specs.OperandParts.{operands_left, Takes};
ghost use Rattle.asm_operands.specs.Expressions.{constant_in, first_tree, next_tree_if, no_more, up_to_three_trees, up_to_three_constants};
ghost use Rattle.asm_operands.specs.UpToThreeTrees.{trees_in};

use crate::directive_operands::Operands;
use crate::place_faults::{PlaceCause, PlaceFault};
use crate::trees::{constant_in, expression_of};
use asm_expr::{Expr, Linear};
use std::alloc::Global;

/// One to three of a kind.
#[derive(Drop)]
pub struct UpToThree<T> {
    pub first: T,
    pub second: Option<T>,
    pub third: Option<T>,
}

/// The next operand, which has to be there.
#[tactic(auto, unfolding(crate::specs::Expressions::first_tree))]
pub(crate) fn first_tree(alloc: Global, operands: &mut Operands) -> Result<Expr, PlaceFault>
    ensures { Takes tree_of first_tree operands.old operands.new result }
{
    match operands.next() {
        Some(operand) => expression_of(alloc, operand),
        None => Err(PlaceFault::Fault(PlaceCause::BadExpression)),
    }
}

/// The next operand, which may be missing, or empty, where one may be there.
#[tactic(auto, unfolding(crate::specs::Expressions::next_tree))]
fn next_tree_if(
    alloc: Global,
    may: bool,
    operands: &mut Operands,
) -> Result<Option<Expr>, PlaceFault>
    ensures { Takes (option_map tree_of) (next_tree_if may) operands.old operands.new result }
{
    if !may {
        return Ok(None);
    }
    match operands.next() {
        None | Some([]) => Ok(None),
        Some(operand) => Ok(Some(expression_of(alloc, operand)?)),
    }
}

/// No operand is left.
pub fn no_more<T: Drop>(operands: &mut Operands, made: T) -> Result<T, PlaceFault>
    ensures { GivesBy (λ made. made) result (no_more (operands_left operands.old) made) }
{
    match operands.next() {
        None => Ok(made),
        Some(_) => Err(PlaceFault::Fault(PlaceCause::BadOperand)),
    }
}

/// One expression, or as many more as there may be in all.
#[tactic(auto, unfolding(crate::specs::Expressions::up_to_three_trees))]
pub fn up_to_three_trees(
    alloc: Global,
    most: usize,
    operands: &mut Operands,
) -> Result<UpToThree<Expr>, PlaceFault>
    ensures { GivesBy trees_in result (up_to_three_trees most (operands_left operands.old)) }
{
    let first = first_tree(alloc, operands)?;
    let second = next_tree_if(alloc, most >= 2, operands)?;
    let third = next_tree_if(alloc, most >= 3, operands)?;
    no_more(
        operands,
        UpToThree {
            first,
            second,
            third,
        },
    )
}

/// The value of a form that may be missing.
pub fn constant_if(form: &Option<Linear>) -> Result<Option<u64>, PlaceFault>
    ensures { GivesBy (λ value. value) result (if_some constant_in form.now) }
{
    match form {
        Some(form) => Ok(Some(constant_in(form)?)),
        None => Ok(None),
    }
}

/// The values of forms, each of which has to be known.
#[tactic(auto, unfolding(crate::specs::Expressions::up_to_three_constants))]
pub fn up_to_three_constants(forms: &UpToThree<Linear>) -> Result<UpToThree<u64>, PlaceFault>
    ensures { Returns result (up_to_three_constants forms.now) }
{
    let first = constant_in(&forms.first)?;
    let second = constant_if(&forms.second)?;
    let third = constant_if(&forms.third)?;
    Ok(UpToThree {
        first,
        second,
        third,
    })
}
