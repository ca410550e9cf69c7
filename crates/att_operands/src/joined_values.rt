//! Two values of one kind in a statement: no instruction takes two, and the fault of either is told.

ghost use Rattle.std.specs.Prelude.{◌≡◌, true, IfOk};
ghost use Rattle.asm_expr.specs.Trees.{tree_of};
ghost use Rattle.x86_insn.specs.Amounts.{amount_tree};
ghost use Rattle.att_operands.specs.Values.{ValueText, IsValueOf, beside};

use asm_base::NoMemory;
use asm_expr::{BinaryOp, Expr, Spelling, Written};
use std::alloc::Global;
use x86_insn::{Amount, Value};

/// The amount as a tree.
fn amount_expr(alloc: Global, amount: Amount) -> Result<Box<Expr>, NoMemory>
    ensures { IfOk result (λ boxed. tree_of boxed.value ≡ amount_tree amount.entry) }
{
    match amount {
        Amount::Number(value) => Ok(Box::new(alloc, Expr::Num(value))?),
        Amount::Name(bytes, more) => {
            let name = Expr::Name(Written::Plain(Spelling::new(alloc, bytes)?));
            let left = Box::new(alloc, name)?;
            let right = Box::new(alloc, Expr::Num(more))?;
            Ok(Box::new(alloc, Expr::Binary(BinaryOp::Add, left, right))?)
        }
        Amount::Tree(boxed) => Ok(boxed),
    }
}

/// The value takes in another one.
#[inline(never)]
fn join_value<'a>(alloc: Global, held: &mut Value<'a>, more: Value<'a>) -> Result<(), NoMemory>
    ensures { IfOk result (λ _. (one other : ValueText) → IsValueOf held.old one
        → IsValueOf more.entry other → IsValueOf held.new (beside true one other)) }
{
    let Value { amount, suffix } = more;
    let first = std::mem::replace(&mut held.amount, Amount::Number(0));
    let left = amount_expr(alloc, first)?;
    let right = amount_expr(alloc, amount)?;
    let sum = Expr::Binary(BinaryOp::Add, left, right);
    held.amount = Amount::Tree(Box::new(alloc, sum)?);
    held.suffix = suffix;
    Ok(())
}

/// A value is held, with the one that is there already, if one of its kind is. After want of memory
/// anything may stand there.
#[inline(always)]
pub fn hold_value<'a>(
    alloc: Global,
    there: bool,
    held: &mut Value<'a>,
    more: Value<'a>,
) -> Result<(), NoMemory>
    ensures { IfOk result (λ _. (one other : ValueText) → IsValueOf held.old one
        → IsValueOf more.entry other → IsValueOf held.new (beside there one other)) }
{
    if there {
        join_value(alloc, held, more)?;
        Ok(())
    } else {
        *held = more;
        Ok(())
    }
}
