//! The visitor that gathers the names of an expression.

ghost use Rattle.std.specs.Prelude.{◌≡◌, Ok, [], MatchResult, IfOk};
ghost use Rattle.asm_base.specs.declared.refusals.Refusal.TheVariants.{NoMemory};
ghost use Rattle.asm_base.specs.Refusals.{GivesBy};
ghost use Rattle.asm_expr.specs.Trees.{tree_of};
ghost use Rattle.asm_expr.specs.NamesOf.{names_of, NumGathers, NameGathers, HereGathers, UnaryGathers, BinaryGathers};

use crate::faults::ExprFault;
use crate::folding::fold;
use crate::trees::{BinaryOp, Expr, UnaryOp, Written};
use crate::visiting::ExprFold;
use std::alloc::{AllocError, Global};

/// A name once more, as it is written.
fn copied_written(alloc: Global, written: &Written) -> Result<Written, AllocError>
    ensures { IfOk result (λ copy. copy ≡ written.now) }
{
    match written {
        Written::Plain(text) => Ok(Written::Plain(text.copied(alloc)?)),
        Written::Back(number) => Ok(Written::Back(*number)),
        Written::Next(number) => Ok(Written::Next(*number)),
    }
}

/// Gathers the names of an expression, from left to right.
#[derive(Drop)]
pub struct Names {
    pub alloc: Global,
    pub names: Vec<Written>,
}

impl ExprFold for Names {
    type Out = Result<(), ExprFault>;

    ghost num_gives = { NumGathers (λ visitor. visitor.names.items) };

    ghost name_gives = { NameGathers (λ visitor. visitor.names.items) };

    ghost here_gives = { HereGathers (λ visitor. visitor.names.items) };

    ghost unary_gives = { UnaryGathers (λ visitor. visitor.names.items) };

    ghost binary_gives = { BinaryGathers (λ visitor. visitor.names.items) };

    fn num(&mut self, _value: u64) -> Result<(), ExprFault> {
        Ok(())
    }

    fn name(&mut self, name: &Written) -> Result<(), ExprFault> {
        self.names.push(copied_written(self.alloc, name)?)?;
        Ok(())
    }

    fn here(&mut self) -> Result<(), ExprFault> {
        Ok(())
    }

    fn unary(&mut self, _op: UnaryOp, operand: Result<(), ExprFault>) -> Result<(), ExprFault> {
        operand
    }

    fn binary(
        &mut self,
        _op: BinaryOp,
        left: Result<(), ExprFault>,
        right: Result<(), ExprFault>,
    ) -> Result<(), ExprFault> {
        match left {
            Ok(()) => right,
            Err(refusal) => Err(refusal),
        }
    }
}

/// The names of an expression, from left to right.
pub fn names_of(alloc: Global, expr: &Expr) -> Result<Vec<Written>, ExprFault>
    ensures { GivesBy (λ names. names.items) result (Ok (names_of (tree_of expr.now))) }
{
    let mut visitor = Names {
        alloc,
        names: Vec::new(alloc),
    };
    match fold(expr, &mut visitor) {
        Ok(()) => Ok(visitor.names),
        Err(refusal) => Err(refusal),
    }
}
