//! Which values of an instruction are known where it stands.

ghost use Rattle.std.specs.Prelude.{◌≡◌, Ok};
ghost use Rattle.asm_base.specs.Refusals.{Returns};
ghost use Rattle.asm_expr.specs.Evaluating.{knowledge_by};
ghost use Rattle.asm_expr.specs.Trees.{tree_of};
ghost use Rattle.x86_insn.specs.Amounts.{amount_tree, named_tree};
ghost use Rattle.x86_insn.specs.Knowing.{if_known, moved_value, value_now, values_of};

use crate::amounts::{Amount, Values};
use crate::insns::Insn;
use asm_expr::{
    Expr, ExprCause, ExprFault, Known, Look, Spelling, SymId, Written, constant_form, form_of,
    linear_form, settled_sum, value_of,
};
use std::alloc::Global;

/// The value, or none in place of a fault.
fn if_known(value: Result<u64, ExprCause>) -> Option<u64>
    ensures { result ≡ if_known value }
{
    match value {
        Ok(known) => Some(known),
        Err(_) => None,
    }
}

/// The value of an expression.
#[inline(never)]
fn tree_value<K: Known>(alloc: Global, expr: &Expr, known: &K) -> Result<Option<u64>, ExprFault>
    ensures { let knows = knowledge_by K.told K.meant K.place known.now in
        Returns result (value_now knows (tree_of expr.now)) }
{
    match linear_form(alloc, expr, known) {
        Ok(form) => Ok(if_known(value_of(&form))),
        Err(refusal) => Err(refusal),
    }
}

/// The value of an assigned symbol and a number.
#[inline(never)]
#[tactic(auto, unfolding(crate::specs::Knowing::moved_value))]
fn assigned_value<K: Known>(
    alloc: Global,
    known: &K,
    symbol: SymId,
    number: u64,
) -> Result<Option<u64>, ExprFault>
    ensures { Returns result (Ok (moved_value (K.told known.now) symbol number)) }
{
    let form = form_of(alloc, known, symbol)?;
    let sum = settled_sum(alloc, known, false, form, constant_form(alloc, number))?;
    Ok(if_known(value_of(&sum)))
}

/// The value of a symbol and a number.
#[tactic(auto, using(crate::proofs::MovedValues::by_absent, crate::proofs::MovedValues::by_label, crate::proofs::MovedValues::by_constant))]
fn moved_value<K: Known>(
    alloc: Global,
    known: &K,
    symbol: SymId,
    number: u64,
) -> Result<Option<u64>, ExprFault>
    ensures { Returns result (Ok (moved_value (K.told known.now) symbol number)) }
{
    match known.look(symbol) {
        Look::Absent => Ok(None),
        Look::Label { .. } => Ok(None),
        Look::Constant(value) => Ok(Some(value.wrapping_add(number))),
        Look::Form(_) => assigned_value(alloc, known, symbol, number),
    }
}

/// The value of a named symbol and a number.
#[tactic(auto, using(crate::proofs::MovedValues::named))]
fn named_value<K: Known>(
    alloc: Global,
    known: &K,
    bytes: &[u8],
    number: u64,
) -> Result<Option<u64>, ExprFault>
    ensures { let knows = knowledge_by K.told K.meant K.place known.now in
        Returns result (value_now knows (named_tree bytes.now number)) }
{
    let written = Written::Plain(Spelling::new(alloc, bytes)?);
    moved_value(alloc, known, known.symbol(&written), number)
}

/// The value of an amount.
#[tactic(auto, using(crate::proofs::MovedValues::by_number))]
fn amount_value<K: Known>(
    alloc: Global,
    known: &K,
    amount: &Amount,
) -> Result<Option<u64>, ExprFault>
    ensures { let knows = knowledge_by K.told K.meant K.place known.now in
        Returns result (value_now knows (amount_tree amount.now)) }
{
    match amount {
        Amount::Number(value) => Ok(Some(*value)),
        Amount::Name(bytes, number) => named_value(alloc, known, bytes, *number),
        Amount::Tree(expr) => tree_value(alloc, expr, known),
    }
}

/// What is known now of the instruction's values, or the first fault, that of the immediate first:
/// a division by zero, or an operator that wants a constant and has none. Both values count, also
/// where no operand shows them.
pub fn values<K: Known>(alloc: Global, insn: &Insn, known: &K) -> Result<Values, ExprFault>
    ensures { let knows = knowledge_by K.told K.meant K.place known.now in
        Returns result (values_of knows insn.now) }
{
    let immediate = match amount_value(alloc, known, &insn.immediate.amount) {
        Ok(value) => value,
        Err(refusal) => return Err(refusal),
    };
    let displacement = match amount_value(alloc, known, &insn.displacement.amount) {
        Ok(value) => value,
        Err(refusal) => return Err(refusal),
    };
    Ok(Values {
        immediate,
        displacement,
    })
}
