//! The values of operands, and what stands in their texts.

ghost use Rattle.std.specs.Prelude.{◌≡◌, ◌≤◌, map, length};
ghost use Rattle.std.specs.List.{list_any};
ghost use Rattle.asm_base.specs.Tokens.{spelled};
ghost use Rattle.intel_sums.specs.Sums.{is_register};
ghost use Rattle.att_operands.specs.Values.{GivesSo, IsValueOf};
ghost use Rattle.intel_operands.specs.OperandTexts.{value_of, has_register};

use asm_base::Token;
use att_operands::{OperandCause, OperandFault, ReadValue, value_at};
use intel_sums::is_register;
use std::alloc::Global;
use x86_insn::Value;

/// The value that is the whole text.
#[inline(always)]
#[tactic(auto, unfolding(crate::specs::OperandTexts::value_of))]
pub(crate) fn value_of<'a>(alloc: Global, text: &[Token<'a>]) -> Result<Value<'a>, OperandFault>
    ensures { GivesSo IsValueOf result (value_of (map spelled text.now)) }
{
    match value_at(alloc, text, 0) {
        Ok(ReadValue { value, next }) => {
            if next == text.len() {
                Ok(value)
            } else {
                Err(OperandFault::Fault(OperandCause::BadOperand))
            }
        }
        Err(refusal) => Err(refusal),
    }
}

/// Whether one of the tokens names a register.
fn any_register(text: &[Token]) -> bool
    ensures { result ≡ list_any (λ token. is_register (spelled token)) text.now }
{
    text.iter().any(|token| is_register(token))
}

/// Whether one of the tokens of a text names a register.
pub(crate) fn has_register(text: &[Token]) -> bool
    ensures { result ≡ has_register (map spelled text.now) }
{
    any_register(text)
}
