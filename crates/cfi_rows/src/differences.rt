//! The instructions that lead from one row to another.

ghost use Rattle.std.specs.Prelude.{◌≡◌, ◌+◌, ◌≤◌, ◌<◌, ◌++◌, drop, slice_index_or};
ghost use Rattle.arrayvec.specs.ArrayVec.{array_vec_len};
ghost use Rattle.cfi_rows.specs.declared.rows.Rule.TheVariants.{Unspecified};
ghost use Rattle.cfi_rows.specs.Differences as spec;

use crate::rows::{CfaRow, CfiOp, CfiOps, Rule};
use arrayvec::ArrayVec;

/// The instruction for the CFA, if it is another.
fn cfa_change(from: &CfaRow, to: &CfaRow) -> CfiOps
    ensures value { result.items ≡ spec.cfa_change_of from.now to.now }
    ensures few { array_vec_len result ≤ 1 }
{
    let mut ops = ArrayVec::new();
    if from.register != to.register && from.offset != to.offset {
        ops.push(CfiOp::DefCfa(to.register, to.offset));
    } else if from.register != to.register {
        ops.push(CfiOp::DefCfaRegister(to.register));
    } else if from.offset != to.offset {
        ops.push(CfiOp::DefCfaOffset(to.offset));
    }
    ops
}

fn same_rule(a: Rule, b: Rule) -> bool
    ensures { result ≡ spec.same_rule a b }
{
    match (a, b) {
        (Rule::Unspecified, Rule::Unspecified)
        | (Rule::Undefined, Rule::Undefined)
        | (Rule::SameValue, Rule::SameValue) => true,
        (Rule::Offset(a), Rule::Offset(b)) => a == b,
        (Rule::ValueOffset(a), Rule::ValueOffset(b)) => a == b,
        (Rule::Register(a), Rule::Register(b)) => a == b,
        _ => false,
    }
}

fn rule_op(number: u8, rule: Rule) -> CfiOp
    ensures { result ≡ spec.rule_op number rule }
{
    match rule {
        Rule::Unspecified => CfiOp::Restore(number),
        _ => CfiOp::Set(number, rule),
    }
}

/// Instructions that make of the first row the second one: one for the CFA where it is another, then one for each
/// register that has another rule, in the order of their numbers. A register that is unspecified again gets the rule
/// that the common entry gave it.
#[tactic(auto, using(crate::proofs::DifferenceLemmas::one_kept, crate::proofs::DifferenceLemmas::one_changed, crate::proofs::DifferenceLemmas::none_left))]
pub fn diff(from: &CfaRow, to: &CfaRow) -> CfiOps
    ensures { result.items ≡ spec.differences from.now to.now }
{
    let mut ops = cfa_change(from, to);
    for number in 0..64usize {
        let rule = to.rules[number];
        if !same_rule(from.rules[number], rule) {
            ops.push(rule_op(number as u8, rule));
        }
    }
    ops
}
