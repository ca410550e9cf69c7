//! The instructions that directives say.

ghost use Rattle.std.specs.Prelude.{◌≡◌, IfOk, IsTrue};
ghost use Rattle.cfi_directives.specs.Saying as spec;
ghost use Rattle.cfi_directives.specs.Writable as writable;

use crate::faults::CfiCause;
use crate::lines::RowDirective;
use crate::registers::DwarfRegister;
use cfi_rows::{CfiOp, Rule};

/// Whether the offset is a multiple of the data alignment factor.
fn is_factorable(offset: i64) -> bool
    ensures { result ≡ writable.is_factorable offset }
{
    offset.unsigned_abs() % 8 == 0
}

/// Whether the CFA can have the offset: it is factored where it is below 0 (DWARF 5, section 6.4.2.2).
fn is_cfa_offset(offset: i64) -> bool
    ensures { result ≡ writable.is_cfa_offset offset }
{
    offset >= 0 || is_factorable(offset)
}

/// Whether an instruction gives the rule (DWARF 5, section 6.4.2.3).
fn is_writable_rule(rule: Rule) -> bool
    ensures { result ≡ writable.is_writable_rule rule }
{
    match rule {
        Rule::Unspecified => false,
        Rule::Undefined | Rule::SameValue => true,
        Rule::Offset(offset) => is_factorable(offset),
        Rule::ValueOffset(offset) => is_factorable(offset),
        Rule::Register(number) => number < 64,
    }
}

/// Whether the instruction has a form.
fn is_writable(op: CfiOp) -> bool
    ensures { result ≡ writable.is_writable op }
{
    match op {
        CfiOp::DefCfa(number, offset) => number < 64 && is_cfa_offset(offset),
        CfiOp::DefCfaRegister(number) | CfiOp::Restore(number) => number < 64,
        CfiOp::DefCfaOffset(offset) => is_cfa_offset(offset),
        CfiOp::Set(number, rule) => number < 64 && is_writable_rule(rule),
        CfiOp::Remember | CfiOp::RestoreState => true,
    }
}

/// The instruction, if it has a form.
fn if_writable(op: CfiOp) -> Result<CfiOp, CfiCause>
    ensures value { result ≡ spec.if_writable op }
    ensures writable { IfOk result (λ op. IsTrue (writable.is_writable op)) }
{
    if is_writable(op) {
        Ok(op)
    } else {
        Err(CfiCause::OutOfRange)
    }
}

/// `.cfi_adjust_cfa_offset`, where the CFA has this offset.
fn adjusted(cfa: Option<i64>, by: i64) -> Result<CfiOp, CfiCause>
    ensures value { result ≡ spec.adjusted cfa by }
    ensures writable { IfOk result (λ op. IsTrue (writable.is_writable op)) }
{
    let Some(cfa) = cfa else {
        return Err(CfiCause::CfiOutsideProcedure);
    };
    match cfa.checked_add(by) {
        Some(offset) => if_writable(CfiOp::DefCfaOffset(offset)),
        None => Err(CfiCause::OutOfRange),
    }
}

/// `.cfi_rel_offset`, where the CFA has this offset.
fn relative(cfa: Option<i64>, register: DwarfRegister, offset: i64) -> Result<CfiOp, CfiCause>
    ensures value { result ≡ spec.relative cfa register.number offset }
    ensures writable { IfOk result (λ op. IsTrue (writable.is_writable op)) }
{
    let Some(cfa) = cfa else {
        return Err(CfiCause::CfiOutsideProcedure);
    };
    match offset.checked_sub(cfa) {
        Some(distance) => if_writable(CfiOp::Set(register.number(), Rule::Offset(distance))),
        None => Err(CfiCause::OutOfRange),
    }
}

/// The instruction that a directive says where the CFA has this offset, if a procedure is open.
pub(crate) fn said(cfa: Option<i64>, directive: RowDirective) -> Result<CfiOp, CfiCause>
    ensures value { result ≡ spec.said cfa directive }
    ensures writable { IfOk result (λ op. IsTrue (writable.is_writable op)) }
{
    let op = match directive {
        RowDirective::AdjustCfaOffset(by) => return adjusted(cfa, by),
        RowDirective::RelOffset(register, offset) => return relative(cfa, register, offset),
        RowDirective::DefCfa(register, offset) => CfiOp::DefCfa(register.number(), offset),
        RowDirective::DefCfaRegister(register) => CfiOp::DefCfaRegister(register.number()),
        RowDirective::DefCfaOffset(offset) => CfiOp::DefCfaOffset(offset),
        RowDirective::Offset(register, offset) => {
            CfiOp::Set(register.number(), Rule::Offset(offset))
        }
        RowDirective::ValOffset(register, offset) => {
            CfiOp::Set(register.number(), Rule::ValueOffset(offset))
        }
        RowDirective::Register(register, other) => {
            CfiOp::Set(register.number(), Rule::Register(other.number()))
        }
        RowDirective::RememberState => CfiOp::Remember,
        RowDirective::RestoreState => CfiOp::RestoreState,
        RowDirective::Restore(register) => CfiOp::Restore(register.number()),
        RowDirective::Undefined(register) => CfiOp::Set(register.number(), Rule::Undefined),
        RowDirective::SameValue(register) => CfiOp::Set(register.number(), Rule::SameValue),
    };
    if_writable(op)
}
