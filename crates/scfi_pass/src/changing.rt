//! The instructions that lead from row to row.

ghost use Rattle.std.specs.Prelude.{◌≡◌, ◌++◌, map, IfOk};
ghost use Rattle.cfi_rows.specs.Differences.{differences};
ghost use Rattle.scfi_pass.specs.Rows.{whole_row};
ghost use Rattle.scfi_pass.specs.Changing as spec;

use crate::item_ops::ItemOp;
use crate::registers::dwarf_number;
use crate::rows::{Cfa, StackRow};
use cfi_rows::{CfiOp, Rule};
use std::alloc::AllocError;

/// The frame address less a register's value.
fn offset_of(distance: u64) -> i64
    ensures { result ≡ spec.offset_of distance }
{
    0u64.wrapping_sub(distance).cast_signed()
}

/// The instruction for the frame address, if it is another.
fn cfa_op(from: Cfa, to: Cfa) -> Option<CfiOp>
    ensures { result ≡ spec.cfa_op from to }
{
    let register = dwarf_number(to.register);
    let offset = offset_of(to.distance);
    let same_register = dwarf_number(from.register) == register;
    let same_offset = offset_of(from.distance) == offset;
    if same_register && same_offset {
        None
    } else if same_offset {
        Some(CfiOp::DefCfaRegister(register))
    } else if same_register {
        Some(CfiOp::DefCfaOffset(offset))
    } else {
        Some(CfiOp::DefCfa(register, offset))
    }
}

/// The instruction for a register, if its rule is another.
fn slot_op(number: u8, from: Option<u64>, to: Option<u64>) -> Option<CfiOp>
    ensures { result ≡ spec.slot_op number from to }
{
    match (from, to) {
        (None, None) => None,
        (Some(_), None) => Some(CfiOp::Restore(number)),
        (None, Some(n)) => Some(CfiOp::Set(number, Rule::Offset(n.cast_signed()))),
        (Some(m), Some(n)) => {
            if m.cast_signed() == n.cast_signed() {
                None
            } else {
                Some(CfiOp::Set(number, Rule::Offset(n.cast_signed())))
            }
        }
    }
}

/// Puts an instruction, if there is one, behind the others.
fn put(ops: &mut Vec<ItemOp>, item: usize, op: Option<CfiOp>) -> Result<(), AllocError>
    ensures { IfOk result (λ _. ops.new.items ≡ ops.old.items ++ spec.told_at item op) }
{
    match op {
        None => {}
        Some(op) => ops.push(ItemOp { item, op })?,
    }
    Ok(())
}

/// Puts the instructions that lead from a row to another behind the others.
pub(crate) fn lead(
    ops: &mut Vec<ItemOp>,
    item: usize,
    from: &StackRow,
    to: &StackRow,
) -> Result<(), AllocError>
    ensures { IfOk result (λ _. ops.new.items
        ≡ ops.old.items ++ spec.told item (differences (whole_row from.now) (whole_row to.now))) }
{
    put(ops, item, cfa_op(from.cfa, to.cfa))?;
    put(ops, item, slot_op(3, from.rbx, to.rbx))?;
    put(ops, item, slot_op(6, from.rbp, to.rbp))?;
    put(ops, item, slot_op(12, from.r12, to.r12))?;
    put(ops, item, slot_op(13, from.r13, to.r13))?;
    put(ops, item, slot_op(14, from.r14, to.r14))?;
    put(ops, item, slot_op(15, from.r15, to.r15))?;
    Ok(())
}
