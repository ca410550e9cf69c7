//! What an instruction makes of the row, and of the rows that are remembered.

ghost use Rattle.std.specs.Prelude.{◌≡◌};
ghost use Rattle.cfi_rows.specs.Rows as spec;

use arrayvec::ArrayVec;
use cfi_rows::{CfaRow, CfiOp, Rule, blank_row};

/// The row where a procedure begins, as the common entry gives it: the CFA is rsp + 8, and the return address stands
/// 8 bytes below it.
pub fn common_row() -> CfaRow
    ensures { result ≡ spec.common_row }
{
    let mut row = blank_row();
    row.register = 7;
    row.offset = 8;
    row.rules[16] = Rule::Offset(-8);
    row
}

/// Runs an instruction on the row and the remembered ones; `initial` is the row that the common entry gives. None where
/// it cannot be run, and then nothing is changed: a register above 63 gets a rule, a 17th row is remembered, or none is
/// there to be restored. The registers that a CFA is counted from and that a rule names are not looked at: bytes name none
/// above 63.
pub fn change(
    row: &mut CfaRow,
    saved: &mut ArrayVec<CfaRow, 16>,
    initial: &CfaRow,
    op: CfiOp,
) -> Option<()>
    ensures { spec.Changes (spec.rows_of row.old saved.old.items)
        (spec.changed initial.now op (spec.rows_of row.old saved.old.items)) result
        (spec.rows_of row.new saved.new.items) }
{
    match op {
        CfiOp::DefCfa(number, offset) => {
            row.register = number;
            row.offset = offset;
        }
        CfiOp::DefCfaRegister(number) => row.register = number,
        CfiOp::DefCfaOffset(offset) => row.offset = offset,
        CfiOp::Set(number, rule) => {
            let number = number as usize;
            if number >= 64 {
                return None;
            }
            row.rules[number] = rule;
        }
        CfiOp::Restore(number) => {
            let number = number as usize;
            if number >= 64 {
                return None;
            }
            row.rules[number] = initial.rules[number];
        }
        CfiOp::Remember => {
            if saved.is_full() {
                return None;
            }
            saved.push(*row);
        }
        CfiOp::RestoreState => match saved.pop() {
            Some(remembered) => *row = remembered,
            None => return None,
        },
    }
    Some(())
}
