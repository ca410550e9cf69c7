//! The row of an item of which no fault is told.

ghost use Rattle.std.specs.Prelude.{◌≡◌, Bool, true, IsTrue};
ghost use Rattle.stack_facts.specs.Places.{is_saved};
ghost use Rattle.stack_facts.specs.Facts.{Fact, IsSlotOf};
ghost use Rattle.scfi_pass.specs.Rows.{IsRuleOf, AreRules};
ghost use Rattle.scfi_pass.specs.Faults.{IsSound};
ghost use Rattle.scfi_pass.specs.Tables.{row_by};
ghost use Rattle.scfi_pass.specs.Looking.{seen};

use crate::looking::Looked;
use crate::rows::{Cfa, StackRow};

/// The slot of a register, or none where it has its entry value still.
#[inline(always)]
fn rule_at(looked: &Looked, register: u8, found: Option<u64>) -> Option<u64>
    requires sound { IsSound (seen looked.now) }
    requires saved { is_saved register ≡ true }
    requires found { IsSlotOf (seen looked.now).stands register found }
    ensures { IsRuleOf (seen looked.now).stands register result }
{
    let _ = looked;
    found
}

/// The row of an item with this frame address, its rules worked out.
fn new_row(looked: &Looked, cfa: Cfa) -> StackRow
    requires { IsSound (seen looked.now) }
    ensures cfa { result.cfa ≡ cfa }
    ensures rules { AreRules (seen looked.now).stands result }
{
    let slots = looked.facts.slots_of(looked.place);
    StackRow {
        cfa,
        rbx: rule_at(looked, 1, slots[1]),
        rbp: rule_at(looked, 2, slots[2]),
        r12: rule_at(looked, 3, slots[3]),
        r13: rule_at(looked, 4, slots[4]),
        r14: rule_at(looked, 5, slots[5]),
        r15: rule_at(looked, 6, slots[6]),
    }
}

/// The row of an item with this frame address, with rules that are held already.
fn held_row(cfa: Cfa, row: &StackRow) -> StackRow
    ensures cfa { result.cfa ≡ cfa }
    ensures rules { (stands : Fact → Bool) → AreRules stands row.now → AreRules stands result }
{
    StackRow {
        cfa,
        rbx: row.rbx,
        rbp: row.rbp,
        r12: row.r12,
        r13: row.r13,
        r14: row.r14,
        r15: row.r15,
    }
}

#[inline(always)]
pub(crate) fn same_cfa(one: Cfa, other: Cfa) -> bool
    ensures { IsTrue result → one ≡ other }
{
    if one.register != other.register {
        return false;
    }
    one.distance == other.distance
}

/// The row of an item with this frame address, if it is another than the row before. Its rules may be
/// known to be those of the row before.
pub(crate) fn other_row(looked: &Looked, cfa: Cfa, held: bool, row: &StackRow) -> Option<StackRow>
    requires sound { IsSound (seen looked.now) }
    requires held { IsTrue held → AreRules (seen looked.now).stands row.now }
    ensures cfa { (row_by row.now result).cfa ≡ cfa }
    ensures rules { AreRules (seen looked.now).stands (row_by row.now result) }
{
    if held {
        if same_cfa(row.cfa, cfa) {
            return None;
        }
        return Some(held_row(cfa, row));
    }
    Some(new_row(looked, cfa))
}
