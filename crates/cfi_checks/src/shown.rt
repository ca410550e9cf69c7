//! What a row says and what is known and stands at an item, side by side.

ghost use Rattle.std.specs.Prelude.{◌≡◌, ◌<◌, ℕ, true, IsTrue, IsFalse};
ghost use Rattle.stack_facts.specs.Places.{is_saved};
ghost use Rattle.scfi_pass.specs.Registers.{dwarf_number};
ghost use Rattle.scfi_pass.specs.Looking.{seen};
ghost use Rattle.cfi_checks.specs.Rows.{rule_of};
ghost use Rattle.cfi_checks.specs.Shown.{ShowsFrame, Shows, ShowsReturn};

use crate::rows::WrittenRow;
use cfi_rows::Rule;
use scfi_pass::Looked;

/// The number among the seven of a register by its number in DWARF (psABI for AMD64, figure 3.36), or 7.
fn seventh(register: u8) -> u8
    ensures counted { result < 7 → register ≡ dwarf_number result }
    ensures only { (q : ℕ) → q < 7 → register ≡ dwarf_number q → q ≡ result }
{
    match register {
        7 => 0,
        3 => 1,
        6 => 2,
        12 => 3,
        13 => 4,
        14 => 5,
        15 => 6,
        _ => 7,
    }
}

/// Whether the row's frame address is known to be the one at entry.
pub(crate) fn shows_frame(looked: &Looked, row: &WrittenRow) -> bool
    ensures shown { IsTrue result → ShowsFrame (seen looked.now).known row.now }
    ensures other { IsFalse result → ShowsFrame (seen looked.now).known row.now → ⊥ }
{
    let register = seventh(row.register);
    if register >= 7 {
        return false;
    }
    match looked.depths.distance(looked.place, register) {
        None => false,
        Some(distance) => distance.wrapping_add(row.offset.cast_unsigned()) == 0,
    }
}

/// Whether a register's value at entry stands where a rule says.
fn shows(looked: &Looked, register: u8, rule: Rule) -> bool
    ensures shown { IsTrue result → Shows (seen looked.now).stands register rule }
    ensures other { IsFalse result → Shows (seen looked.now).stands register rule → ⊥ }
{
    match rule {
        Rule::Unspecified | Rule::SameValue => looked.facts.has_entry(looked.place, register),
        Rule::Offset(offset) => {
            let distance = offset.cast_unsigned();
            looked.facts.has_slot(looked.place, distance, register)
        }
        Rule::Undefined | Rule::ValueOffset(_) | Rule::Register(_) => false,
    }
}

/// The first register whose value at entry does not stand where its rule says, or 7.
pub(crate) fn first_hidden(looked: &Looked, row: &WrittenRow) -> u8
    ensures some { 0 < result }
    ensures hidden { result < 7
        → Shows (seen looked.now).stands result (rule_of row.now result) → ⊥ }
    ensures first { (q : ℕ) → is_saved q ≡ true → q < result
        → Shows (seen looked.now).stands q (rule_of row.now q) }
{
    for register in 1..7u8 {
        if !shows(looked, register, row.rules[register as usize - 1]) {
            return register;
        }
    }
    7
}

/// Whether the row has the return address 8 below the frame address.
pub(crate) fn shows_return(row: &WrittenRow) -> bool
    ensures shown { IsTrue result → ShowsReturn row.now }
    ensures other { IsFalse result → ShowsReturn row.now → ⊥ }
{
    match row.return_address {
        Rule::Offset(offset) => offset == -8,
        _ => false,
    }
}
