//! The rows of a written frame table, as far as they are checked.

use cfi_rows::Rule;

/// A row: how the frame address is counted, and where each callee-saved register's value at entry is found
/// (DWARF 5, section 6.4.1).
#[derive(Clone, Copy)]
pub struct WrittenRow {
    /// The DWARF number of the register that the frame address is counted from.
    pub register: u8,
    /// The frame address less that register's value, in bytes.
    pub offset: i64,
    /// The rules of rbx, rbp and r12 to r15, in this order.
    pub rules: [Rule; 6],
    /// The rule of the return address.
    pub return_address: Rule,
}

/// A row, and the item from which on it is in force.
#[derive(Clone, Copy)]
pub struct RowFrom {
    pub item: usize,
    pub row: WrittenRow,
}
