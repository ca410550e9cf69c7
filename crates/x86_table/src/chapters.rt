//! The chapters of the table, a file each. Each hands its rows to the next, behind those before, and
//! the last hands them all to `rows!`.

pub mod branches;
pub mod conditions;
pub mod moves;
pub mod one_operand;
pub mod shifts;
pub mod sse;
pub mod three_bytes;
pub mod two_operands;
