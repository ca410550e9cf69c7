//! Whether the written frame table of a function is right on every path.
#![tactic(auto)]

mod checked;
mod checking;
mod faults;
mod item_checks;
mod laws;
mod places;
mod rows;
mod shown;

pub use checking::check;
pub use faults::{CheckFault, CheckedFault};
pub use laws::{shown_rows_have_no_fault, worked_checks};
pub use rows::{RowFrom, WrittenRow};
