//! What rows of several levels settle to, round by round, while addresses change.
#![tactic(auto)]

mod laws;
mod looking;
mod placing;
mod plans;
mod resizing;
mod settling;

pub use laws::rows_stand_in_row;
pub use plans::RowPlan;
