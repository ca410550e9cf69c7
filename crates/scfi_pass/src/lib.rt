//! The frame tables of functions, worked out from what their items do.
#![tactic(auto)]

mod changing;
mod checks;
mod faults;
mod frames;
mod item_ops;
mod laws;
mod looking;
mod plain;
mod registers;
mod rows;
mod rules;
mod synthesis;
mod tables;
mod walked;

pub use faults::check_followed;
pub use item_ops::ItemOp;
pub use laws::{rows_begin, worked_function};
pub use looking::Looked;
pub use registers::saved_register;
pub use rows::{Cfa, StackRow};
pub use synthesis::synthesize;
pub use walked::ItemFault;
