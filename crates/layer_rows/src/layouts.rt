//! What the rows of a case settle to: their levels, sizes and rounds, as text.

mod cases;
mod forms;
mod items;
mod labels;
mod rows;
mod settled;
mod standing;

pub use cases::Case;
