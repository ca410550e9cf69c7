//! What holds of the frame tables that synthesis makes.
#![tactic(auto)]

mod answers;
mod frames;
mod seen;
mod tables;

pub use answers::{analyses_are_one, answers_are_one, functions_have_answers};
pub use frames::{table_frames_are_whole, table_frames_mean_rows};
pub use seen::synthesis_sees;
pub use tables::{tables_are_of_items, tables_can_be_written, tables_give_rows};
