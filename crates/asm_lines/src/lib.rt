//! From the bytes of a source to its statements, each with its file and line (GNU as manual,
//! chapter 3): a list of all of them, or one at a time as its tokens, which are placed at once.
#![tactic(auto)]

mod cursors;
mod faults;
mod intervals;
mod laws;
mod line_checks;
mod line_numbers;
mod own_counts;
mod passing;
mod placing;
mod reading;
mod statement_tokens;
mod statements;

pub use cursors::{NextStatement, counted_next_statement};
pub use faults::{LineCause, LineFault};
pub use laws::{
    line_faults_are_found, lines_never_fall, no_statement_has_nul, one_list_of_tokens,
    statements_are_whole,
};
pub use line_checks::{counted_fault_of_lines, has_nul};
pub use own_counts::{fault_of_lines, next_statement};
pub use placing::Placer;
pub use reading::read_statements;
pub use statements::{Statement, Statements};
