//! What `.file` with a number and `.loc` mean: the files of a line table, and the rows of each section.
#![tactic(auto)]

mod faults;
mod laws;
mod lines;
mod loc_lines;
mod numbered;
mod sequences;
mod source_files;

pub use faults::{LineTableCause, LineTableFault};
pub use laws::{directives_mean_rows, worked_lines};
pub use lines::Lines;
pub use loc_lines::LocLine;
pub use sequences::Sequence;
pub use source_files::{SourceFile, SourceFiles};
