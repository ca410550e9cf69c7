//! What the `.cfi_` directives of a source mean: procedures with the instructions of their frame tables.
#![tactic(auto)]

mod directives;
mod faults;
mod frames;
mod instructions;
mod laws;
mod lines;
mod offsets;
mod procedures;
mod registers;

pub use directives::Directives;
pub use faults::{CfiCause, CfiFault};
pub use frames::{Frame, Frames, PlacedOp, PlacedOps, Pointer};
pub use laws::{
    addresses_change_no_row, directives_are_taken_in_turn, directives_mean_procedures,
    faults_of_directives, forms_are_written, further_registers_are_taken, places_never_fall,
    procedures_are_sound, rows_are_meant, worked_directives,
};
pub use lines::{CfiLine, PointerKind, RowDirective};
pub use registers::DwarfRegister;
