//! Placing statements: what each adds to the sections, the symbols and the notes of a source.
#![tactic(auto)]

mod bodies;
mod code_putting;
mod codes;
mod instructions;
mod laws;
mod place_faults;
mod placing;
mod remarks;
mod sources;
mod syntax_words;
mod watched;
mod watches;

pub use bodies::{Body, body_of, labels_length};
pub use laws::{
    encoding_items, encoding_stands, instruction_items, instruction_stands, instructions_are_seen,
    instructions_keep_lines, jump_items, jumps_are_put, jumps_read, labels_change_symbols,
    lines_follow, places_stand, placing_grows, placing_in_order, placing_is_not_reading,
    placing_within, procedures_stand_in_order, sources_are_small, statements_put_into_one_section,
    statements_split,
};
pub use place_faults::{BoxedFault, FaultAt};
pub use sources::StatementPlacer;
