//! What is read where the bytes of items are loaded.
#![tactic(auto)]

mod bare;
mod codes;
mod functions;
mod instructions;
mod jumps;
mod numbers;
mod padding;
mod relocated;
mod statements;

pub use bare::bare_instructions_are_laid;
pub use codes::{encodings_are_laid, encodings_are_read_loaded, loaded_codes_stand};
pub use functions::{ends_are_places, functions_are_laid, items_are_placed};
pub use instructions::{bare_instructions_are_seen, encodings_are_seen, instructions_are_laid};
pub use jumps::jumps_are_written;
pub use numbers::insns_are_numbered;
pub use padding::{alignments_are_laid, data_are_laid};
pub use relocated::relocated_fields_are_held;
pub use statements::statements_are_laid;
