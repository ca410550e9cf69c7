//! Line tables: the files and rows of a source as the unit of `.debug_line`.
#![tactic(auto)]

mod directories;
mod files;
mod header;
mod laws;
mod placing;
mod sequences;
mod unit;

pub use laws::{
    files_are_listed, labels_are_few, labels_stand, others_stay, tables_add_little,
    tables_are_found, tables_get_labels, tables_stand_behind, worked_tables, zeros_are_refused,
};
pub use placing::place;
