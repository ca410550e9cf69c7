//! Frame tables: the procedures of a source as the entries of `.eh_frame`.
#![tactic(auto)]

mod advances;
mod commons;
mod entries;
mod laws;
mod placing;

pub use laws::{
    commons_are_shared, entries_read, labels_stand, tables_add_little, tables_are_found,
    tables_get_labels, tables_stand_behind, worked_tables, zeros_are_refused,
};
pub use placing::place;
