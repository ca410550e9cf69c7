//! From linear forms to the distances of rows.
#![tactic(auto)]

mod form_distances;
mod pairs;
mod places;

pub use form_distances::{RowsApart, distance_of, distances_are_values, rows_apart};
pub use places::{OwnPlace, RowView};
