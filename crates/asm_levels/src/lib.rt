//! Items of several levels as rows: the levels that jumps, LEB128 numbers and advances need, their sizes, and which rows their distances span.
#![tactic(auto)]

mod distances;
mod ends;
mod laws;
mod needs;
mod packing;
mod rounds;
mod rows;
mod shifts;
mod watching;

pub use distances::{Distance, RowTerm, RowTerms};
pub use ends::{EndedRows, dependents_of, ends_of};
pub use laws::{
    few_rows_have_few_bytes, needs_stay_within_tops, needs_stay_within_tops_everywhere,
    padding_is_least,
};
pub use needs::top;
pub use packing::PackedRow;
pub use rounds::{level_taken, look, note};
pub use rows::{Row, RowSize};
pub use shifts::{shift_behind, size_at, size_from};
pub use watching::{Entries, Watchers, leaf_of};
