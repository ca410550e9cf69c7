//! Where what is put into sections is in the layout of all.
#![tactic(auto)]

mod branches;
mod ends;
mod statements;

pub use branches::{branches_lead, jumps_lead, spots_are_addresses};
pub use ends::{
    ends_add, ends_are_addresses, ends_are_sizes, ends_move, layouts_are_low, layouts_keep_items,
};
pub use statements::{
    alignments_stand, growth_moves_places, places_are_inside, runs_move_nothing, spots_give_places,
    statements_stand,
};
