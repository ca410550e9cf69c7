//! What statements do to the functions of a source whose frame tables are worked out.
#![tactic(auto)]

mod following;
mod functions;
mod laws;
mod remarks;
mod seen_functions;

pub use following::FollowingPlacer;
pub use laws::{
    following_in_order, following_is_not_reading, following_is_placing, functions_stand_in_order,
    items_are_joined, moves_are_items, standing_items_are_in_order, worked_steps,
};
pub use remarks::{Ignored, with_remark};
pub use seen_functions::SeenFunctions;
