//! Where direct jumps and branches of functions lead.
#![tactic(auto)]

mod branches;
mod jumps;
mod labels;
mod rooms;

pub use branches::{branches_are_read, branches_have_targets};
pub use jumps::{jumps_are_read, jumps_are_seen, loaded_jumps_stand};
pub use labels::targets_are_items;
pub use rooms::{branches_are_said, jump_fields_stand, jumps_have_room};
