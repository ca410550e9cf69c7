//! The distances of seven registers from the frame address, at each item of a function.
#![tactic(auto)]

mod followed;
mod tables;
mod tracing;
mod values;
mod ways;

pub use followed::{
    FollowedAccess, FollowedMove, followed_load, followed_move, followed_store, is_call, is_written,
};
pub use tables::{DepthTable, depths};
pub use ways::{Ways, walks_are_listed};
