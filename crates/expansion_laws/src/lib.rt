//! How statements are spelled that expansion hands out.
#![tactic(auto)]

mod handing;

pub use handing::{
    handed_of_bytes_are_spelled, handed_statements_are_spelled, placed_parts_are_spelled,
};
