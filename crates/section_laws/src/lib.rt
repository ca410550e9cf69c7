//! What holds of sections as statements put bytes, fields and items into them.
#![tactic(auto)]

mod puts;

pub use puts::puts_stay_within;
