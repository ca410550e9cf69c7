//! The frame tables that are worked out of the functions of a source, in the bytes of its object.
#![tactic(auto)]

mod recovered;

pub use recovered::objects_recover;
