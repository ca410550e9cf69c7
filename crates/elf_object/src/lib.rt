//! From the laid out sections and the symbols of a source to its object file (gABI, chapter 4; psABI for AMD64, chapter 4).
#![tactic(auto)]

mod contents;
mod faults;
mod laws;
mod mixing;
mod naming;
mod object;
mod references;
mod relocations;
mod searching;
mod sections;

pub use faults::{ObjectCause, ObjectFault};
pub use laws::{
    bytes_stand, fields_have_one_relocation, items_stand, locals_first, places_are_addresses,
    relocations_mean_forms, targets_stand, values_stand,
};
pub use object::Object;
