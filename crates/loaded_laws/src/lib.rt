//! What holds of the bytes of sections once they are linked.
#![tactic(auto)]

mod beside;
mod codes;

pub use beside::{
    bytes_stand_beside, fields_stand_beside, layouts_keep_counts, relocations_beside,
    values_are_alone,
};
pub use codes::loaded_beside;
