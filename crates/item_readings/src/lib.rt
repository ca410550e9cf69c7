//! What is read where the items of functions stand.
#![tactic(auto)]

mod laws;

pub use laws::{
    instructions_are_covered, items_are_read, no_operations_do_nothing, worked_execution,
    worked_loop,
};
