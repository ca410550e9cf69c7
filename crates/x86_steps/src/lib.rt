//! What instructions do, and that this is of their effects.
#![tactic(auto)]

mod laws;

pub use laws::{
    effects_hold, fillings_are_covered, flows_hold, worked_actions, worked_changes,
    worked_operands, worked_readings, worked_steps,
};
