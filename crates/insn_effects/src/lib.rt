//! What instructions do to the stack and to the callee-saved registers.
#![tactic(auto)]

mod effects;
mod laws;
mod moving;
mod places;
mod reading;
mod registers;
mod stacking;
mod writing;

pub use effects::{Effect, Role};
pub use laws::{registers_are_numbered, worked_effects, writes_are_listed};
pub use reading::effect_of;
pub use registers::{NONE, SEVEN};
