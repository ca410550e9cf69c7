//! Items of functions.

use asm_base::{Place, Pos};
use insn_effects::Effect;

/// An item of a function: an instruction, padding or data.
#[derive(Clone, Copy)]
pub struct CodeItem {
    /// What it does.
    pub effect: Effect,
    /// Where it begins, in the section of its function.
    pub place: Place,
    /// Which of the fields of that section holds the target of a direct jump or call.
    pub field: Option<u32>,
    /// Where its statement is.
    pub pos: Pos,
}
