//! Rows of frame tables, and what the bytes of their instructions, pointers and common entries mean.
#![tactic(auto)]

mod commons;
mod differences;
mod instructions;
mod operands;
mod pointers;
mod rows;

pub use commons::{CommonBytes, CommonForm, common, common_head, common_tail};
pub use differences::diff;
pub use instructions::next_insn;
pub use operands::four_bytes;
pub use pointers::{PointerEncoding, size_if};
pub use rows::{CfaRow, CfiBytes, CfiOp, CfiOps, Insn, Rule, blank_row};
