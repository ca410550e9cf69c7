//! What is placed so far, and what statements place by values: data, space, sizes and assignments.
#![tactic(auto)]

mod assemblers;
mod assignments;
mod constant_data;
mod data_items;
mod few_sums;
mod known_operands;
mod laws;
mod long_sums;
mod operand_constants;
mod sizes;
mod spaces;
mod stacks;
mod texts;

pub use assemblers::{Assembler, Placed};
pub use known_operands::KnownOperands;
pub use laws::{
    few_bytes_are_a_fill, no_name_is_allowed, sums_have_the_forms_of_trees, texts_are_no_place,
};
pub use operand_constants::{constant_operands, only_number};
pub use stacks::Entered;
