//! The operands of statements, read from their tokens.
#![tactic(auto)]

mod constants;
mod directive_operands;
mod leaves;
mod levels;
mod numbers;
mod place_faults;
mod plain_names;
mod strings;
mod sum_operands;
mod sums;
mod trees;
mod up_to_three;

pub use constants::{
    FrontConstant, FrontValue, constant_operand, front_constant, front_value, lone_constant,
    single_constant,
};
pub use directive_operands::{
    Operands, begins_assignment, begins_with_dot, begins_with_label, begins_with_place,
    checked_name, has_dot, is_dot, is_mark, is_name, is_number, names_symbol, string_of,
    symbol_name,
};
pub use leaves::{Leaves, Numbers, operator_value};
pub use place_faults::{PlaceCause, PlaceFault};
pub use plain_names::{bare_name, lone_name, names, needed_name, needed_string};
pub use strings::joined_strings;
pub use sum_operands::{FewSums, LongSums, NamedSum, few_sums, long_sums, named_sum};
pub use sums::{Addend, LongSum, Sum, Summand, long_sum_operand, minus, sum_operand};
pub use trees::{NamedExpr, constant_in, expression_of, expressions, named_tree};
pub use up_to_three::{UpToThree, constant_if, no_more, up_to_three_constants, up_to_three_trees};
