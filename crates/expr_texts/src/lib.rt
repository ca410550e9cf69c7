//! The texts of expressions: their grammar, the trees that they are read as, and how trees are shown.
#![tactic(auto)]

mod laws;
mod leaves;
mod numbers;
mod operators;
mod parsing;
mod showing;
mod spelling;
mod uncounted;

pub use laws::{
    each_part_counts_once, faults_of_an_expression, leaves_are_single, one_tree, parts_are_few,
    read_is_written, shown_is_read, written_is_read,
};
pub use leaves::{between_quotes, character_code, is_symbol_name};
pub use numbers::{all_digits, decimal_number, spelled_number};
pub use operators::{closes, level_of, opens, operator_from, operator_of, prefix_of};
pub use parsing::{counted_parse, counted_parse_front};
pub use showing::{Piece, Shown, shown_text};
pub use uncounted::{parse, parse_front};
