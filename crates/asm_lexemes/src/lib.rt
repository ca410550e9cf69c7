//! What stands at an offset of a source: a space, a token, or the end of a statement.
#![tactic(auto)]

mod classes;
mod lexemes;

pub use classes::{
    ByteClass, begins_long_operator, class_of, every_byte_has_its_class, is_name_byte, is_plain,
};
pub use lexemes::{Lexeme, lexeme_at};
