//! Calls of single layers that no program reaches, each written as text: expressions and tokens, layouts, frame tables.
#![tactic(auto)]

mod expressions;
mod frames;
mod layouts;
mod texts;

pub use expressions::{
    write_folded, write_form, write_names, write_parsed, write_settled, write_shown, write_value,
};
pub use frames::{write_entry, write_row};
pub use layouts::Case;
pub use texts::{write_messages, write_tokens};
