//! What reads back in the object of statements.
#![tactic(auto)]

mod framed;
mod statements;

pub use framed::framed_tables_are_ready;
pub use statements::{statements_read_back, tables_continue};
