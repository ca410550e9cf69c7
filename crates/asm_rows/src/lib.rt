//! What each row makes: its status, its messages and its object, as text.
#![tactic(auto)]

mod calls;
mod frames;
mod objects;
mod relocations;
mod reports;
mod runs;
mod sections;
mod shown_lines;
mod symbols;

pub use reports::report_rows;
