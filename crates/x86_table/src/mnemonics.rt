//! The names of rows, by their numbers in the order of the table and its chapters.

pub mod integers;
pub mod vectors;
