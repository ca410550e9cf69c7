//! The texts of instructions in AT&T syntax.
#![tactic(auto)]

mod laws;

pub use laws::{
    att_texts_spell, fitting_fields_print, pieces_are_tokens, pieces_spell, rows_have_mnemonics,
    suffixes_are_needed, worked_texts,
};
