//! From the symbols of a source to the symbol table of its object (gABI, chapter 4, "Symbol Table").
#![tactic(auto)]

mod aliases;
mod entries;
mod listing;
mod numbers;
mod symbol_values;
mod tables;
mod targets;

pub use entries::TableSymbol;
pub use listing::{Listing, list_symbols};
pub use numbers::Numbers;
pub use symbol_values::{Placement, binding_of, has_flag, is_file_local, is_local, size_value};
pub use tables::{SymbolTable, symbol_table};
pub use targets::{Named, Target};
