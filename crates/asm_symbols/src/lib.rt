//! The symbol map: the symbols of a source in the order in which they are first named, and what
//! is known of each.
#![tactic(auto)]

mod assigning;
mod changing;
mod copies;
mod counting;
mod defining;
mod entries;
mod faults;
mod interning;
mod laws;
mod looking;
mod name_chains;
mod name_index;
mod symbol_map;

pub use asm_expr::SymId;
pub use entries::{Binding, Definition, Kind, Meaning, Spot, Symbol, SymbolAttribute, Visibility};
pub use faults::{SymCause, SymFault};
pub use laws::{
    counted_are_labels, leads_is_decided, limits_are_kept, names_are_apart, no_form_leads_back,
    order_is_kept, weak_wins,
};
pub use looking::is_weak;
pub use symbol_map::Symbols;
