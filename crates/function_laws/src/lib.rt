//! The functions of a source whose frame tables are worked out, in the bytes of their sections.
#![tactic(auto)]

mod addresses;
mod jumping;
mod recovered;
mod tabled;

pub use addresses::starts_are_addresses;
pub use jumping::function_jumps_are_laid;
pub use recovered::function_tables_recover;
pub use tabled::functions_are_tabled;
