//! The instruction table, and what bytes read as.
#![tactic(auto)]

mod chapters;
mod forms;
mod laws;
pub mod mnemonics;
mod parts;
mod rex;
mod spelling;
mod table;

pub use forms::{
    Destinations, Immediate, Implied, Lead, Map, Outputs, Pattern, Repeat, Rm, Row, Shape,
    StoreKind, Words,
};
pub use laws::{
    fields_are_narrow, fields_have_bytes, heads_tell_rows, instruction_length, leads_in_order,
    opcodes_stand, read_one_way, rows_are_apart, worked_order, worked_readings, worked_writes,
};
pub use parts::{Parts, Place, Width};
pub use rex::rex_bits;
pub use spelling::{Bytes, bytes_of};
pub use table::ROWS;
