//! Why what is known of the stack is true: along executions from item to item, over bytes, and by
//! frame tables.
#![tactic(auto)]

mod bytes;
mod items;
mod laid;
mod tables;

pub use bytes::{bytes_are_items, bytes_recover, known_is_true_in_bytes};
pub use items::{
    effects_are_followed, exits_restore, known_is_true, rows_are_supported, rows_recover,
};
pub use laid::{inner_jumps_are_plain, nodes_suit_items};
pub use tables::tables_recover;
