//! From the items of a function to the graph of its control flow.
#![tactic(auto)]

mod fields;
mod graphs;
mod landing;
mod laws;
mod making;
mod nodes;
mod pointing;
mod targets;

pub use fields::FinalForms;
pub use graphs::Graph;
pub use laws::{
    added_labels_change_no_target, control_goes, last_item_is_found, lone_symbol_is_left,
    refusals_are_told, successors_are_items, targets_are_labels, worked_graphs,
};
pub use nodes::Node;
