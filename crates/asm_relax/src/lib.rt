//! The layout of sections: where each item stands, and what the fields hold.
#![tactic(auto)]

mod faults;
mod field_values;
mod finals;
mod laws;
mod laying;
mod places;
mod plan_states;
mod planning;
mod range_checks;

pub use faults::LayoutFault;
pub use field_values::{FieldView, counted, field_address, has_value, held_value, look_beside};
pub use finals::{FinalView, end_value, final_form, laid_value};
pub use laws::{
    all_else_is_kept, distances_lead_to_labels, fields_hold_their_distances,
    items_have_room_for_their_values, items_stand_in_row, layouts_keep_sections, rows_rise,
    settled_by_the_ranking, settled_is_placed, settled_items_have_room, sizes_add_up,
    stretches_keep_distance, values_are_in_range,
};
pub use places::{address_in, address_of, section_size};
pub use plan_states::PlanState;
pub use planning::{Plan, Settled};
