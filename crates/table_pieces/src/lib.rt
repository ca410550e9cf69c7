//! Tables that stand behind all statements: pieces that are put last into their sections, and the labels of places.
#![tactic(auto)]

mod ends;
mod laws;
mod marks;
mod putting;

pub use ends::SectionEnd;
pub use laws::{
    distances_have_two_terms, ends_are_counted, pieces_are_counted, pieces_are_found,
    pieces_bring_standing_labels, pieces_stand_behind, places_are_named, sections_keep_places,
};
pub use marks::{Distance, Mark};
pub use putting::{
    Table, put_address, put_advance, put_field, put_leb128, put_number, put_padding, put_plain,
    put_pointer,
};
