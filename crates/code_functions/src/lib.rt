//! Functions of a source, and the items that are put into their sections.
#![tactic(auto)]

mod extents;
mod functions;
mod items;
mod laws;
mod lists;
mod recording;
mod spans;
mod tallies;

pub use extents::{Extent, SectionEnds};
pub use functions::Function;
pub use items::CodeItem;
pub use laws::worked_functions;
pub use recording::Functions;
