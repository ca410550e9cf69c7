//! Sections and their items, before and after they have addresses and sizes.
#![tactic(auto)]

mod entering;
mod faults;
mod fields;
mod flags;
mod groups;
mod item_list;
mod items;
mod known_extents;
mod laws;
mod parts;
mod phases;
mod roles;
mod section_keys;
mod section_list;
mod substituting;

pub use faults::{FragCause, FragFault};
pub use fields::{Field, FieldSize};
pub use flags::{
    SHT_FINI_ARRAY, SHT_INIT_ARRAY, SHT_NOBITS, SHT_NOTE, SHT_PREINIT_ARRAY, SHT_PROGBITS,
    SectionFlags,
};
pub use groups::Group;
pub use items::Frag;
pub use known_extents::KnownExtent;
pub use laws::stretches_are_fixed;
pub use parts::Section;
pub use phases::{Laid, Loose, Phase};
pub use roles::{FieldRole, own_place};
pub use section_list::Sections;
pub use substituting::Substitution;
