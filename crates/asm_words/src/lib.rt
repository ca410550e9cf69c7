//! The words of statements: directives, and what the operands of sections and of space say.
#![tactic(auto)]

mod directives;
mod paddings;
mod section_defaults;
mod section_operands;
mod slots;
mod space_sizes;
mod symbol_kinds;

pub use directives::{
    AlignedBy, DIRECTIVE_SLOTS, DIRECTIVES, Directive, DirectiveRow, FrameDirective,
    InitialSection, Syntax, directive_of, directives_apart, directives_are_whole,
};
pub use paddings::{align_of, org_of};
pub use section_defaults::{DefaultHeader, default_header};
pub use section_operands::{
    GroupWords, SectionWords, said_flags, said_group, said_kind, says_merge, section_words,
};
pub use space_sizes::{is_negative, log_of, space_of, space_size, unit_size, units_of};
pub use symbol_kinds::{BareKind, NamedKind, bare_kind, named_kind};
