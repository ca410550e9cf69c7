//! Statements that put items whose sizes layout settles: alignments, `.org`, and numbers in groups of seven bits.
#![tactic(auto)]

mod alignments;
mod leb128_numbers;
mod orgs;

pub use alignments::{place_align, put_align};
pub use leb128_numbers::place_leb128;
pub use orgs::place_org;
