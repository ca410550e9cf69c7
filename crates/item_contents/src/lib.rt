//! The contents of items: what fills space, what pads it, and what grows with the value that it holds.
#![tactic(auto)]

mod alignments;
mod contents;
mod fixed_sizes;
mod kinds;
mod laws;
mod pieces;
mod visiting;
mod walking;
mod zeros;

pub use alignments::{AskedAlignment, asked_alignment};
pub use contents::{Align, Content, Fill, Growing, Org};
pub use fixed_sizes::{FixedSize, fixed_size};
pub use kinds::{Growth, Padding};
pub use laws::{bytes_are_sized, zeros_are_known};
pub use pieces::{BytesOf, TakesBytes, put_bytes};
pub use visiting::FragVisit;
pub use walking::visit;
pub use zeros::{KnownZeros, are_zeros, is_known_zeros};
