//! What the lines of a source are refused for.

ghost use Rattle.std.specs.Prelude.{◌≡◌, ◌≤◌, length};
ghost use Rattle.asm_lines.specs.Faults.{earlier, nul_offset, nul_found};

use crate::line_numbers::line_of;
use asm_base::Refusal;
use thiserror::Error;

/// A fault of the lines of a source, with the line that it stands on. Lines past the last `u32` have that number.
#[derive(Clone, Copy, Debug, PartialEq, Eq, Error)]
pub enum LineCause {
    /// A byte 0.
    #[error("NUL byte in source")]
    NulByte(u32),
    /// A string does not close on its line.
    #[error("string is not closed")]
    UnclosedString(u32),
    /// A block comment does not close.
    #[error("comment is not closed")]
    UnclosedComment(u32),
    /// A statement has more than 65536 bytes, those of comments not counted.
    #[error("statement is too long")]
    StatementTooLong(u32),
}

/// Why the lines of a source are not read: they have a fault, or memory ran out.
pub type LineFault = Refusal<LineCause>;

/// A fault, and the offset where it stands, in bytes from the beginning of the source.
#[derive(Clone, Copy, Debug)]
pub(crate) struct Found {
    pub offset: usize,
    pub fault: LineCause,
}

/// Of two faults the one that stands first, and of two at one place the first of these two.
pub(crate) fn earlier(one: Option<Found>, other: Found) -> Found
    ensures { Some result ≡ earlier one (Some other) }
{
    match one {
        Some(one) if one.offset <= other.offset => one,
        _ => other,
    }
}

/// The offset of the first byte 0, or the length.
fn nul_offset(source: &[u8]) -> usize
    ensures value { result ≡ nul_offset source.now }
    ensures within { result ≤ length source.now }
{
    source.iter().take_while(|byte| **byte != 0).count()
}

/// The first byte 0 of a source.
#[tactic(auto, unfolding(crate::specs::Faults::nul_found))]
pub(crate) fn nul_found(source: &[u8]) -> Option<Found>
    ensures { result ≡ nul_found source.now }
{
    let offset = nul_offset(source);
    if offset < source.len() {
        let fault = LineCause::NulByte(line_of(source, offset));
        Some(Found { offset, fault })
    } else {
        None
    }
}
