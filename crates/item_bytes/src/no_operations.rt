//! What padding of code is filled with.

ghost use Rattle.std.specs.Prelude.{◌≡◌, ◌≤◌, ◌<◌, ◌++◌, ℕ, length, replicate};
ghost use Rattle.std.specs.List.{concat};
ghost use Rattle.item_bytes.specs.NoOperations as spec;

/// The no-operation of so many bytes (Intel SDM, volume 2, "NOP", recommended multi-byte sequences).
#[tactic(auto, unfolding(crate::specs::NoOperations::no_operation))]
pub fn no_operation(length: usize) -> &'static [u8]
    requires some { 1 ≤ length }
    requires most { length ≤ 9 }
    ensures { result.now ≡ spec.no_operation length }
{
    match length {
        1 => &[0x90],
        2 => &[0x66, 0x90],
        3 => &[0x0f, 0x1f, 0x00],
        4 => &[0x0f, 0x1f, 0x40, 0x00],
        5 => &[0x0f, 0x1f, 0x44, 0x00, 0x00],
        6 => &[0x66, 0x0f, 0x1f, 0x44, 0x00, 0x00],
        7 => &[0x0f, 0x1f, 0x80, 0x00, 0x00, 0x00, 0x00],
        8 => &[0x0f, 0x1f, 0x84, 0x00, 0x00, 0x00, 0x00, 0x00],
        _ => &[0x66, 0x0f, 0x1f, 0x84, 0x00, 0x00, 0x00, 0x00, 0x00],
    }
}

/// What fills a padding of code.
#[derive(Clone, Copy)]
pub struct NoOperationParts {
    /// How many no-operations of 9 bytes.
    pub longest: u64,
    /// The shorter one behind them, or no bytes.
    pub last: &'static [u8],
}

/// As many no-operations of 9 bytes as fit, and one for the rest.
#[tactic(auto, unfolding(crate::specs::NoOperations::no_operation, crate::specs::NoOperations::no_operations))]
pub fn no_operation_parts(size: u64) -> NoOperationParts
    ensures whole { concat (replicate result.longest (spec.no_operation 9)) ++ result.last.now
        ≡ spec.no_operations size }
    ensures last { length result.last.now < 9 }
{
    let rest = (size % 9) as usize;
    NoOperationParts {
        longest: size / 9,
        last: if rest == 0 { &[] } else { no_operation(rest) },
    }
}

/// A no-operation of so many bytes has so many, and what fills a padding has its size.
pub fn no_operations_have_their_size()
    ensures one { (size : ℕ) → size ≤ 9 → length (spec.no_operation size) ≡ size }
    ensures all { (size : ℕ) → length (spec.no_operations size) ≡ size }
{}
