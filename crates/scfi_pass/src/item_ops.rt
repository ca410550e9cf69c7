//! Instructions of frame tables.

use cfi_rows::CfiOp;

/// An instruction of a frame table, and the item from which on it holds.
#[derive(Clone, Copy)]
pub struct ItemOp {
    pub item: usize,
    pub op: CfiOp,
}
