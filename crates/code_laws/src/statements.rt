//! Statements of any kind.

ghost use Rattle.code_laws.specs.Statements.{StatementsAreLaid};

use crate::instructions::instructions_are_laid;
use crate::padding::{alignments_are_laid, data_are_laid};
use asm_place::{instructions_are_seen, placing_grows};
use scfi_laws::nodes_suit_items;

/// Each statement that puts an item into a section which is loaded, and is no direct jump, is laid
/// as that item: whatever is read where it is does what the item may do.
pub fn statements_are_laid()
    ensures { StatementsAreLaid }
{
    instructions_are_laid();
    alignments_are_laid();
    data_are_laid();
    nodes_suit_items();
    placing_grows();
    instructions_are_seen();
}
