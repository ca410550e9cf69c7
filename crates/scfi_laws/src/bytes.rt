//! Executions over the bytes of a section.

ghost use Rattle.scfi_laws.specs.ByteLaws.{BytesAreItems, KnownIsTrueInBytes, ReturnAddressStandsInBytes, RowsRecoverInBytes, ExitsRestoreInBytes};

/// Each place of a kept execution is held by an item, and an execution from item to item has come to
/// it, with the same memory and seven registers.
#[tactic(auto, using(crate::proofs::Joining::bytes_are_items))]
pub fn bytes_are_items()
    ensures { BytesAreItems }
{}

/// What is known and stands at the item that holds the place is true there; and where nothing
/// overwrites the return address, it stands.
#[tactic(auto, using(crate::proofs::BytesKnown::known_is_true_in_bytes, crate::proofs::BytesKnown::return_address_stands_in_bytes))]
pub fn known_is_true_in_bytes()
    ensures known { KnownIsTrueInBytes }
    ensures stands { ReturnAddressStandsInBytes }
{}

/// Where nothing overwrites the return address, each row that is supported at the item that holds the
/// place recovers the caller; and where an exit holds it, registers are as at entry.
pub fn bytes_recover()
    ensures rows { RowsRecoverInBytes }
    ensures exits { ExitsRestoreInBytes }
{}
