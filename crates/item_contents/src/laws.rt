//! What holds of every item.

ghost use Rattle.std.specs.Prelude.{◌≡◌, ℕ, true, false, length};
ghost use Rattle.std.specs.List.{list_all};
ghost use Rattle.item_contents.specs.declared.contents.Content.{Content};
ghost use Rattle.item_contents.specs.Zeros.{is_zero};
ghost use Rattle.item_contents.specs.Contents.{MayHave, bytes_of, is_known_zeros};

use item_bytes::{
    advance_reads_back, jump_reads_back, leb128_reads_back, no_operations_have_their_size,
};

/// An item has as many bytes as its size says, where it may have that size.
pub fn bytes_are_sized()
    ensures { (content : Content) (size value : ℕ) → MayHave content size
        → length (bytes_of content size value) ≡ size }
{
    no_operations_have_their_size();
    jump_reads_back();
    leb128_reads_back();
    advance_reads_back();
}

/// An item is known to be zeros exactly where all its bytes are 0, whatever its size and value.
pub fn zeros_are_known()
    ensures known { (content : Content) (size value : ℕ) → is_known_zeros content ≡ true
        → list_all is_zero (bytes_of content size value) ≡ true }
    ensures other { (content : Content) → is_known_zeros content ≡ false
        → (size value : ℕ) × (MayHave content size)
        × (list_all is_zero (bytes_of content size value) ≡ false) }
{}
