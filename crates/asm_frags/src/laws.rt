//! What holds of every stretch of items.

ghost use Rattle.std.specs.Prelude.{◌≡◌, ◌+◌, ◌==◌, true, List, ◌++◌};
ghost use Rattle.std.specs.List.{list_all, sum_by};
ghost use Rattle.asm_frags.specs.declared.items.Frag.{Frag};
ghost use Rattle.item_contents.specs.FixedSizes.{is_fixed, fixed_bytes};
ghost use Rattle.asm_frags.specs.KnownExtents.{extent_of};

use crate::phases::Phase;

/// Items more add no break exactly where each has one possible size, and then add their sizes: two places of one section with as
/// many breaks before them are as far apart as their plain bytes and the bytes of their extents.
#[tactic(auto, using(crate::proofs::StretchLemmas::breaks_tell, crate::proofs::StretchLemmas::bytes_add))]
pub fn stretches_are_fixed<P: Phase>()
    ensures breaks { (before more : List (Frag P P.Address))
        → ((extent_of (before ++ more)).breaks == (extent_of before).breaks)
        ≡ list_all (λ item. is_fixed item.content) more }
    ensures bytes { (before more : List (Frag P P.Address))
        → list_all (λ item. is_fixed item.content) more ≡ true
        → (extent_of (before ++ more)).bytes
        ≡ (extent_of before).bytes + sum_by (λ item. fixed_bytes item.content) more }
{}
