//! The slot of a name: where its row's number stands in the table of directives.

ghost use Rattle.std.specs.Prelude.{◌≡◌, ◌<◌, length};
ghost use Rattle.asm_words.specs.Slots.{slot, slot_of};

/// How many slots there are.
const SLOTS: usize = 256;

/// Where the sixth byte of a name stands: the first ones of `.cfi_` directives are the same.
const SIXTH: usize = 5;

/// The slot of a name of this length with these bytes, which are in small letters.
fn slot_of(length: usize, second: u8, sixth: u8, last: u8) -> usize
    ensures value { result ≡ slot_of length second sixth last }
    ensures within { result < 256 }
{
    (length % SLOTS + 187 * second as usize + 167 * sixth as usize + 32 * last as usize) % SLOTS
}

/// The slot of a name, in either case. Multipliers and size are chosen so that no two names share one.
#[tactic(auto, using(crate::proofs::SlotLemmas::long_slot, crate::proofs::SlotLemmas::short_slot))]
pub(crate) fn slot(name: &[u8]) -> usize
    ensures value { result ≡ slot name.now }
    ensures within { result < 256 }
{
    if name.len() < 2 {
        return 0;
    }
    let last = name.len() - 1;
    slot_of(
        name.len(),
        name[1].to_ascii_lowercase(),
        name[last.min(SIXTH)].to_ascii_lowercase(),
        name[last].to_ascii_lowercase(),
    )
}
