//! The mnemonic of AT&T syntax that a text is: the one that has it, or else the one that has it without
//! its last letter, which fixes the operand size.

ghost use Rattle.std.specs.Prelude.{◌≡◌, option_map};
ghost use Rattle.x86_lookup.specs.Mnemonics.{letter_size, last_size, stem, of_size, whole_mnemonic, lettered, att_mnemonic};

use crate::names::{Named, att_names, att_slots, name_by};

/// A mnemonic as it was found.
#[derive(Clone, Copy)]
pub struct FoundName {
    /// The mnemonic.
    pub named: &'static Named,
    /// The operand size in bits that it fixes, or that a letter behind it does, or 0.
    pub size: u8,
}

/// The mnemonic of AT&T syntax that has this text, in either case, if there is one.
#[inline(always)]
#[tactic(auto, unfolding(crate::specs::Mnemonics::whole_mnemonic), using(crate::proofs::NameLookups::att_found))]
fn whole_name(text: &[u8]) -> Option<&'static Named>
    ensures { option_map (λ named. named.now) result ≡ whole_mnemonic text.now }
{
    name_by(att_names(), att_slots(), text)
}

/// The operand size in bits that a small letter fixes, or 0.
fn letter_size(letter: u8) -> u8
    ensures { result ≡ letter_size letter }
{
    match letter {
        b'b' => 8,
        b'w' => 16,
        b'l' => 32,
        b'q' => 64,
        _ => 0,
    }
}

/// The operand size that the last letter of a text fixes, or 0.
fn last_size(text: &[u8]) -> u8
    ensures { result ≡ last_size text.now }
{
    match text.last() {
        Some(letter) => letter_size(letter.to_ascii_lowercase()),
        None => 0,
    }
}

/// The text without its last letter.
fn stem(text: &[u8]) -> &[u8]
    ensures { result.now ≡ stem text.now }
{
    &text[..text.len().saturating_sub(1)]
}

/// The mnemonic of the text without its last letter, which fixes the operand size.
#[inline(never)]
fn lettered_name(text: &[u8]) -> Option<FoundName>
    ensures { let due = lettered text.now in
        option_map (λ found. of_size found.named.now found.size) result ≡ due }
{
    let size = last_size(text);
    if size == 0 {
        return None;
    }
    match whole_name(stem(text)) {
        Some(named) if named.size == 0 => Some(FoundName { named, size }),
        _ => None,
    }
}

/// The mnemonic of AT&T syntax with this text, in either case, if there is one: most texts are whole.
#[inline(always)]
#[tactic(auto, unfolding(crate::specs::Mnemonics::att_mnemonic))]
pub fn att_name(text: &[u8]) -> Option<FoundName>
    ensures { let due = att_mnemonic text.now in
        option_map (λ found. of_size found.named.now found.size) result ≡ due }
{
    match whole_name(text) {
        Some(named) => Some(FoundName {
            named,
            size: named.size,
        }),
        None => lettered_name(text),
    }
}
