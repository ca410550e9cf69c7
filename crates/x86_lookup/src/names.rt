//! The names of rows by their mnemonics, in either case.

ghost use Rattle.std.specs.Prelude.{◌≡◌, option_map, Some};
ghost use Rattle.std.specs.List.{find};
ghost use Rattle.x86_lookup.specs.Names.{text_of, has_text, is_of, the_att_names, the_intel_names, the_att_slots, the_intel_slots, mixed, slot_at, name_at, name_by};

use crate::att_mnemonics::ATT_NAMES;
use crate::intel_mnemonics::INTEL_NAMES;
use crate::slots::{ATT_SLOTS, INTEL_SLOTS};
use x86_insn::Mnemonic;

/// How the operands of a mnemonic are read beside its rows' patterns.
#[derive(Clone, Copy)]
pub enum Rule {
    Plain,
    /// The number is the last operand, and is not written.
    Predicate(u8),
    /// Without a count it is by 1.
    ByOne,
    /// Of two operands, without a count, it is by the register cl.
    ByCl,
    /// A register before an immediate stands for the first two operands.
    OneForTwo,
    /// Of two operands, memory is the first.
    MemoryFirst,
    /// Of two operands, memory is the first, or else the accumulator.
    AccumulatorFirst,
    /// The register xmm0 may be written as the last operand (the first in AT&T syntax).
    WithXmm0,
    /// An expression is a branch target.
    Branch,
    /// With a 64-bit register the name is `MOVQ`.
    QuadIsMovq,
    /// Memory without a size has 32 bits.
    LongMemory,
    /// Where no row of the name has such operands, it is `MOV` of 64 bits.
    OrMove,
    /// By the size of the source it is this name, or one of those behind it. A letter of a size is
    /// that of the source.
    BySource,
    /// Without operands it is the string instruction of this name, of 32 bits.
    OrString(u16),
}

/// A mnemonic.
#[derive(Clone, Copy)]
pub struct Named {
    /// Its text in lower case, with blanks behind it.
    pub padded: [u8; 11],
    /// How many bytes the text has.
    pub length: u8,
    /// The name of the rows.
    pub name: Mnemonic,
    /// The operand size in bits that it fixes, or 0.
    pub size: u8,
    /// How its operands are read.
    pub rule: Rule,
}

impl Named {
    /// The text, in lower case.
    pub fn text(&self) -> &[u8]
        ensures { result.now ≡ text_of self.now }
    {
        let length = usize::from(self.length);
        if length <= 11 {
            &self.padded[..length]
        } else {
            &self.padded
        }
    }
}

/// The mnemonics of AT&T syntax.
#[tactic(auto, unfolding(crate::specs::Names::the_att_names))]
pub fn att_names() -> &'static [Named]
    ensures { result.now ≡ the_att_names }
{
    &ATT_NAMES
}

/// The mnemonics of Intel syntax.
#[tactic(auto, unfolding(crate::specs::Names::the_intel_names))]
pub fn intel_names() -> &'static [Named]
    ensures { result.now ≡ the_intel_names }
{
    &INTEL_NAMES
}

/// Where the mnemonics of AT&T syntax stand.
#[tactic(auto, unfolding(crate::specs::Names::the_att_slots))]
pub(crate) fn att_slots() -> &'static [u16]
    ensures { result.now ≡ the_att_slots }
{
    &ATT_SLOTS
}

/// Where the mnemonics of Intel syntax stand.
#[tactic(auto, unfolding(crate::specs::Names::the_intel_slots))]
fn intel_slots() -> &'static [u16]
    ensures { result.now ≡ the_intel_slots }
{
    &INTEL_SLOTS
}

/// The hash of a text: by the low five bits of its bytes, in which the cases of letters are alike.
pub(crate) fn mixed(text: &[u8]) -> u64
    ensures { result ≡ mixed 0 text.now }
{
    let mut hash: u64 = 0;
    for byte in text {
        hash = hash
            .wrapping_add(u64::from(byte % 32))
            .wrapping_mul(0x9E37_79B9_7F4A_7C15);
    }
    hash
}

/// The index by a hash: a shift by its highest byte, and then the index itself.
pub(crate) fn slot_at(slots: &[u16], hash: u64) -> Option<u16>
    ensures { result ≡ slot_at slots.now hash }
{
    let shift = *slots.get((hash / 0x100_0000_0000_0000) as usize)?;
    let place = (hash / 0x1_0000_0000 % 1024 + u64::from(shift)) % 1024;
    Some(*slots.get(256 + place as usize)?)
}

/// Whether the mnemonic has the text, in either case: most texts are in lower case.
#[inline(always)]
#[tactic(auto, using(crate::proofs::NameLookups::same_text))]
fn has_text(text: &[u8], named: &Named) -> bool
    ensures { result ≡ has_text text.now named.now }
{
    let own = named.text();
    text == own || text.eq_ignore_ascii_case(own)
}

/// The mnemonic at the index, if it has the text.
#[inline(always)]
pub(crate) fn name_at(names: &'static [Named], text: &[u8], index: u16) -> Option<&'static Named>
    ensures { let due = name_at names.now text.now (Some index) in
        option_map (λ named. named.now) result ≡ due }
{
    match names.get(usize::from(index)) {
        Some(named) if has_text(text, named) => Some(named),
        _ => None,
    }
}

/// The mnemonic of the text, at its index.
#[inline(always)]
pub(crate) fn name_by(names: &'static [Named], slots: &[u16], text: &[u8]) -> Option<&'static Named>
    ensures { option_map (λ named. named.now) result ≡ name_by names.now slots.now text.now }
{
    match slot_at(slots, mixed(text)) {
        Some(index) => name_at(names, text, index),
        None => None,
    }
}

/// The first of the mnemonics that names these rows and fixes this size, if there is one: its text
/// shows the name in documents and messages.
pub fn shown_as(names: &'static [Named], name: &Mnemonic, size: u8) -> Option<&'static Named>
    ensures { let due = find (is_of name.now.0 size) names.now in
        option_map (λ named. named.now) result ≡ due }
{
    names
        .iter()
        .find(|named| named.name.0 == name.0 && named.size == size)
}

/// The mnemonic of Intel syntax with this text, in either case, if there is one.
#[tactic(auto, using(crate::proofs::NameLookups::intel_found))]
pub fn intel_name(text: &[u8]) -> Option<&'static Named>
    ensures { option_map (λ named. named.now) result ≡ find (has_text text.now) the_intel_names }
{
    name_by(intel_names(), intel_slots(), text)
}
