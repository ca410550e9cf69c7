//! Instructions without operands, by their mnemonics.

ghost use Rattle.std.specs.Prelude.{◌≡◌, ◌==◌, ℕ, List, Some, false, option_map};
ghost use Rattle.std.specs.List.{list_all};
ghost use Rattle.x86_table.specs.Reads.{Reads};
ghost use Rattle.x86_lookup.specs.Names.{the_att_names, the_att_slots, mixed, name_at, slot_at};
ghost use Rattle.x86_lookup.specs.BareInstructions.{Coded, bare_instruction, bare_code};
ghost use Rattle.x86_lookup.specs.BareCodes.{the_codes, the_att_codes, code_bytes, code_of_number, code_at, code_by};

use crate::bare_codes::{ATT_CODES, CODES, Code};
use crate::names::{att_names, att_slots, mixed, name_at, slot_at};

impl Code {
    /// The bytes.
    #[inline(always)]
    fn bytes(&self) -> &[u8]
        ensures { result.now ≡ code_bytes self.now }
    {
        let length = usize::from(self.length);
        if length <= 4 {
            &self.padded[..length]
        } else {
            &self.padded
        }
    }
}

/// The codes of the rows without operands.
#[tactic(auto, unfolding(crate::specs::BareCodes::the_codes))]
fn codes() -> &'static [Code]
    ensures { result.now ≡ the_codes }
{
    &CODES
}

/// The numbers of the codes of mnemonics.
#[tactic(auto, unfolding(crate::specs::BareCodes::the_att_codes))]
fn att_codes() -> &'static [u8]
    ensures { result.now ≡ the_att_codes }
{
    &ATT_CODES
}

/// The bytes of the code of this number.
#[inline(always)]
fn code_of_number(number: u8) -> Option<&'static [u8]>
    ensures { option_map (λ bytes. bytes.now) result ≡ code_of_number number }
{
    match codes().get(usize::from(number)) {
        Some(code) => Some(code.bytes()),
        None => None,
    }
}

/// The bytes of the mnemonic at the index, if it has the text.
#[inline(always)]
fn code_at(text: &[u8], index: u16) -> Option<&'static [u8]>
    ensures { let due = code_at text.now (Some index) in
        option_map (λ bytes. bytes.now) result ≡ due }
{
    match name_at(att_names(), text, index) {
        None => None,
        Some(_) => match att_codes().get(usize::from(index)) {
            Some(number) => code_of_number(*number),
            None => None,
        },
    }
}

/// The bytes of the instruction without operands whose mnemonic of AT&T syntax has this text, in either
/// case, if there is one.
#[inline(always)]
pub fn bare_code(text: &[u8]) -> Option<&'static [u8]>
    ensures { option_map (λ bytes. bytes.now) result ≡ bare_code text.now }
{
    match slot_at(att_slots(), mixed(text)) {
        Some(index) => code_at(text, index),
        None => None,
    }
}
