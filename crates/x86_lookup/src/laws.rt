//! What holds of all mnemonics.

ghost use Rattle.std.specs.Prelude.{ℕ, List, IsTrue};
ghost use Rattle.std.specs.List.{list_all};
ghost use Rattle.x86_lookup.specs.declared.names.Named.{Named};
ghost use Rattle.x86_lookup.specs.Names.{the_att_names, the_intel_names, has_rows, is_whole};
ghost use Rattle.x86_lookup.specs.Mnemonics.{IsTextExactly, is_known, LettersFix, RowsAreNamed};
ghost use Rattle.x86_lookup.specs.BareInstructions.{BareCodesRead, BareCodesStand, BareRowsAreAlone};

/// Rows have the name of each mnemonic and the size that it fixes, and its text is whole.
pub fn mnemonics_have_rows()
    ensures att { IsTrue (list_all has_rows the_att_names) }
    ensures intel { IsTrue (list_all has_rows the_intel_names) }
    ensures att_texts { IsTrue (list_all is_whole the_att_names) }
    ensures intel_texts { IsTrue (list_all is_whole the_intel_names) }
{}

/// The mnemonics of AT&T syntax are complete: a text is one exactly where it is that of a mnemonic, or
/// of one and a letter that fixes its operand size; the rows' own names, which Intel syntax has, are
/// among them; and a mnemonic that fixes no size takes each letter, for the rows of that size. So a
/// text is a mnemonic of a row exactly where it is one of its names, or one and the letter of its size.
#[tactic(auto, using(crate::proofs::MnemonicTexts::texts_exactly, crate::proofs::MnemonicTexts::all_known, crate::proofs::MnemonicTexts::letters_fix, crate::proofs::RowNames::rows_named))]
pub fn mnemonics_are_complete()
    ensures exactly { (text : List ℕ) (named : Named) → IsTextExactly text named }
    ensures own { IsTrue (list_all is_known the_intel_names) }
    ensures lettered { LettersFix }
    ensures rows { RowsAreNamed }
{}

/// The bytes of an instruction without operands read as it, and not all of them are 0. A mnemonic has at
/// most one row without operands.
#[tactic(auto, using(crate::proofs::BareReadings::codes_read, crate::proofs::BareReadings::codes_stand, crate::proofs::BareReadings::rows_alone))]
pub fn bare_codes_read()
    ensures read { BareCodesRead }
    ensures stand { BareCodesStand }
    ensures alone { BareRowsAreAlone }
{}
