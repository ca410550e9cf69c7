//! What holds of all texts.

ghost use Rattle.std.specs.Prelude.{◌≡◌, IsTrue, List, Some, true};
ghost use Rattle.std.specs.List.{list_all};
ghost use Rattle.x86_table.specs.Rows.{the_rows};
ghost use Rattle.att_texts.specs.Completeness.{has_mnemonic};
ghost use Rattle.att_texts.specs.Printable.{has_low};
ghost use Rattle.x86_lookup.specs.declared.names.Named.{Named};
ghost use Rattle.att_insns.specs.InsnTexts.{InsnText};
ghost use Rattle.att_texts.specs.AttTexts.{mnemonic_for};
ghost use Rattle.att_texts.specs.TextLaws.{AttTextsSpell, FieldsPrint, InstructionsPrint, IsChosen, PiecesSpell};
ghost use Rattle.asm_base.specs.Tokens.{tokens_of};
ghost use Rattle.att_texts.specs.Worked.{WorkedAtt};
ghost use Rattle.att_texts.specs.Pieces.{PrintedPiece, are_apart, text_in, tokens_in};

/// The tokens of a text in pieces, of which no two words stand side by side, are those pieces.
#[tactic(auto, using(crate::proofs::PieceTokens::pieces_are_tokens))]
pub fn pieces_are_tokens()
    ensures { (pieces : List PrintedPiece) → are_apart pieces ≡ true
        → tokens_of (text_in pieces) ≡ tokens_in 0 pieces }
{
    asm_lines::one_list_of_tokens();
}

/// Texts of instructions, worked out by hand.
#[tactic(auto, using(crate::proofs::WorkedTexts::worked_att))]
pub fn worked_texts()
    ensures { WorkedAtt }
{}

/// What is written for an instruction spells it, in AT&T syntax.
#[tactic(auto, using(crate::proofs::AttLaws::att_text_spells))]
pub fn att_texts_spell()
    ensures { AttTextsSpell }
{
    pieces_are_tokens();
    x86_lookup::mnemonics_are_complete();
}

/// The mnemonic is the first that does: a suffix is exactly where without it the text does not
/// spell just this instruction.
#[tactic(auto, using(crate::proofs::AttLaws::chosen_is))]
pub fn suffixes_are_needed()
    ensures { (insn : InsnText) (named : Named) → mnemonic_for insn ≡ Some named → IsChosen insn named }
{}

/// Each row of the table has a mnemonic, where it has registers and where it has memory.
#[tactic(auto, using(crate::proofs::MnemonicFacts::all_have_mnemonics))]
pub fn rows_have_mnemonics()
    ensures { IsTrue (list_all has_mnemonic the_rows) }
{}

/// The pieces of a number spell it, and those of a place; a register's name names it.
#[tactic(auto, using(crate::proofs::AttLaws::pieces_spell))]
pub fn pieces_spell()
    ensures { PiecesSpell }
{}

/// What a row shows of fields that fit it can be printed: its registers have names, an index is not rsp, and its
/// numbers have 64 bits. No row has ah to bh by itself.
#[tactic(auto, using(crate::proofs::FittingFields::fields_print, crate::proofs::FittingFields::instructions_print, crate::proofs::FittingFields::rows_low))]
pub fn fitting_fields_print()
    ensures operands { FieldsPrint }
    ensures instructions { InstructionsPrint }
    ensures rows { IsTrue (list_all has_low the_rows) }
{}
