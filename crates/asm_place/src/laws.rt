//! What holds of all that is placed.

ghost use Rattle.std.specs.Prelude.{◌≡◌, ◌≢◌, ◌≤◌, ◌^◌, ◌∷◌, ◌++◌, ℕ, Bool, List, length, Option, None, Some, Ok, Err, true, false, is_some, slice_get};
ghost use Rattle.std.specs.Result.{is_err};
ghost use Rattle.asm_base.specs.declared.positions.Pos.{Pos};
ghost use Rattle.asm_base.specs.Tokens.{SpelledToken};
ghost use Rattle.asm_lines.specs.NextStatements.{TokenStatement};
ghost use Rattle.asm_operands.specs.Operands.{begins_with_label};
ghost use Rattle.asm_place.specs.declared.bodies.Body.TheVariants.{Instruction};
ghost use Rattle.asm_place.specs.Bodies.{labels_of, body_of, tokens_in_two, front, place_in_two, AreLabels};
ghost use Rattle.asm_place.specs.Coding.{lone_code, insn_by};
ghost use Rattle.asm_place.specs.Effects.{insn_view};
ghost use Rattle.asm_place.specs.PutSections.{section_put};
ghost use Rattle.asm_words.specs.declared.directives.Syntax.{Syntax};
ghost use Rattle.asm_frags.specs.Writing.{LooseSection};
ghost use Rattle.x86_lookup.specs.BareInstructions.{Coded};
ghost use Rattle.asm_values.specs.State.{Placed, nothing_placed};
ghost use Rattle.asm_place.specs.Placing.{place_tokens};
ghost use Rattle.asm_place.specs.Sources.{pos_at, place, place_all};
ghost use Rattle.asm_lines.specs.Placing.{placed_in_order};
ghost use Rattle.asm_place.specs.declared.place_faults.FaultAt.{FaultAt};
ghost use Rattle.asm_place.specs.Faults.{is_file_too_large};
ghost use Rattle.att_insns.specs.InsnTexts.{InsnText};
ghost use Rattle.asm_place.specs.CodePlaces.{insn_written, insn_in, is_instruction, BeginsAsInstruction, IsInsnPut, InsnStands, jump_in};
ghost use Rattle.asm_place.specs.SymbolPlaces.{AreUpTo, PlacesStand};
ghost use Rattle.asm_place.specs.LinePlaces.{LinesFollow};
ghost use Rattle.asm_place.specs.ProcedurePlaces.{StandInOrder};
ghost use Rattle.asm_place.specs.SourceSizes.{IsSmall};
ghost use Rattle.asm_place.specs.JumpPlaces.{IsJump, IsJumpPut, JumpStands, jump_written};
ghost use Rattle.item_bytes.specs.Jumps.{jump_bytes, jump_distance};
ghost use Rattle.x86_table.specs.Reads.{Reads};
ghost use Rattle.item_bytes.specs.declared.jumps.Condition.{Condition as TheCondition};
ghost use Rattle.asm_place.specs.Instructions.{behind_labels, instruction_written, instruction_of, next_item, next_offset, Grows, IsPut, StandsAt};
ghost use Rattle.section_laws.specs.Within.{AreWithin};

use asm_frames::frame_directives_keep_all_else;
use asm_line_tables::line_directives_keep_all_else;
use asm_symbols::leads_is_decided;
use cfi_directives::{places_never_fall, procedures_are_sound};
use jump_laws::{conditions_are_numbered, jump_codes_read};
use section_laws::puts_stay_within;
use x86_encode::fields_stand_apart;
use x86_lookup::bare_codes_read;

/// Placing only adds bytes, fields and items, behind those that are there.
pub fn placing_grows()
    ensures { (statements : List TokenStatement) (before placed : Placed)
        → place_all statements before ≡ Ok placed → Grows before.sections placed.sections }
{
    frame_directives_keep_all_else();
    line_directives_keep_all_else();
}

/// Fields and items stand within the bytes of their section: so it is at the beginning, and placing
/// keeps it so.
pub fn placing_within()
    ensures begins { (no_warn : Bool) → AreWithin (nothing_placed no_warn).sections }
    ensures kept { (statements : List TokenStatement) (before placed : Placed)
        → place_all statements before ≡ Ok placed → AreWithin before.sections
        → AreWithin placed.sections }
{
    frame_directives_keep_all_else();
    line_directives_keep_all_else();
    puts_stay_within();
}

/// Statements that are placed as they are handed out are placed in order.
#[tactic(auto, using(crate::proofs::StatementSplits::in_order))]
pub fn placing_in_order()
    ensures { (statements : List TokenStatement) (before : Placed)
        → placed_in_order (λ placed statement. place statement placed) before statements
        ≡ place_all statements before }
{}

/// Only the reading of a file calls it too large: no step of placing does.
#[tactic(auto, using(crate::proofs::PlacingLaws::no_fault_of_reading))]
pub fn placing_is_not_reading()
    ensures { (statements : List TokenStatement) (before : Placed) (stop : FaultAt)
        → place_all statements before ≡ Err stop → is_file_too_large stop.fault ≡ false }
{}

/// A statement is its labels and then what stands behind them, of which it has the same faults.
#[tactic(auto, using(crate::proofs::SplitLaws::labels_first, crate::proofs::SplitLaws::no_label_behind, crate::proofs::SplitLaws::tokens_split, crate::proofs::SplitLaws::statement_split))]
pub fn statements_split()
    ensures whole { (tokens : List SpelledToken) → labels_of tokens ++ behind_labels tokens ≡ tokens }
    ensures bare { (tokens : List SpelledToken)
        → begins_with_label (behind_labels tokens) ≡ false }
    ensures tokens { (pos : Pos) (tokens : List SpelledToken) (placed : Placed)
        → place_tokens pos tokens placed ≡ tokens_in_two pos tokens placed }
    ensures statement { (s : TokenStatement) (placed : Placed)
        → place s placed ≡ place_in_two s placed }
{}

/// Labels change symbols alone.
#[tactic(auto, using(crate::proofs::SplitLaws::front_keeps))]
pub fn labels_change_symbols()
    ensures { (s : TokenStatement) (before after : Placed)
        → place (front s) before ≡ Ok after → AreLabels before after }
{}

/// A statement without labels changes one section at most of those that are there: the one that it puts
/// into.
pub fn statements_put_into_one_section()
    ensures { (s : TokenStatement) (before after : Placed) (number : ℕ) (held : LooseSection)
        → begins_with_label s.tokens ≡ false → place s before ≡ Ok after
        → slice_get before.sections number ≡ Some held
        → section_put (body_of s.tokens) before ≢ Some number
        → slice_get after.sections number ≡ Some held }
{
    frame_directives_keep_all_else();
    line_directives_keep_all_else();
}

/// A mnemonic that has bytes of its own is read where it stands alone; so each instruction that is placed
/// is seen.
pub fn instructions_are_seen()
    ensures alone { (syntax : Syntax) (tokens : List SpelledToken) (bytes : List ℕ)
        → lone_code syntax tokens ≡ Some bytes → is_err (insn_by syntax tokens) ≡ false }
    ensures placed { (s : TokenStatement) (before placed : Placed)
        → begins_with_label s.tokens ≡ false → body_of s.tokens ≡ Instruction
        → place s before ≡ Ok placed
        → is_some (insn_view (pos_at s.file s.line) s.tokens before) ≡ true }
{
    bare_codes_read();
}

/// Where a statement is an instruction without operands in AT&T syntax, its bytes are put last in the
/// current section, and nothing else. Any other instruction, and each in Intel syntax, is one of
/// `encoding_stands` or `jumps_are_put`.
pub fn instruction_stands()
    ensures { (pos : Pos) (tokens : List SpelledToken) (before placed : Placed) (coded : Coded)
        → instruction_written before.syntax (behind_labels tokens) ≡ Some coded
        → place_tokens pos tokens before ≡ Ok placed
        → IsPut before.sections placed.sections before.current pos coded.bytes }
{
    bare_codes_read();
}

/// Its bytes stand in what all statements place, where those before it end.
pub fn instruction_items()
    ensures { (front : List TokenStatement) (s : TokenStatement) (later : List TokenStatement)
        (before placed whole : Placed) (coded : Coded)
        → AreWithin before.sections
        → place_all front before ≡ Ok placed → place_all (front ++ s ∷ later) before ≡ Ok whole
        → instruction_of placed.syntax s ≡ Some coded
        → StandsAt whole.sections placed.current (next_item placed) (next_offset placed)
        coded.bytes }
{
    frame_directives_keep_all_else();
    line_directives_keep_all_else();
    puts_stay_within();
    bare_codes_read();
}

/// Where a statement is any other instruction, and no direct jump, the bytes and fields of its encoding
/// are put last in the current section, and nothing else. What is placed as an instruction is one
/// without operands or any other, in the syntax in force before its labels: these do not change it.
pub fn encoding_stands()
    ensures told { (pos : Pos) (tokens : List SpelledToken) (first : SpelledToken)
        (rest : List SpelledToken) (before placed : Placed)
        → behind_labels tokens ≡ first ∷ rest → BeginsAsInstruction first rest
        → place_tokens pos tokens before ≡ Ok placed
        → is_instruction before.syntax (behind_labels tokens) ≡ true }
    ensures put { (pos : Pos) (tokens : List SpelledToken) (before placed : Placed) (text : InsnText)
        → insn_written before.syntax (behind_labels tokens) ≡ Some text → jump_in text ≡ None
        → place_tokens pos tokens before ≡ Ok placed → IsInsnPut pos tokens text before placed }
{
    fields_stand_apart();
}

/// The bytes and fields of its encoding stand in what all statements place, where those before it end.
pub fn encoding_items()
    ensures { (front : List TokenStatement) (s : TokenStatement) (later : List TokenStatement)
        (before placed whole : Placed) (text : InsnText)
        → AreWithin before.sections
        → place_all front before ≡ Ok placed → place_all (front ++ s ∷ later) before ≡ Ok whole
        → insn_in placed.syntax s ≡ Some text → jump_in text ≡ None
        → InsnStands whole.sections (pos_at s.file s.line) s.tokens text placed }
{
    frame_directives_keep_all_else();
    line_directives_keep_all_else();
    puts_stay_within();
    fields_stand_apart();
}

/// Where a statement is a direct jump, an item that grows with the distance to its target is put last
/// in the current section, and nothing else.
#[tactic(auto, using(crate::proofs::JumpLaws::jump_put))]
pub fn jumps_are_put()
    ensures { (pos : Pos) (tokens : List SpelledToken) (before placed : Placed) (text : InsnText)
        (condition : Option TheCondition)
        → insn_written before.syntax (behind_labels tokens) ≡ Some text
        → jump_in text ≡ Some condition
        → place_tokens pos tokens before ≡ Ok placed
        → IsJumpPut pos tokens text condition before placed }
{}

/// The item of a direct jump stands in what all statements place, where those before it end, with
/// the field of its distance.
pub fn jump_items()
    ensures { (front : List TokenStatement) (s : TokenStatement) (later : List TokenStatement)
        (before placed whole : Placed) (text : InsnText) (condition : Option TheCondition)
        → AreWithin before.sections
        → place_all front before ≡ Ok placed → place_all (front ++ s ∷ later) before ≡ Ok whole
        → insn_in placed.syntax s ≡ Some text → jump_in text ≡ Some condition
        → JumpStands whole.sections (pos_at s.file s.line) s.tokens text condition placed }
{
    frame_directives_keep_all_else();
    line_directives_keep_all_else();
    puts_stay_within();
}

/// The bytes of a direct jump, short or near, read as the jump that is written, over the distance
/// that they hold.
pub fn jumps_read()
    ensures { (text : InsnText) (condition : Option TheCondition) (near : Bool) (distance : ℕ)
        → jump_in text ≡ Some condition
        → Reads (jump_bytes condition near distance)
        (jump_written text (length (jump_bytes condition near distance))
        (jump_distance near (jump_bytes condition near distance))) }
{
    jump_codes_read();
    conditions_are_numbered();
}

/// Each symbol that has a place, and each place of a procedure, stands in a section that is there, and the forms of
/// assigned symbols name symbols that are there, or the next one, and none leads back to its symbol. A symbol is named by a
/// text or a numeric label, but for the label of a place that a form keeps as `.`, which has the name of that place. Each
/// field is one of its section, and that of a direct jump holds its target, less the place of the field. So it is at the
/// beginning, and placing keeps it so. There are at most 2^24 symbols. The target of a direct jump names symbols that are
/// there in the end, or the next one.
pub fn places_stand()
    ensures begins { (no_warn : Bool) → PlacesStand (nothing_placed no_warn) }
    ensures kept { (statements : List TokenStatement) (before placed : Placed)
        → place_all statements before ≡ Ok placed → PlacesStand before → PlacesStand placed }
    ensures few { (statements : List TokenStatement) (no_warn : Bool) (placed : Placed)
        → place_all statements (nothing_placed no_warn) ≡ Ok placed
        → length placed.table.symbols.symbols ≤ 2 ^ 24 }
    ensures named { (s : TokenStatement) (later : List TokenStatement) (placed whole : Placed)
        (text : InsnText) → PlacesStand placed
        → (jump : IsJump (pos_at s.file s.line) s.tokens text placed)
        → place_all (s ∷ later) placed ≡ Ok whole → insn_in placed.syntax s ≡ Some text
        → AreUpTo (length whole.table.symbols.symbols) jump.forms.displacement.terms }
{
    frame_directives_keep_all_else();
    line_directives_keep_all_else();
    leads_is_decided();
}

/// What all statements place has at most 30,003 sections and groups, whose names and signatures have at most 2^16 bytes,
/// and at most 2^24 symbols and names of files, which have at most 2^31 bytes. No section has the type of a group of
/// sections.
pub fn sources_are_small()
    ensures { (statements : List TokenStatement) (no_warn : Bool) (placed : Placed)
        → place_all statements (nothing_placed no_warn) ≡ Ok placed → IsSmall placed }
{
    frame_directives_keep_all_else();
    line_directives_keep_all_else();
    leads_is_decided();
}

/// Of the procedures of frame tables that all statements place, those that have ended are whole, and the
/// open one is sound; their places never fall, and each of them stands inside the section of its
/// procedure.
pub fn procedures_stand_in_order()
    ensures { (statements : List TokenStatement) (no_warn : Bool) (placed : Placed)
        → place_all statements (nothing_placed no_warn) ≡ Ok placed
        → StandInOrder placed.sections placed.procedures }
{
    frame_directives_keep_all_else();
    line_directives_keep_all_else();
    puts_stay_within();
    places_stand();
    procedures_are_sound();
    places_never_fall();
}

/// The line table of what was placed goes on with directives more, whose numbers are in their ranges. Their
/// rows stand in sections that are there and take bytes, and those of each section rise from where it ended
/// up to where it ends.
pub fn lines_follow()
    ensures { (statements : List TokenStatement) (before placed : Placed)
        → place_all statements before ≡ Ok placed → LinesFollow before placed }
{
    frame_directives_keep_all_else();
    line_directives_keep_all_else();
}

/// An instruction leaves the line table as it is.
pub fn instructions_keep_lines()
    ensures { (s : TokenStatement) (before placed : Placed)
        → is_instruction before.syntax (behind_labels s.tokens) ≡ true
        → place s before ≡ Ok placed → placed.lines ≡ before.lines }
{}
