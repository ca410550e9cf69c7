//! What the definitions come to.

ghost use Rattle.std.specs.Prelude.{◌≡◌, ◌+◌, ◌%◌, ◌^◌, ◌<◌, ◌≤◌, ◌++◌, ℕ, ℤ, pos, neg_ℤ, ◌≤ℤ◌, ◌<ℤ◌, List, [], ◌∷◌, All, IsSome, length, slice_get, Some};
ghost use Rattle.leb128.specs.Digits.{sleb_bytes, uleb_bytes};
ghost use Rattle.leb128.specs.Reading.{sleb, uleb};
ghost use Rattle.cfi_rows.specs.declared.rows.CfaRow.{CfaRow};
ghost use Rattle.cfi_rows.specs.declared.rows.CfiOp.{CfiOp};
ghost use Rattle.cfi_rows.specs.declared.rows.Insn.{Insn};
ghost use Rattle.cfi_rows.specs.declared.rows.Insn.TheVariants.{Op};
ghost use Rattle.cfi_rows.specs.Rows.{common_row, ops_after, rows_of, start_rows};
ghost use Rattle.cfi_rows.specs.Instructions.{next};
ghost use Rattle.cfi_entries.specs.Places.{AreCodeOf, decoded, Placed, row_after, row_in_force};
ghost use Rattle.cfi_rows.specs.declared.commons.CommonForm.{CommonForm};
ghost use Rattle.cfi_rows.specs.declared.pointers.PointerEncoding.{PointerEncoding};
ghost use Rattle.cfi_rows.specs.Pointers.{encoding_byte, encoding_of, size_if};
ghost use Rattle.cfi_rows.specs.Commons.{common_bytes, common_entry, common_length, common_of, common_padding, IsCommonOf, plain_form};
ghost use Rattle.cfi_entries.specs.Entries.{initial_row, row_of};
ghost use Rattle.cfi_entries.specs.Written.{written};
ghost use Rattle.cfi_entries.specs.Lines.{Line, AreLines, bytes_of, ops_of, entry_bytes, row_due};
ghost use Rattle.cfi_rows.specs.Differences.{differences, IsReached};
ghost use Rattle.cfi_entries.specs.Written.{HaveForms};
ghost use Rattle.cfi_entries.specs.RowLists.{RowPlace, AreRising, Leads, row_at_place};
ghost use Rattle.cfi_entries.specs.WorkedRows.{FrameRows, OtherRows, PointerRows, WorkedCommons, WorkedDifferences, WrittenBytes};

use leb128::numbers_read_back;

/// Bytes decode to the instructions that stand in them one behind the other, and to no others.
#[tactic(auto, using(crate::proofs::WrittenLemmas::decoded_code, crate::proofs::WrittenLemmas::code_decoded))]
pub fn instructions_stand_in_row()
    ensures found { (insns : List Insn) (bytes : List ℕ) → AreCodeOf insns bytes
        → decoded (length bytes) bytes ≡ Some insns }
    ensures only { (insns : List Insn) (bytes : List ℕ) → decoded (length bytes) bytes ≡ Some insns
        → AreCodeOf insns bytes }
{}

/// An instruction that is written reads back, whatever follows it. It is written exactly if some bytes read as it.
#[tactic(auto, using(crate::proofs::FairLemmas::read_is_writable))]
pub fn instructions_read_back()
    ensures read { (op : CfiOp) (bytes rest : List ℕ) → written op ≡ Some bytes
        → next (bytes ++ rest) ≡ Some (Op op, rest) }
    ensures written { (op : CfiOp) (bytes rest : List ℕ) → All (λ byte. byte < 2 ^ 8) bytes
        → next bytes ≡ Some (Op op, rest) → IsSome (written op) }
{
    numbers_read_back();
}

/// A number is written in as few bytes as hold it: it reads back, and no bytes that read as it are fewer. Those that stand
/// behind a number, `rest`, are none of it.
pub fn numbers_are_least()
    ensures unsigned_read { (number : ℕ) (rest : List ℕ) → number < 2 ^ 63
        → uleb (uleb_bytes number ++ rest) ≡ Some (number, rest) }
    ensures signed_read { (number : ℤ) (rest : List ℕ) → neg_ℤ (pos (2 ^ 63)) ≤ℤ number
        → number <ℤ pos (2 ^ 63) → sleb (sleb_bytes number ++ rest) ≡ Some (number, rest) }
    ensures unsigned { (number : ℕ) (bytes rest : List ℕ) → All (λ byte. byte < 2 ^ 8) bytes
        → uleb bytes ≡ Some (number, rest)
        → length (uleb_bytes number) + length rest ≤ length bytes }
    ensures signed { (number : ℤ) (bytes rest : List ℕ) → All (λ byte. byte < 2 ^ 8) bytes
        → sleb bytes ≡ Some (number, rest)
        → length (sleb_bytes number) + length rest ≤ length bytes }
{
    numbers_read_back();
    leb128::numbers_are_least();
}

/// Written instructions, whatever room each advance has and whatever padding follows, read as the row after all those
/// up to a place.
pub fn rows_read_back()
    ensures { (initial : CfaRow) (at padding : ℕ) (lines : List Line) → AreLines 0 lines
        → row_in_force initial at (bytes_of padding 0 lines)
        ≡ row_after initial at (ops_of lines) (start_rows initial) }
{
    numbers_read_back();
}

/// The two tables of encodings are inverse to each other: the byte of an encoding says that encoding, and a number that
/// says one is its byte.
#[tactic(auto, using(crate::proofs::EncodingLemmas::byte_says, crate::proofs::EncodingLemmas::said_by_byte))]
pub fn encodings_read_back()
    ensures read { (encoding : PointerEncoding)
        → encoding_of (encoding_byte encoding) ≡ Some encoding }
    ensures only { (number : ℕ) (encoding : PointerEncoding)
        → encoding_of number ≡ Some encoding → number ≡ encoding_byte encoding }
{}

/// The CIE of a form reads as it, whatever the pointer to the personality is, and gives the row where a procedure begins.
/// Its length counts what follows, and is a multiple of 4. Bytes that read as a form are its CIE: no others are read.
pub fn common_entries_read()
    ensures form { (form : CommonForm) (pointer : List ℕ)
        → length pointer ≡ size_if form.personality
        → common_of (common_entry form pointer)
        ≡ Some (form, 0x0c ∷ 0x07 ∷ 0x08 ∷ 0x90 ∷ 0x01 ∷ common_padding form) }
    ensures row { (form : CommonForm) (pointer : List ℕ)
        → length pointer ≡ size_if form.personality
        → initial_row (common_entry form pointer) ≡ Some common_row }
    ensures plain { common_entry plain_form [] ≡ common_bytes }
    ensures whole { (form : CommonForm) (pointer : List ℕ)
        → length pointer ≡ size_if form.personality
        → (length (common_entry form pointer) ≡ 4 + common_length form)
        × (common_length form % 4 ≡ 0) }
    ensures only { (cie : List ℕ) (form : CommonForm) (code : List ℕ)
        → common_of cie ≡ Some (form, code) → IsCommonOf cie form code }
{}

/// A whole FDE reads so below its range, with the CIE of its form, whatever the pointer to its LSDA is.
pub fn entries_read_back()
    ensures { (form : CommonForm) (pointer lsda : List ℕ) (at padding back first range : ℕ)
        (lines : List Line) → length pointer ≡ size_if form.personality
        → length lsda ≡ size_if form.lsda → AreLines 0 lines
        → back < 2 ^ 32 → 0 < back → first < 2 ^ 32 → range < 2 ^ 32
        → length (lsda ++ bytes_of padding 0 lines) + 13 < 0xfffffff0
        → row_of (common_entry form pointer)
        (entry_bytes back first range lsda (bytes_of padding 0 lines)) at
        ≡ row_due at range lines }
{
    numbers_read_back();
}

/// The instructions of `diff` make of the first row the second, whatever is remembered: where both have a rule for each
/// of 64 registers, and a register that is unspecified in the second is so in the first, or where the procedure begins.
/// Rows that are alike at the return address are so. Each instruction can be written where the CFA and the rules can.
#[tactic(auto, using(crate::proofs::DifferenceLemmas::differences_led, crate::proofs::FormLemmas::alike_reached, crate::proofs::FormLemmas::differences_written))]
pub fn differences_lead()
    ensures led { (initial from to : CfaRow) (saved : List CfaRow) → length from.rules ≡ 64
        → length to.rules ≡ 64 → IsReached initial from to
        → ops_after initial (differences from to) (rows_of from saved) ≡ Some (rows_of to saved) }
    ensures alike { (from to : CfaRow) → length to.rules ≡ 64
        → slice_get from.rules 16 ≡ slice_get to.rules 16 → IsReached common_row from to }
    ensures written { (from to : CfaRow) → HaveForms from to
        → All (λ op. IsSome (written op)) (differences from to) }
{}

/// Instructions that lead from row to row give at each place the row that stands there.
#[tactic(auto, using(crate::proofs::RowListLemmas::rows_stand))]
pub fn rows_stand_at_places()
    ensures { (initial : CfaRow) (at : ℕ) (rows : List RowPlace) (ops : List Placed)
        → AreRising 0 rows → Leads initial initial rows ops
        → row_after initial at ops (start_rows initial) ≡ Some (row_at_place at initial rows) }
{}

/// The rows, the bytes, the CIEs and the differences that are worked out by hand.
pub fn worked_rows()
    ensures framed { FrameRows }
    ensures others { OtherRows }
    ensures pointers { PointerRows }
    ensures bytes { WrittenBytes }
    ensures commons { WorkedCommons }
    ensures differences { WorkedDifferences }
{}
