//! What the definitions come to.

ghost use Rattle.std.specs.Prelude.{◌≡◌, ◌+◌, ◌/◌, ◌%◌, ◌^◌, ◌<◌, ◌++◌, ◌∷◌, ℕ, ℤ, pos, neg_ℤ, ◌≤ℤ◌, ◌<ℤ◌, List, Some, length, slice_get};
ghost use Rattle.std.specs.Option.{option_and_then};
ghost use Rattle.line_rows.specs.declared.rows.LineOp.TheVariants.{Copy, AdvancePc, AdvanceLine, SetFile, SetColumn, NegateStmt, SetBasicBlock, SetPrologueEnd, SetEpilogueBegin, SetIsa, EndSequence, SetAddress, SetDiscriminator};
ghost use Rattle.leb128.specs.Reading.{uleb};
ghost use Rattle.leb128.specs.Digits.{uleb_bytes, sleb_bytes};
ghost use Rattle.line_rows.specs.Ops.{next};
ghost use Rattle.line_rows.specs.Rows.{lines_of};
ghost use Rattle.line_rows.specs.Header.{line_at};
ghost use Rattle.line_rows.specs.Writing.{Sequence, AreSequences, discriminator_bytes, program_bytes, program_lines, row_due, word_then};
ghost use Rattle.line_rows.specs.Places.{PlacedRows, sequence_of, AreRising, placed_due};
ghost use Rattle.line_rows.specs.ReadingBack.{PlacedRowsAreSequences, FilledRowsAreSequences};
ghost use Rattle.line_rows.specs.Tables.{File, ArePaths, AreFiles, entries_then, table_bytes};
ghost use Rattle.line_rows.specs.WorkedRows.{TableRows, ProgramRows, WrittenRows};

use leb128::numbers_read_back;

/// Each operation that is written is read as it was meant, whatever follows it. Of an advance any LEB128 bytes of the
/// distance are.
pub fn operations_read_back()
    ensures copy { (rest : List ℕ) → next (0x01 ∷ rest) ≡ Some (Copy, rest) }
    ensures advance { (digits : List ℕ) (number : ℕ)
        → ((rest : List ℕ) → uleb (digits ++ rest) ≡ Some (number, rest))
        → (rest : List ℕ) → next (0x02 ∷ (digits ++ rest)) ≡ Some (AdvancePc number, rest) }
    ensures line { (number : ℤ) → neg_ℤ (pos (2 ^ 63)) ≤ℤ number → number <ℤ pos (2 ^ 63)
        → (rest : List ℕ) → next (0x03 ∷ (sleb_bytes number ++ rest))
        ≡ Some (AdvanceLine number, rest) }
    ensures file { (number : ℕ) → number < 2 ^ 64 → (rest : List ℕ)
        → next (0x04 ∷ (uleb_bytes number ++ rest)) ≡ Some (SetFile number, rest) }
    ensures column { (number : ℕ) → number < 2 ^ 64 → (rest : List ℕ)
        → next (0x05 ∷ (uleb_bytes number ++ rest)) ≡ Some (SetColumn number, rest) }
    ensures negate { (rest : List ℕ) → next (0x06 ∷ rest) ≡ Some (NegateStmt, rest) }
    ensures block { (rest : List ℕ) → next (0x07 ∷ rest) ≡ Some (SetBasicBlock, rest) }
    ensures prologue { (rest : List ℕ) → next (0x0a ∷ rest) ≡ Some (SetPrologueEnd, rest) }
    ensures epilogue { (rest : List ℕ) → next (0x0b ∷ rest) ≡ Some (SetEpilogueBegin, rest) }
    ensures isa { (number : ℕ) → number < 2 ^ 64 → (rest : List ℕ)
        → next (0x0c ∷ (uleb_bytes number ++ rest)) ≡ Some (SetIsa number, rest) }
    ensures discriminator { (number : ℕ) → number < 2 ^ 64 → (rest : List ℕ)
        → next (discriminator_bytes number ++ rest) ≡ Some (SetDiscriminator number, rest) }
    ensures address { (address : ℕ) → address < 2 ^ 64 → (rest : List ℕ)
        → next (0x00 ∷ 0x09 ∷ 0x02
        ∷ word_then (address % 2 ^ 32) (word_then (address / 2 ^ 32) rest))
        ≡ Some (SetAddress address, rest) }
    ensures end { (rest : List ℕ) → next (0x00 ∷ 0x01 ∷ 0x01 ∷ rest) ≡ Some (EndSequence, rest) }
{
    numbers_read_back();
}

/// The encoding of sequences runs to their rows, places counted from the first one of each.
pub fn sequences_read_back()
    ensures { (sequences : List Sequence) → AreSequences sequences
        → lines_of (program_bytes sequences) ≡ Some (program_lines sequences) }
{
    numbers_read_back();
}

/// Rows in the order of their places, each distance in bytes of its own, are a sequence, and what is due at a place of it
/// is the last row at or before that place, and none from the section's end on.
pub fn places_are_distances()
    ensures written { PlacedRowsAreSequences }
    ensures due { (address at : ℕ) (rows : PlacedRows) → AreRising rows.start rows.others rows.end
        → row_due at (sequence_of address rows) ≡ placed_due at rows }
{}

/// In a whole table the row at a place of a sequence is the last one at or before it, and none at the end and past it.
pub fn tables_read_back()
    ensures { (directories : List (List ℕ)) (files : List File) (sequences : List Sequence)
        → (seq at : ℕ)
        → ArePaths directories → AreFiles files → AreSequences sequences
        → length (entries_then directories files (program_bytes sequences)) + 8 < 0xfffffff0
        → length directories < 2 ^ 64 → length files < 2 ^ 64
        → line_at (table_bytes directories files (program_bytes sequences)) seq at
        ≡ option_and_then (row_due at) (slice_get sequences seq) }
{
    numbers_read_back();
}

/// The rows of a section, made one after another, are with their gaps filled and its end behind them those of a
/// sequence, whatever bytes of the distances the gaps are filled with.
#[tactic(auto, using(crate::proofs::GapLemmas::section_filled))]
pub fn sections_are_sequences()
    ensures { FilledRowsAreSequences }
{}

/// The rows and the bytes that are worked out by hand.
pub fn worked_rows()
    ensures tables { TableRows }
    ensures programs { ProgramRows }
    ensures bytes { WrittenRows }
{}
