//! What holds of the statements of every source, of the faults of its lines, and of the tokens of every statement.

ghost use Rattle.std.specs.Prelude.{◌≡◌, ℕ, List, All, IfOk, None, length, nat_lt, true, false};
ghost use Rattle.asm_lines.specs.Laws.{IsRun, HasNoNul, LinesNeverFall};
ghost use Rattle.asm_base.specs.Tokens.{SpelledToken, tokens_of};
ghost use Rattle.asm_lines.specs.Faults.{nul_offset};
ghost use Rattle.asm_lines.specs.Statements.{statements_of};
ghost use Rattle.asm_lines.specs.NextStatements.{HasNoLineFault, found_left};
ghost use Rattle.asm_lines.specs.TokenGrammar.{AreTokens};

use asm_base::one_division;

/// Each statement is a run of whole pieces of the source, on the line where the first stands, and has at most 65536 bytes of its own.
pub fn statements_are_whole()
    ensures { (file : ℕ) (source : List ℕ)
        → IfOk (statements_of file source) (All (IsRun source)) }
{
    one_division();
}

/// No byte of a statement is 0.
pub fn no_statement_has_nul()
    ensures { (file : ℕ) (source : List ℕ) → IfOk (statements_of file source) (All HasNoNul) }
{}

/// The lines of the statements do not fall.
pub fn lines_never_fall()
    ensures { (file : ℕ) (source : List ℕ) → IfOk (statements_of file source) LinesNeverFall }
{}

/// The lines of a source have a fault where a byte 0 stands in it, and else just where one is found from its beginning on.
#[tactic(auto, using(crate::proofs::LineFaults::faulty_by_nul, crate::proofs::LineFaults::clean_without_fault))]
pub fn line_faults_are_found()
    ensures nul { (file : ℕ) (source : List ℕ) → nat_lt (nul_offset source) (length source) ≡ true
        → HasNoLineFault file source → ⊥ }
    ensures clean { (file : ℕ) (source : List ℕ) → nat_lt (nul_offset source) (length source) ≡ false
        → found_left source 0 ≡ None → HasNoLineFault file source }
{}

/// By the grammar of tokens a statement is the tokens of its definition, and no others.
pub fn one_list_of_tokens()
    ensures some { (bytes : List ℕ) → AreTokens 0 bytes (tokens_of bytes) }
    ensures only { (bytes : List ℕ) (one other : List SpelledToken) → AreTokens 0 bytes one
        → AreTokens 0 bytes other → one ≡ other }
{
    one_division();
}
