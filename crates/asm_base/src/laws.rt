//! What holds of every text.

ghost use Rattle.std.specs.Prelude.{◌≡◌, ℕ, List};
ghost use Rattle.asm_base.specs.Pieces.{Piece, IsQuoted, IsDivision};
ghost use Rattle.asm_base.specs.Dividing.{pieces_of};
ghost use Rattle.asm_base.specs.Strings.{string_value};
ghost use Rattle.asm_base.specs.StringGrammar.{StandsFor};

/// Every text is one list of pieces, and no other.
#[tactic(auto, using(crate::proofs::Division::divides, crate::proofs::Division::only_division))]
pub fn one_division()
    ensures some { (text : List ℕ) → IsDivision text (pieces_of text) }
    ensures only { (text : List ℕ) (pieces : List Piece) → IsDivision text pieces
        → pieces ≡ pieces_of text }
{}

/// What the bytes between the quotes stand for by the grammar of strings is their value, and a closed string stands for something.
#[tactic(auto, using(crate::proofs::StringValues::only_value, crate::proofs::StringValues::some_value))]
pub fn one_value()
    ensures only { (inner value : List ℕ) → StandsFor inner value
        → value ≡ string_value inner }
    ensures some { (inner : List ℕ) → IsQuoted inner → StandsFor inner (string_value inner) }
{}
