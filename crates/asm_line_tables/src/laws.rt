//! What holds of the definitions.

ghost use Rattle.std.specs.Prelude.{List, IfOk};
ghost use Rattle.asm_base.specs.declared.positions.Pos.{Pos as Position};
ghost use Rattle.asm_base.specs.Tokens.{SpelledToken};
ghost use Rattle.asm_values.specs.State.{Placed as State};
ghost use Rattle.asm_line_tables.specs.Keeping.{OnlyLines};
ghost use Rattle.asm_line_tables.specs.Placing.{place_loc, place_numbered_file};
ghost use Rattle.asm_line_tables.specs.WorkedStatements.{WorkedStatements};

/// A `.loc`, and a `.file` with a number, change the line table, by directives that are taken where they stand and whose
/// numbers are in their ranges, and of the symbols what naming their expressions does. Sections, the current one and
/// those to come back to, the procedures, the syntax and the notes stay.
pub fn line_directives_keep_all_else()
    ensures rows { (pos : Position) (tokens : List SpelledToken) (placed : State)
        → IfOk (place_loc pos tokens placed) (OnlyLines pos placed) }
    ensures files { (pos : Position) (tokens : List SpelledToken) (placed : State)
        → IfOk (place_numbered_file pos tokens placed) (OnlyLines pos placed) }
{}

/// What stands in a `.loc`, and its row or its fault, worked out by hand.
#[tactic(auto, using(crate::proofs::WorkedLemmas::worked))]
pub fn worked_statements()
    ensures { WorkedStatements }
{}
