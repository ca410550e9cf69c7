//! What holds of the definition.

ghost use Rattle.std.specs.Prelude.{List, IfOk};
ghost use Rattle.asm_base.specs.declared.positions.Pos.{Pos as Position};
ghost use Rattle.asm_base.specs.Tokens.{SpelledToken};
ghost use Rattle.asm_values.specs.State.{Placed as State};
ghost use Rattle.asm_words.specs.declared.directives.FrameDirective.{FrameDirective as Word};
ghost use Rattle.asm_frames.specs.Keeping.{OnlyNames};
ghost use Rattle.asm_frames.specs.Placing.{place_frame};

/// A directive changes the procedures, by directives that are taken where it stands, and of the symbols
/// what naming its expressions does, and the place that a pointer leads to. Sections, the current one and
/// those to come back to, the syntax and the notes stay.
pub fn frame_directives_keep_all_else()
    ensures { (directive : Word) (pos : Position) (tokens : List SpelledToken) (placed : State)
        → IfOk (place_frame directive pos tokens placed) (OnlyNames pos placed) }
{}
