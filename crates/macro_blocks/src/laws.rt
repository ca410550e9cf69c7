//! What holds of every search for the end of a block.

ghost use Rattle.std.specs.Prelude.{ℕ, Bool, List};
ghost use Rattle.asm_lines.specs.NextStatements.{TokenStatement};
ghost use Rattle.macro_blocks.specs.declared.blocks.Block.{Block};
ghost use Rattle.macro_blocks.specs.Laws.{StaysOpen, StopsAtEnds};

/// In copies that are alike, a search for the end of a block needs one copy's length.
pub fn open_blocks_stay_open()
    ensures { (b : Block) → (stop : TokenStatement → Bool)
        → (front : List TokenStatement) → (back : List TokenStatement) → (copies : ℕ)
        → StopsAtEnds b stop → StaysOpen b stop front back copies }
{}
