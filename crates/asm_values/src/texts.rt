//! Strings (GNU as manual, ".ascii", ".asciz", ".string").

use crate::assemblers::Assembler;
use asm_base::{Pos, Token};
use asm_operands::{Operands, PlaceFault, joined_strings};

impl Assembler {
    ghost use Rattle.std.specs.Prelude.{◌≡◌, map};
    ghost use Rattle.asm_base.specs.Tokens.{spelled};
    ghost use Rattle.asm_base.specs.Refusals.{Gives};
    ghost use Rattle.asm_values.specs.Data.{place_strings};
    ghost use Rattle.asm_values.specs.PlacedBy.{placed_by, PlacesBy};

    /// `.ascii` and the others: the bytes of all strings.
    #[tactic(auto, unfolding(crate::specs::Data::place_strings))]
    pub fn place_strings(
        &mut self,
        pos: Pos,
        ended: bool,
        tokens: &[Token],
    ) -> Result<(), PlaceFault>
        ensures placed { PlacesBy (place_strings pos ended (map spelled tokens.now))
            self.old self.new result }
        ensures kept { self.new.notes ≡ self.old.notes }
    {
        joined_strings(self.alloc, &mut self.scratch, ended, Operands::new(tokens))?;
        self.put_scratch(pos)
    }
}
