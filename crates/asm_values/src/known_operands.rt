//! One to three operands that are expressions whose values have to be known.

use crate::assemblers::Assembler;
use asm_base::Pos;
use asm_expr::Expr;
use asm_operands::{Operands, PlaceFault, UpToThree, up_to_three_constants, up_to_three_trees};
use asm_uses::{Naming, up_to_three_forms};

/// The values of the expressions of a directive, each of whose names has a symbol.
#[derive(Drop)]
pub struct KnownOperands {
    pub naming: Naming,
    pub values: UpToThree<u64>,
}

impl Assembler {
    ghost use Rattle.std.specs.Prelude.{◌≡◌, ◌≤◌, length, OnOk};
    ghost use Rattle.asm_base.specs.Refusals.{GivesBy};
    ghost use Rattle.asm_operands.specs.OperandParts.{operands_left};
    ghost use Rattle.asm_values.specs.KnownOperands.{known_values, known_operands};
    ghost use Rattle.asm_operands.specs.UpToThreeTrees.{trees_in};
    ghost use Rattle.asm_values.specs.KnownOperandsIn.{known_operands_in};
    ghost use Rattle.asm_values.specs.PlacedBy.{placed_by};

    /// The values of expressions whose names have symbols, each of which has to be known: the forms
    /// of all are made before a value is asked for.
    fn known_values(
        &self,
        exprs: &UpToThree<Expr>,
        naming: Naming,
    ) -> Result<KnownOperands, PlaceFault>
        ensures { GivesBy (known_operands_in (placed_by self.now)) result
            (known_values (trees_in exprs.now) naming (placed_by self.now)) }
    {
        let forms = up_to_three_forms(self.alloc, self.view(), exprs)?;
        let values = up_to_three_constants(&forms)?;
        Ok(KnownOperands { naming, values })
    }

    /// Operands whose values have to be known once each name has a symbol: all are read, and the
    /// forms of all are made, before a value is asked for.
    #[tactic(auto, unfolding(crate::specs::KnownOperands::known_operands))]
    pub fn known_operands(
        &mut self,
        pos: Pos,
        most: usize,
        operands: &mut Operands,
    ) -> Result<KnownOperands, PlaceFault>
        ensures value { GivesBy (known_operands_in (placed_by self.new)) result
            (known_operands pos (placed_by self.old) most (operands_left operands.old)) }
        ensures kept { self.new.notes ≡ self.old.notes }
        ensures grows { OnOk result (length self.old.table.symbols.symbols
            ≤ length self.new.table.symbols.symbols) }
    {
        let exprs = up_to_three_trees(self.alloc, most, operands)?;
        let naming = self.table.intern_up_to_three(pos, &exprs)?;
        self.known_values(&exprs, naming)
    }
}
