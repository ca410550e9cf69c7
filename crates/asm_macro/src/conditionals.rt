//! Conditionals (GNU as manual, ".if", ".elseif", ".else", ".endif").

ghost use Rattle.std.specs.Prelude.{map};
ghost use Rattle.asm_base.specs.Tokens.{spelled};
ghost use Rattle.macro_blocks.specs.Frames.{level_of};
ghost use Rattle.asm_macro.specs.Expansion as spec;
ghost use Rattle.asm_macro.specs.Turning.{IsTurn, state_of};

use crate::expander::Expander;
use crate::refusing::{fault_at, standing};
use crate::turned::{MacroFault, Turned};
use asm_base::{Pos, Refusal, Token};
use macro_blocks::{Block, Frame};
use macro_words::{Condition, KnowingPlacer, MacroCause, holds};

impl Expander {
    /// A conditional goes on in its first branch that is chosen, or behind its end.
    #[tactic(auto, unfolding(crate::specs::Expansion::conditional))]
    pub(crate) fn conditional<P: KnowingPlacer>(
        &self,
        known: &P,
        condition: Condition,
        pos: Pos,
        operands: &[Token],
        frame: &mut Frame,
    ) -> Result<Turned, Refusal<MacroFault>>
        ensures { IsTurn result (spec.conditional (P.told known.now) condition pos
            (map spelled operands.now) (level_of frame.old) (state_of self.now))
            (level_of frame.new) (state_of self.now) }
    {
        let mut chosen = match holds(self.alloc, known, condition, operands) {
            Ok(held) => held,
            Err(refusal) => return Err(standing(refusal, pos)),
        };
        if !chosen {
            let first = frame.first_open(pos);
            let Some(branch) = frame.pass_branch(self.alloc, known)? else {
                return Err(fault_at(MacroCause::UnclosedBlock, first));
            };
            chosen = match branch.verdict {
                Ok(held) => held,
                Err(cause) => return Err(fault_at(cause, branch.pos)),
            };
        }
        if chosen {
            frame.open(pos)?;
        }
        Ok(Turned::Stays)
    }

    /// The end of a chosen branch: the rest of its conditional is passed over.
    #[tactic(auto, unfolding(crate::specs::Expansion::branch_end))]
    pub(crate) fn branch_end(
        &self,
        pos: Pos,
        frame: &mut Frame,
    ) -> Result<Turned, Refusal<MacroFault>>
        ensures { IsTurn result (spec.branch_end pos (level_of frame.old) (state_of self.now))
            (level_of frame.new) (state_of self.now) }
    {
        let Some(first) = frame.outermost() else {
            return Err(fault_at(MacroCause::EndWithoutBeginning, pos));
        };
        if !frame.pass_block(self.alloc, Block::Conditional)? {
            return Err(fault_at(MacroCause::UnclosedBlock, first));
        }
        frame.close();
        Ok(Turned::Stays)
    }

    /// The end of a conditional whose last branch was chosen.
    #[tactic(auto, unfolding(crate::specs::Expansion::conditional_end))]
    pub(crate) fn conditional_end(
        &self,
        pos: Pos,
        frame: &mut Frame,
    ) -> Result<Turned, Refusal<MacroFault>>
        ensures { IsTurn result (spec.conditional_end pos (level_of frame.old) (state_of self.now))
            (level_of frame.new) (state_of self.now) }
    {
        if frame.outermost().is_none() {
            return Err(fault_at(MacroCause::EndWithoutBeginning, pos));
        }
        frame.close();
        Ok(Turned::Stays)
    }
}
