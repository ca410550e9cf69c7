//! Repeats (GNU as manual, ".rept", ".irp", ".irpc").

ghost use Rattle.std.specs.Prelude.{map, Ok};
ghost use Rattle.asm_base.specs.Refusals.{GivesBy};
ghost use Rattle.asm_base.specs.Tokens.{spelled};
ghost use Rattle.macro_texts.specs.declared.causes.MacroLineCause.{MacroLineCause};
ghost use Rattle.macro_texts.specs.Repeats.{EachLineAs};
ghost use Rattle.macro_texts.specs.RepeatsSeen.{each_seen};
ghost use Rattle.macro_blocks.specs.Frames.{level_of};
ghost use Rattle.asm_macro.specs.Expansion as spec;
ghost use Rattle.asm_macro.specs.Turning.{IsTurn, state_of};

use crate::expander::Expander;
use crate::open_parts::Part;
use crate::refusing::{fault_at, standing};
use crate::turned::{MacroFault, Turned};
use asm_base::{Pos, Refusal, Token};
use macro_blocks::{Block, Frame};
use macro_texts::EachLine;
use macro_words::{KnowingPlacer, MacroCause, repeat_count};

impl Expander {
    /// A repeat becomes its copies; with an empty body it becomes nothing.
    #[tactic(auto, unfolding(crate::specs::Expansion::repeat))]
    pub(crate) fn repeat<P: KnowingPlacer>(
        &self,
        known: &P,
        pos: Pos,
        operands: &[Token],
        frame: &mut Frame,
    ) -> Result<Turned, Refusal<MacroFault>>
        ensures { IsTurn result (spec.repeat (P.told known.now) pos (map spelled operands.now)
            (level_of frame.old) (state_of self.now)) (level_of frame.new) (state_of self.now) }
    {
        let count = match repeat_count(known, operands) {
            Ok(count) => count,
            Err(refusal) => return Err(standing(refusal, pos)),
        };
        let first = frame.first_open(pos);
        let call_number = frame.call_number();
        let Some(body) = frame.take_body(self.alloc, Block::Repeat)? else {
            return Err(fault_at(MacroCause::UnclosedBlock, first));
        };
        if body.is_empty() {
            return Ok(Turned::Stays);
        }
        if self.is_deep(frame) {
            return Err(fault_at(MacroCause::NestedTooDeeply, pos));
        }
        match Frame::repeat(self.alloc, body, pos, count, call_number) {
            Ok(copies) => Ok(Turned::Enters(Part::new(self.alloc, copies)?)),
            Err(refusal) => Err(standing(refusal, pos)),
        }
    }

    /// A repeat with values becomes a copy for each; with an empty body it becomes nothing. In a call `\@` is the number of the call, and
    /// elsewhere how many calls began.
    #[tactic(auto, unfolding(crate::specs::Expansion::each))]
    pub(crate) fn each(
        &self,
        pos: Pos,
        line: EachLine,
        frame: &mut Frame,
    ) -> Result<Turned, Refusal<MacroFault>>
        ensures { IsTurn result (spec.each pos (Ok (each_seen line))
            (level_of frame.old) (state_of self.now)) (level_of frame.new) (state_of self.now) }
    {
        let first = frame.first_open(pos);
        let call_number = frame.call_number();
        let Some(body) = frame.take_body(self.alloc, Block::Repeat)? else {
            return Err(fault_at(MacroCause::UnclosedBlock, first));
        };
        if body.is_empty() {
            return Ok(Turned::Stays);
        }
        if self.is_deep(frame) {
            return Err(fault_at(MacroCause::NestedTooDeeply, pos));
        }
        let number = call_number.unwrap_or(self.begun);
        match Frame::each(self.alloc, body, line, number, pos, call_number) {
            Ok(copies) => Ok(Turned::Enters(Part::new(self.alloc, copies)?)),
            Err(refusal) => Err(standing(refusal, pos)),
        }
    }
}
