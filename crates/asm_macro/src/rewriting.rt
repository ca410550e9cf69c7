//! A word or a call at the head of the list becomes what it stands for.

ghost use Rattle.std.specs.Prelude.{◌≡◌, ◌≤◌, ◌+◌, length, map, vec_len, OnOk};
ghost use Rattle.asm_base.specs.Tokens.{spelled};
ghost use Rattle.macro_texts.specs.Repeats as texts;
ghost use Rattle.macro_blocks.specs.Frames.{level_of};
ghost use Rattle.asm_macro.specs.Expansion as spec;
ghost use Rattle.asm_macro.specs.Heads.{turned_head};
ghost use Rattle.asm_macro.specs.Readings.{Uses, input_by};
ghost use Rattle.asm_macro.specs.Starts.{files_after};
ghost use Rattle.asm_macro.specs.Turning.{IsRewriting, IsTurn, KeepsFew, state_of};

use crate::expander::Expander;
use crate::faults::ExpandFault;
use crate::heads::Head;
use crate::refusing::{fault_at, standing_line, whole};
use crate::turned::{MacroFault, Turned};
use asm_base::{Inputs, Pos, Refusal, Token};
use macro_blocks::Frame;
use macro_texts::{irp_line, irpc_line};
use macro_words::{KnowingPlacer, MacroCause, Word};

/// The most statements that leave the head of the list.
pub(crate) const MOST_GIVEN: u32 = 1 << 22;

impl Expander {
    /// `.irp`: a copy for each of the values between commas.
    #[tactic(auto, unfolding(crate::specs::Expansion::each))]
    fn each_value(
        &self,
        pos: Pos,
        operands: &[Token],
        frame: &mut Frame,
    ) -> Result<Turned, Refusal<MacroFault>>
        ensures { IsTurn result (spec.each pos (texts.irp_line (map spelled operands.now))
            (level_of frame.old) (state_of self.now)) (level_of frame.new) (state_of self.now) }
    {
        match irp_line(self.alloc, operands) {
            Ok(line) => self.each(pos, line, frame),
            Err(refusal) => Err(standing_line(refusal, pos)),
        }
    }

    /// `.irpc`: a copy for each character.
    #[tactic(auto, unfolding(crate::specs::Expansion::each))]
    fn each_character(
        &self,
        pos: Pos,
        operands: &[Token],
        frame: &mut Frame,
    ) -> Result<Turned, Refusal<MacroFault>>
        ensures { IsTurn result (spec.each pos (texts.irpc_line (map spelled operands.now))
            (level_of frame.old) (state_of self.now)) (level_of frame.new) (state_of self.now) }
    {
        match irpc_line(self.alloc, operands) {
            Ok(line) => self.each(pos, line, frame),
            Err(refusal) => Err(standing_line(refusal, pos)),
        }
    }

    /// A word becomes what it stands for.
    #[tactic(auto, using(crate::proofs::Wholes::rewrites, crate::proofs::Wholes::uses_none))]
    fn rewrite_word<P: KnowingPlacer, I: Inputs>(
        &mut self,
        word: Word,
        pos: Pos,
        operands: &[Token],
        frame: &mut Frame,
        known: &P,
        ins: &mut I,
    ) -> Result<Turned, ExpandFault<P::Fault>>
        requires { length self.old.files ≤ self.old.given }
        ensures turn { IsRewriting result
            (spec.rewritten (P.told known.now) (I.contents ins.old) word pos
            (map spelled operands.now) (level_of frame.old) (state_of self.old))
            (level_of frame.new) self.old.files (state_of self.new) }
        ensures input { Uses result
            (files_after self.old.files
            (spec.rewritten (P.told known.now) (I.contents ins.old) word pos
            (map spelled operands.now) (level_of frame.old) (state_of self.old)))
            self.old.files self.new.files
            (input_by I.contents I.rest I.faults I.missing I.taken I.history ins.old)
            (input_by I.contents I.rest I.faults I.missing I.taken I.history ins.new) }
        ensures given { self.new.given ≡ self.old.given }
        ensures parts { vec_len self.new.frames ≤ vec_len self.old.frames }
        ensures few { KeepsFew (level_of frame.old) (state_of self.old)
            result (level_of frame.new) (state_of self.new) }
    {
        match word {
            Word::If(condition) => whole(self.conditional(known, condition, pos, operands, frame)),
            Word::ElseIf | Word::Else => whole(self.branch_end(pos, frame)),
            Word::EndIf => whole(self.conditional_end(pos, frame)),
            Word::Repeat => whole(self.repeat(known, pos, operands, frame)),
            Word::EachValue => whole(self.each_value(pos, operands, frame)),
            Word::EachCharacter => whole(self.each_character(pos, operands, frame)),
            Word::EndRepeat | Word::EndMacro => {
                whole(Err(fault_at(MacroCause::EndWithoutBeginning, pos)))
            }
            Word::Macro => whole(self.define(pos, operands, frame)),
            Word::ExitMacro => whole(self.exit(pos, frame)),
            Word::Purge => whole(self.purge(pos, operands, frame)),
            Word::Include => self.include(ins, pos, operands, frame),
        }
    }

    /// A word or a call becomes what it stands for.
    #[tactic(auto, using(crate::proofs::Wholes::rewrites, crate::proofs::Wholes::uses_none))]
    pub(crate) fn rewrite<P: KnowingPlacer, I: Inputs>(
        &mut self,
        head: &Head,
        pos: Pos,
        frame: &mut Frame,
        known: &P,
        ins: &mut I,
    ) -> Result<Turned, ExpandFault<P::Fault>>
        ensures turn { IsRewriting result
            (turned_head (P.told known.now) (I.contents ins.old) head.now pos
            (level_of frame.old) (state_of self.old))
            (level_of frame.new) self.old.files (state_of self.new) }
        ensures input { Uses result
            (files_after self.old.files
            (turned_head (P.told known.now) (I.contents ins.old) head.now pos
            (level_of frame.old) (state_of self.old)))
            self.old.files self.new.files
            (input_by I.contents I.rest I.faults I.missing I.taken I.history ins.old)
            (input_by I.contents I.rest I.faults I.missing I.taken I.history ins.new) }
        ensures given { OnOk result (self.new.given ≡ self.old.given + 1) }
        ensures later { self.old.given ≤ self.new.given }
        ensures parts { vec_len self.new.frames ≤ vec_len self.old.frames }
        ensures few { KeepsFew (level_of frame.old) (state_of self.old)
            result (level_of frame.new) (state_of self.new) }
    {
        if self.given >= MOST_GIVEN {
            return whole(Err(fault_at(MacroCause::ExpansionTooLong, pos)));
        }
        self.given += 1;
        match head {
            Head::Word(word, operands) => self.rewrite_word(
                *word, pos, operands, frame, known, ins,
            ),
            Head::Call(name, one, operands) => whole(self.call(name, one, pos, operands, frame)),
        }
    }
}
