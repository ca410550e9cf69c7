//! Macros: their definitions, calls and ends (GNU as manual, ".macro", ".purgem").

ghost use Rattle.std.specs.Prelude.{◌≡◌, ◌<◌, ◌≤◌, map, vec_len, IfOk};
ghost use Rattle.asm_base.specs.Tokens.{spelled};
ghost use Rattle.macro_texts.specs.ArgumentsSeen.{argument_seen};
ghost use Rattle.macro_texts.specs.Putting.{put};
ghost use Rattle.macro_blocks.specs.Frames.{level_of};
ghost use Rattle.asm_macro.specs.Expansion as spec;
ghost use Rattle.asm_macro.specs.Macros.{seen_as};
ghost use Rattle.asm_macro.specs.OpenParts.{AreFew, levels_of};
ghost use Rattle.asm_macro.specs.Turning.{IsTurn, KeepsCounts, LeavesCall, state_of};

use crate::depths::is_call;
use crate::expander::Expander;
use crate::macros::Macro;
use crate::open_parts::Part;
use crate::refusing::{fault_at, standing, standing_line};
use crate::turned::{MacroFault, Turned};
use asm_base::{Pos, Refusal, Text, Token};
use macro_blocks::{Block, Frame};
use macro_texts::{Argument, call_arguments, has_backslash, macro_line, put_in};
use macro_words::{MacroCause, one_name};
use std::alloc::AllocError;
use std::rc::Rc;

/// Takes the open parts away up to the innermost call, that included. It says whether there is one.
fn leave_call(frames: &mut Vec<Part>) -> bool
    ensures after { LeavesCall result (levels_of frames.old.items) (levels_of frames.new.items) }
    ensures few { AreFew (levels_of frames.old.items) → AreFew (levels_of frames.new.items) }
    ensures fewer { vec_len frames.new ≤ vec_len frames.old }
{
    'parts: while let Some(outer) = frames.pop() {
        if is_call(outer.as_frame()) {
            return true;
        }
    }
    false
}

impl Expander {
    /// A definition leaves the list, and the macro is known.
    #[tactic(auto, unfolding(crate::specs::Expansion::define))]
    pub(crate) fn define(
        &mut self,
        pos: Pos,
        operands: &[Token],
        frame: &mut Frame,
    ) -> Result<Turned, Refusal<MacroFault>>
        ensures turn { IsTurn result (spec.define pos (map spelled operands.now)
            (level_of frame.old) (state_of self.old)) (level_of frame.new) (state_of self.new) }
        ensures counts { KeepsCounts self.old self.new }
    {
        let line = match macro_line(self.alloc, operands) {
            Ok(line) => line,
            Err(refusal) => return Err(standing_line(refusal, pos)),
        };
        if self.macros.has(&line.name) {
            return Err(fault_at(MacroCause::MacroAlreadyDefined, pos));
        }
        let first = frame.first_open(pos);
        let Some(body) = frame.take_body(self.alloc, Block::Macro)? else {
            return Err(fault_at(MacroCause::UnclosedBlock, first));
        };
        let body = Rc::new(self.alloc, Text::new(body))?;
        let one = Macro {
            parameters: line.parameters,
            body,
        };
        self.macros.add(self.alloc, line.name, one)?;
        Ok(Turned::Stays)
    }

    /// The macro's body with arguments put in: the body itself where it has no backslash.
    fn made_text(&self, one: &Macro, arguments: &[Argument]) -> Result<Rc<Text>, AllocError>
        ensures { IfOk result (λ text. text.value
            ≡ put (map argument_seen arguments.now) self.now.begun one.now.body.value) }
    {
        let body = one.body.as_bytes();
        if !has_backslash(body) {
            return one.body.clone();
        }
        let text = put_in(self.alloc, arguments, self.begun, body)?;
        Ok(Rc::new(self.alloc, Text::new(text))?)
    }

    /// A call becomes the macro's body with arguments put in.
    #[tactic(auto, unfolding(crate::specs::Expansion::call))]
    pub(crate) fn call(
        &mut self,
        name: &[u8],
        one: &Macro,
        pos: Pos,
        operands: &[Token],
        frame: &Frame,
    ) -> Result<Turned, Refusal<MacroFault>>
        requires { self.old.begun < self.old.given }
        ensures turn { IsTurn result (spec.call (seen_as name.now one.now) pos
            (map spelled operands.now) (level_of frame.now) (state_of self.old))
            (level_of frame.now) (state_of self.new) }
        ensures counts { KeepsCounts self.old self.new }
    {
        let arguments = match call_arguments(self.alloc, &one.parameters, operands) {
            Ok(arguments) => arguments,
            Err(refusal) => return Err(standing_line(refusal, pos)),
        };
        if self.is_deep(frame) {
            return Err(fault_at(MacroCause::NestedTooDeeply, pos));
        }
        let text = self.made_text(one, &arguments)?;
        let number = self.begun;
        self.begun += 1;
        match Frame::call(self.alloc, text, pos, number) {
            Ok(callee) => Ok(Turned::Enters(Part::new(self.alloc, callee)?)),
            Err(refusal) => Err(standing(refusal, pos)),
        }
    }

    /// `.purgem`: the macro is known no more.
    #[tactic(auto, unfolding(crate::specs::Expansion::purge))]
    pub(crate) fn purge(
        &mut self,
        pos: Pos,
        operands: &[Token],
        frame: &Frame,
    ) -> Result<Turned, Refusal<MacroFault>>
        ensures turn { IsTurn result (spec.purge pos (map spelled operands.now)
            (level_of frame.now) (state_of self.old)) (level_of frame.now) (state_of self.new) }
        ensures counts { KeepsCounts self.old self.new }
    {
        let name = match one_name(operands) {
            Ok(name) => name,
            Err(cause) => return Err(fault_at(cause, pos)),
        };
        if !self.macros.has(name) {
            return Err(fault_at(MacroCause::BadMacroLine, pos));
        }
        self.macros.forget(name);
        Ok(Turned::Stays)
    }

    /// `.exitm`: all is taken away up to the end of the innermost call.
    #[tactic(auto, using(crate::proofs::Stacks::exits_call, crate::proofs::Stacks::exits_more), unfolding(crate::specs::Expansion::exit))]
    pub(crate) fn exit(&mut self, pos: Pos, frame: &Frame) -> Result<Turned, Refusal<MacroFault>>
        ensures turn { IsTurn result (spec.exit pos (level_of frame.now) (state_of self.old))
            (level_of frame.now) (state_of self.new) }
        ensures counts { KeepsCounts self.old self.new }
    {
        if is_call(frame) {
            return Ok(Turned::Leaves);
        }
        if leave_call(&mut self.frames) {
            return Ok(Turned::Leaves);
        }
        Err(fault_at(MacroCause::EndWithoutBeginning, pos))
    }
}
