//! The head of the list: a statement is placed, or becomes what it stands for.

ghost use Rattle.std.specs.Prelude.{◌≡◌, ◌<◌, ◌≤◌, ◌+◌, Some, OnOk, length, map, take, drop, vec_len};
ghost use Rattle.asm_base.specs.Refusals.{Gives};
ghost use Rattle.asm_base.specs.Tokens.{spelled};
ghost use Rattle.macro_blocks.specs.Frames.{level_of};
ghost use Rattle.macro_words.specs.Statements.{labels_of, behind_labels};
ghost use Rattle.asm_macro.specs.Heads.{IsHead};
ghost use Rattle.asm_macro.specs.Readings.{input_by};
ghost use Rattle.asm_macro.specs.Running.{HandsOut, RunsFrom, headed};
ghost use Rattle.asm_macro.specs.Turning.{KeepsFew, state_of};

use crate::expander::Expander;
use crate::faults::ExpandFault;
use crate::heads::Head;
use crate::rewriting::MOST_GIVEN;
use crate::turned::Turned;
use asm_base::{Inputs, Pos, Refusal, Steps, Token};
use macro_blocks::Frame;
use macro_words::{KnowingPlacer, MacroCause};
use std::sync::ledger::Ledger;

/// Places a statement of an open text, apart from the loop over the statements in front.
#[inline(never)]
fn place_apart<P: KnowingPlacer>(
    pos: Pos,
    tokens: &[Token],
    placer: &mut P,
) -> Result<(), Refusal<P::Fault>>
    ensures { Gives placer.new result (P.placed placer.old
        (record { file = pos.file; line = pos.line; tokens = map spelled tokens.now })) }
{
    placer.place(pos, tokens)
}

impl Expander {
    /// A statement leaves the head, and is placed.
    pub(crate) fn hand_out<P: KnowingPlacer>(
        &mut self,
        pos: Pos,
        tokens: &[Token],
        placer: &mut P,
    ) -> Result<(), ExpandFault<P::Fault>>
        ensures step { HandsOut P.placed
            (record { file = pos.file; line = pos.line; tokens = map spelled tokens.now })
            result (state_of self.old) placer.old (state_of self.new) placer.new }
        ensures given { self.old.given ≤ self.new.given }
        ensures handed { OnOk result (self.new.given ≡ self.old.given + 1) }
        ensures parts { vec_len self.new.frames ≤ vec_len self.old.frames }
    {
        if self.given >= MOST_GIVEN {
            return Err(ExpandFault::Expansion(MacroCause::ExpansionTooLong, pos));
        }
        match place_apart(pos, tokens, placer) {
            Ok(()) => {
                self.given += 1;
                Ok(())
            }
            Err(Refusal::Fault(fault)) => Err(ExpandFault::Placing(fault)),
            Err(Refusal::NoMemory) => Err(ExpandFault::NoMemory),
        }
    }

    /// A word or a call becomes what it stands for, behind its labels. A step is a statement of labels that leaves the list before it.
    pub(crate) fn turn_head<P: KnowingPlacer, I: Inputs, L: Ledger>(
        &mut self,
        head: &Head,
        pos: Pos,
        tokens: &[Token],
        labels: usize,
        frame: &mut Frame,
        placer: &mut P,
        ins: &mut I,
        steps: &mut Steps<L>,
    ) -> Result<Turned, ExpandFault<P::Fault>>
        requires within { labels ≤ length tokens.now }
        requires labels { take labels (map spelled tokens.now) ≡ labels_of (map spelled tokens.now) }
        requires head { IsHead (Some head.now) (behind_labels (map spelled tokens.now)) self.old.macros }
        ensures run { RunsFrom P.placed P.told (I.contents ins.old)
            (headed (record { file = pos.file; line = pos.line; tokens = map spelled tokens.now })
            (level_of frame.old) (state_of self.old)) placer.old
            result (level_of frame.new) (state_of self.new) placer.new
            (input_by I.contents I.rest I.faults I.missing I.taken I.history ins.old)
            (input_by I.contents I.rest I.faults I.missing I.taken I.history ins.new) }
        ensures given { OnOk result (self.old.given < self.new.given) }
        ensures turns { steps.new + self.old.given ≤ steps.old + self.new.given }
        ensures turned { OnOk result (steps.new + self.old.given < steps.old + self.new.given) }
        ensures parts { vec_len self.new.frames ≤ vec_len self.old.frames }
        ensures few { KeepsFew (level_of frame.old) (state_of self.old)
            result (level_of frame.new) (state_of self.new) }
    {
        if labels == 0 {
            return self.rewrite(head, pos, frame, placer, ins);
        }
        match self.hand_out(pos, &tokens[..labels], placer) {
            Ok(()) => {
                steps.tick();
                self.rewrite(head, pos, frame, placer, ins)
            }
            Err(fault) => Err(fault),
        }
    }
}
