//! Statements are taken off the list one after the other, up to its end.

ghost use Rattle.std.specs.Prelude.{◌≡◌, ◌∷◌, ◌<◌, ◌≤◌, ◌+◌, ◌*◌, IfOk, OnOk, Ok, vec_len};
ghost use Rattle.macro_blocks.specs.Frames.{copies_left, level_of, text_in};
ghost use Rattle.asm_macro.specs.declared.turned.Turned.TheVariants as turned;
ghost use Rattle.asm_macro.specs.Expansion.{most_given, under};
ghost use Rattle.asm_macro.specs.Readings.{input_by};
ghost use Rattle.asm_macro.specs.Running.{Enters, Expands, Grows, RunsFrom, end_marks};
ghost use Rattle.asm_macro.specs.OpenParts.{AreFew, WereFew};
ghost use Rattle.asm_macro.specs.Turning.{KeepsFew, TakesOne, TakesPart, state_of};

use crate::expander::Expander;
use crate::faults::ExpandFault;
use crate::open_parts::Part;
use crate::turned::Turned;
use asm_base::{Inputs, Steps};
use macro_blocks::{Frame, Taken};
use macro_words::{KnowingPlacer, MacroCause, labels_length};
use std::alloc::AllocError;
use std::sync::ledger::Ledger;

impl Expander {
    /// Takes statements off a text, up to the first that changes what is open, or the next text. A step is a statement or an end
    /// mark that leaves the list.
    fn run_text<P: KnowingPlacer, I: Inputs, L: Ledger>(
        &mut self,
        source: &[u8],
        frame: &mut Frame,
        placer: &mut P,
        ins: &mut I,
        steps: &mut Steps<L>,
    ) -> Result<Turned, ExpandFault<P::Fault>>
        requires { source.now ≡ text_in frame.old }
        ensures run { RunsFrom P.placed P.told (I.contents ins.old)
            (under (level_of frame.old) (state_of self.old)) placer.old
            result (level_of frame.new) (state_of self.new) placer.new
            (input_by I.contents I.rest I.faults I.missing I.taken I.history ins.old)
            (input_by I.contents I.rest I.faults I.missing I.taken I.history ins.new) }
        ensures given { OnOk result (self.old.given ≤ self.new.given) }
        ensures grows { IfOk result (λ turned. Enters turned → self.old.given < self.new.given) }
        ensures turns { steps.new + self.old.given ≤ steps.old + self.new.given + 1 }
        ensures turned { IfOk result (λ turned.
            steps.new + self.old.given ≤ steps.old + self.new.given + end_marks turned) }
        ensures copies { result ≡ Ok turned.Stays → self.new.given ≡ self.old.given
            → copies_left frame.new < copies_left frame.old }
        ensures parts { vec_len self.new.frames ≤ vec_len self.old.frames }
        ensures few { KeepsFew (level_of frame.old) (state_of self.old)
            result (level_of frame.new) (state_of self.new) }
    {
        let mut tokens = Vec::new(self.alloc);
        'statements: loop {
            match frame.take(source, &mut tokens) {
                Err(_) => return Err(ExpandFault::NoMemory),
                Ok(Taken::Statement(pos, count)) => {
                    steps.tick();
                    let statement = &tokens.as_slice()[..count];
                    let labels = labels_length(statement);
                    match self.head(&statement[labels..]) {
                        Err(_) => return Err(ExpandFault::NoMemory),
                        Ok(Some(head)) => {
                            return self.turn_head(
                                &head, pos, statement, labels, frame, placer, ins, steps,
                            );
                        }
                        Ok(None) => {
                            if let Err(fault) = self.hand_out(pos, statement, placer) {
                                return Err(fault);
                            }
                        }
                    }
                }
                Ok(Taken::NextCopy) => {
                    if let Err(_) = frame.begin_copy(self.alloc) {
                        return Err(ExpandFault::NoMemory);
                    }
                    return Ok(Turned::Stays);
                }
                Ok(Taken::End) => {
                    steps.tick();
                    if let Some(first) = frame.outermost() {
                        return Err(ExpandFault::Expansion(MacroCause::UnclosedBlock, first));
                    }
                    return Ok(Turned::Leaves);
                }
            }
        }
    }

    /// Takes statements off a part, up to the first that changes what is open or the text.
    fn run_part<P: KnowingPlacer, I: Inputs, L: Ledger>(
        &mut self,
        frame: &mut Frame,
        placer: &mut P,
        ins: &mut I,
        steps: &mut Steps<L>,
    ) -> Result<Turned, ExpandFault<P::Fault>>
        ensures run { RunsFrom P.placed P.told (I.contents ins.old)
            (under (level_of frame.old) (state_of self.old)) placer.old
            result (level_of frame.new) (state_of self.new) placer.new
            (input_by I.contents I.rest I.faults I.missing I.taken I.history ins.old)
            (input_by I.contents I.rest I.faults I.missing I.taken I.history ins.new) }
        ensures grows { IfOk result (λ turned. Grows turned self.old.given self.new.given) }
        ensures turns { steps.new + self.old.given ≤ steps.old + self.new.given + 1 }
        ensures turned { IfOk result (λ turned.
            steps.new + self.old.given ≤ steps.old + self.new.given + end_marks turned) }
        ensures parts { vec_len self.new.frames ≤ vec_len self.old.frames }
        ensures few { KeepsFew (level_of frame.old) (state_of self.old)
            result (level_of frame.new) (state_of self.new) }
    {
        let given = self.given;
        'copies: loop {
            let text = match frame.text() {
                Ok(text) => text,
                Err(_) => return Err(ExpandFault::NoMemory),
            };
            match self.run_text(text.as_bytes(), frame, placer, ins, steps) {
                Ok(Turned::Stays) => {
                    if self.given != given {
                        return Ok(Turned::Stays);
                    }
                }
                Ok(Turned::Enters(inner)) => return Ok(Turned::Enters(inner)),
                Ok(Turned::Leaves) => return Ok(Turned::Leaves),
                Err(fault) => return Err(fault),
            }
        }
    }

    /// Takes the part in front off the list, if one is left.
    #[tactic(auto, using(crate::proofs::Stacks::popped, crate::proofs::Stacks::no_levels, crate::proofs::ShallowLists::were_few, crate::proofs::ShallowLists::left_few))]
    fn take_part(&mut self) -> Option<Part>
        ensures part { TakesPart result (state_of self.old) (state_of self.new) }
        ensures few { WereFew result (state_of self.new).levels }
        ensures count { TakesOne result (vec_len self.old.frames) (vec_len self.new.frames) }
    {
        self.frames.pop()
    }

    /// Puts a part in front of the list.
    #[tactic(auto, using(crate::proofs::Stacks::pushed, crate::proofs::ShallowLists::put_few))]
    fn put_part(&mut self, part: Part) -> Result<(), AllocError>
        requires { AreFew (level_of part ∷ (state_of self.old).levels) }
        ensures part { OnOk result (state_of self.new ≡ under (level_of part) (state_of self.old)) }
        ensures count { OnOk result (vec_len self.new.frames ≡ vec_len self.old.frames + 1) }
        ensures files { self.new.files ≡ self.old.files }
    {
        if let Err(_) = self.frames.push(part) {
            return Err(AllocError);
        }
        Ok(())
    }

    /// Puts a part and one inside it in front of the list.
    #[tactic(auto, using(crate::proofs::ShallowLists::fewer_parts))]
    fn enter(&mut self, outer: Part, inner: Part) -> Result<(), AllocError>
        requires { AreFew (level_of inner ∷ level_of outer ∷ (state_of self.old).levels) }
        ensures part { OnOk result (state_of self.new
            ≡ under (level_of inner) (under (level_of outer) (state_of self.old))) }
        ensures count { OnOk result (vec_len self.new.frames ≡ vec_len self.old.frames + 2) }
        ensures files { self.new.files ≡ self.old.files }
    {
        if let Err(_) = self.put_part(outer) {
            return Err(AllocError);
        }
        self.put_part(inner)
    }

    /// Places each statement that the list comes to, up to its end.
    pub(crate) fn expand<P: KnowingPlacer, I: Inputs, L: Ledger>(
        &mut self,
        placer: &mut P,
        ins: &mut I,
        steps: &mut Steps<L>,
    ) -> Result<(), ExpandFault<P::Fault>>
        ensures turns { steps.new + 2 * self.old.given
            ≤ steps.old + vec_len self.old.frames + 2 * most_given }
        ensures expands { Expands P.placed P.told (I.contents ins.old)
            (state_of self.old) placer.old result self.new.files placer.new
            (input_by I.contents I.rest I.faults I.missing I.taken I.history ins.old)
            (input_by I.contents I.rest I.faults I.missing I.taken I.history ins.new) }
    {
        'parts: while let Some(part) = self.take_part() {
            let mut frame = part.into_frame();
            match self.run_part(&mut frame, placer, ins, steps) {
                Ok(Turned::Stays) => {
                    if let Err(_) = self.put_part(Part::with_frame(frame)) {
                        return Err(ExpandFault::NoMemory);
                    }
                }
                Ok(Turned::Enters(inner)) => {
                    if let Err(_) = self.enter(Part::with_frame(frame), inner) {
                        return Err(ExpandFault::NoMemory);
                    }
                }
                Ok(Turned::Leaves) => {}
                Err(fault) => return Err(fault),
            }
        }
        Ok(())
    }
}
