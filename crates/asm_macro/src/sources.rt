//! A source: its front, and the rest from its first word of expansion on.

ghost use Rattle.std.specs.Prelude.{◌≡◌, ◌≤◌, ◌<◌, ◌+◌, ◌*◌, None, length};
ghost use Rattle.asm_lines.specs.LineNumbers.{line_of};
ghost use Rattle.asm_lines.specs.NextStatements.{found_left};
ghost use Rattle.asm_macro.specs.Expansion.{most_given};
ghost use Rattle.asm_macro.specs.Fronts.{plain, rest_at};
ghost use Rattle.asm_macro.specs.Placing.{most_turns};
ghost use Rattle.asm_macro.specs.Readings.{input_by};
ghost use Rattle.asm_macro.specs.Running.{Expands};
ghost use Rattle.asm_macro.specs.Sources.{IsSourceExpanded};

use crate::expander::Expander;
use crate::faults::ExpandFault;
use crate::fronts::{Stop, check_lines, place_front};
use crate::macros::Macros;
use crate::open_parts::Part;
use asm_base::{Files, Inputs, Pos, Refusal, Steps, Text};
use asm_lines::{has_nul, line_faults_are_found};
use macro_blocks::Frame;
use macro_words::{KnowingPlacer, MacroCause};
use std::alloc::Global;
use std::mem;
use std::rc::Rc;
use std::sync::ledger::{Blank, Ledger};

/// Places what the rest of a source comes to, from this offset on, on this line; so many statements stand before it.
fn expand_rest<P: KnowingPlacer, I: Inputs, L: Ledger>(
    alloc: Global,
    text: Text,
    at: usize,
    line: u32,
    given: u32,
    files: &mut Files,
    placer: &mut P,
    ins: &mut I,
    steps: &mut Steps<L>,
) -> Result<(), ExpandFault<P::Fault>>
    requires within { at ≤ length text }
    requires line { line ≡ line_of text at }
    requires whole { found_left text at ≡ None }
    requires few { given ≤ most_given }
    requires one { length files.old ≡ 1 }
    ensures turns { steps.new + 2 * given ≤ steps.old + 2 * most_given + 1 }
    ensures expands { Expands P.placed P.told (I.contents ins.old)
        (plain files.old given (rest_at text at)) placer.old
        result files.new placer.new
        (input_by I.contents I.rest I.faults I.missing I.taken I.history ins.old)
        (input_by I.contents I.rest I.faults I.missing I.taken I.history ins.new) }
{
    let Ok(text) = Rc::new(alloc, text) else {
        return Err(ExpandFault::NoMemory);
    };
    let file = Frame::file(alloc, text, 0, at, line, None);
    let Ok(frames) = Part::alone(alloc, file) else {
        return Err(ExpandFault::NoMemory);
    };
    let mut expander = Expander {
        alloc,
        frames,
        macros: Macros::new(alloc),
        begun: 0,
        given,
        files: mem::replace(files, Files::new(alloc)),
    };
    let result = expander.expand(placer, ins, steps);
    *files = expander.into_files();
    result
}

/// Places what a source comes to, or finds the fault of its lines.
fn expand_text<P: KnowingPlacer, I: Inputs, L: Ledger>(
    alloc: Global,
    text: Text,
    files: &mut Files,
    placer: &mut P,
    ins: &mut I,
    steps: &mut Steps<L>,
) -> Result<(), ExpandFault<P::Fault>>
    requires { length files.old ≡ 1 }
    ensures turns { steps.new ≤ steps.old + 2 * most_given + 1 }
    ensures expanded { IsSourceExpanded P.placed P.told (I.contents ins.old)
        text files.old placer.old result files.new placer.new
        (input_by I.contents I.rest I.faults I.missing I.taken I.history ins.old)
        (input_by I.contents I.rest I.faults I.missing I.taken I.history ins.new) }
{
    line_faults_are_found();
    if has_nul(text.as_bytes()) {
        return check_lines(alloc, &text);
    }
    match place_front(alloc, text.as_bytes(), placer, steps) {
        Stop::End => Ok(()),
        Stop::NoMemory | Stop::Refused(Refusal::NoMemory) => Err(ExpandFault::NoMemory),
        Stop::Faulty => check_lines(alloc, &text),
        Stop::TooLong(line) => match check_lines(alloc, &text) {
            Ok(()) => {
                let pos = Pos { file: 0, line };
                Err(ExpandFault::Expansion(MacroCause::ExpansionTooLong, pos))
            }
            Err(fault) => Err(fault),
        },
        Stop::Refused(Refusal::Fault(fault)) => match check_lines(alloc, &text) {
            Ok(()) => Err(ExpandFault::Placing(fault)),
            Err(fault) => Err(fault),
        },
        Stop::Word(at, line, given) => match check_lines(alloc, &text) {
            Ok(()) => expand_rest(alloc, text, at, line, given, files, placer, ins, steps),
            Err(fault) => Err(fault),
        },
    }
}

/// Places what a source comes to, or finds the fault of its lines, as `expand_source` does. A step is a turn of the list: a
/// statement, or the end mark of a file, a call or a repeat, leaves its head. Whatever the answer is, there are at most as many
/// turns as lead every list to its outcome.
#[tactic(auto, unfolding(crate::specs::Placing::most_turns))]
pub fn counted_expand_source<P: KnowingPlacer, I: Inputs, L: Ledger>(
    alloc: Global,
    text: Text,
    files: &mut Files,
    placer: &mut P,
    ins: &mut I,
    steps: &mut Steps<L>,
) -> Result<(), ExpandFault<P::Fault>>
    requires { length files.old ≡ 1 }
    ensures turns { steps.new ≤ steps.old + most_turns }
    ensures expanded { IsSourceExpanded P.placed P.told (I.contents ins.old)
        text files.old placer.old result files.new placer.new
        (input_by I.contents I.rest I.faults I.missing I.taken I.history ins.old)
        (input_by I.contents I.rest I.faults I.missing I.taken I.history ins.new) }
{
    expand_text(alloc, text, files, placer, ins, steps)
}

/// Places what a source comes to, with a count of turns of its own.
pub(crate) fn expand_alone<P: KnowingPlacer, I: Inputs, L: Ledger>(
    alloc: Global,
    text: Text,
    files: &mut Files,
    placer: &mut P,
    ins: &mut I,
    blank: Blank,
) -> Result<(), ExpandFault<P::Fault>>
    requires name { blank.name ≡ L.name }
    requires parts { blank.parts ≡ L.parts }
    requires some { 0 < blank.parts }
    requires one { length files.old ≡ 1 }
    ensures { IsSourceExpanded P.placed P.told (I.contents ins.old) text files.old placer.old
        result files.new placer.new
        (input_by I.contents I.rest I.faults I.missing I.taken I.history ins.old)
        (input_by I.contents I.rest I.faults I.missing I.taken I.history ins.new) }
{
    let mut steps = Steps::<L>::new(blank);
    counted_expand_source(alloc, text, files, placer, ins, &mut steps)
}
