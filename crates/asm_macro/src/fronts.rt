//! The statements of a source before its first word of expansion, placed in one pass over its bytes.

ghost use Rattle.std.specs.Prelude.{◌+◌, ◌≤◌};
ghost use Rattle.asm_macro.specs.Fronts.{ChecksLines, StopsAt, most_turned};

use crate::faults::ExpandFault;
use crate::rewriting::MOST_GIVEN;
use asm_base::{Pos, Refusal, Steps, Text};
use asm_lines::{NextStatement, fault_of_lines, next_statement};
use macro_words::{KnowingPlacer, labels_length, word_of_head};
use std::alloc::Global;
use std::sync::ledger::Ledger;

/// Where placing stopped, and why.
#[derive(Drop)]
pub(crate) enum Stop<F> {
    /// All statements are placed.
    End,
    /// A word of expansion stands in the statement from this offset on, on this line; so many stand before it.
    Word(usize, u32, u32),
    /// The statement on this line is one too many.
    TooLong(u32),
    /// A statement is not placed.
    Refused(Refusal<F>),
    /// The lines have a fault.
    Faulty,
    /// Memory was refused.
    NoMemory,
}

/// The first fault of the lines of a source, if they have one.
#[inline(never)]
pub(crate) fn check_lines<F: Drop>(alloc: Global, text: &Text) -> Result<(), ExpandFault<F>>
    ensures { ChecksLines text.now result }
{
    match fault_of_lines(alloc, text, 0) {
        Err(_) => Err(ExpandFault::NoMemory),
        Ok(Some(cause)) => Err(ExpandFault::Lines(cause)),
        Ok(None) => Ok(()),
    }
}

/// Places the statements of a source up to its first word of expansion. A step is a statement that leaves the list, or its end mark.
pub(crate) fn place_front<P: KnowingPlacer, L: Ledger>(
    alloc: Global,
    source: &[u8],
    placer: &mut P,
    steps: &mut Steps<L>,
) -> Stop<P::Fault>
    ensures turns { steps.new ≤ steps.old + most_turned result }
    ensures stops { StopsAt P.placed P.told source.now placer.old placer.new result }
{
    let mut tokens = Vec::new(alloc);
    let mut at = 0;
    let mut line = 1;
    let mut given = 0;
    'statements: loop {
        match next_statement(source, at, line, &mut tokens) {
            Err(_) => return Stop::NoMemory,
            Ok(NextStatement::Statement(here, next, there, count)) => {
                let statement = &tokens.as_slice()[..count];
                let labels = labels_length(statement);
                if word_of_head(&statement[labels..]).is_some() {
                    return Stop::Word(at, line, given);
                }
                steps.tick();
                if given >= MOST_GIVEN {
                    return Stop::TooLong(here);
                }
                let pos = Pos {
                    file: 0,
                    line: here,
                };
                if let Err(refusal) = placer.place(pos, statement) {
                    return Stop::Refused(refusal);
                }
                given += 1;
                at = next;
                line = there;
            }
            Ok(NextStatement::End) => {
                steps.tick();
                return Stop::End;
            }
            Ok(NextStatement::Faulty) => return Stop::Faulty,
        }
    }
}
