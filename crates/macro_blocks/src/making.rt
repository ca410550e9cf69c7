//! What calls and repeats put in front of the list: the texts that they make.

ghost use Rattle.std.specs.Prelude.{◌≡◌, ◌∷◌, [], map, true, IfOk};
ghost use Rattle.asm_base.specs.Refusals.{GivesBy};
ghost use Rattle.macro_texts.specs.RepeatsSeen.{texts};
ghost use Rattle.macro_words.specs.Statements.{made_statements};
ghost use Rattle.macro_blocks.specs.Making.{ChecksText, ChecksCopies};

use crate::blocks::Ending;
use crate::copies::{EachCopy, copy_text};
use crate::frames::Frame;
use crate::places::Place;
use asm_base::{Pos, Refusal, Text};
use asm_lines::fault_of_lines;
use macro_texts::EachLine;
use macro_words::{MacroCause, line_cause};
use std::alloc::{AllocError, Global};
use std::rc::Rc;

/// Looks at the lines of a text that was made.
fn check_text(alloc: Global, text: &Text) -> Result<(), Refusal<MacroCause>>
    ensures { ChecksText text.now result }
{
    match fault_of_lines(alloc, text, 0) {
        Err(AllocError) => Err(Refusal::NoMemory),
        Ok(Some(cause)) => Err(Refusal::Fault(line_cause(cause))),
        Ok(None) => Ok(()),
    }
}

/// Looks at the lines of each copy of a body for the values of a line, one text at a time.
fn check_copies(
    alloc: Global,
    body: &[u8],
    line: &EachLine,
    number: u64,
) -> Result<(), Refusal<MacroCause>>
    ensures { ChecksCopies line.now.name.items number body.now (texts line.now.values.items) result }
{
    for value in &line.values {
        let bytes = copy_text(alloc, body, &line.name, value, number)?;
        let text = Text::new(bytes);
        if let Err(refusal) = check_text(alloc, &text) {
            return Err(refusal);
        }
    }
    Ok(())
}

impl Frame {
    ghost use Rattle.macro_blocks.specs.declared.blocks.Ending.TheVariants as ending;
    ghost use Rattle.std.specs.Prelude.{◌++◌, ◌<◌, length};
    ghost use Rattle.macro_blocks.specs.declared.places.Place.TheVariants as place;
    ghost use Rattle.macro_blocks.specs.Levels.{level_with, entered, copies_of, each_copy};
    ghost use Rattle.macro_blocks.specs.Places.{is_whole, left_in};
    ghost use Rattle.macro_blocks.specs.Copies.{each_of, later_of};
    ghost use Rattle.macro_blocks.specs.Frames.{level_of};

    /// A text that was made here, so many further copies of it, and the copies that have texts of their own.
    fn made(
        alloc: Global,
        text: Rc<Text>,
        pos: Pos,
        ends: Ending,
        alike: u64,
        each: EachCopy,
        call_number: Option<u64>,
    ) -> Frame
        requires whole { is_whole text.value 0 ≡ true }
        requires alone { 0 < alike → each.next ≡ length each.line.values.items }
        ensures { level_of result ≡ level_with call_number ends
            (left_in (place.At pos) text.value 0
            ++ later_of (place.At pos) text.value alike each) }
    {
        Frame {
            text,
            at: 0,
            line: 1,
            alike,
            each,
            place: Place::At(pos),
            ends,
            open: Vec::new(alloc),
            call_number,
        }
    }

    /// The copies that have texts of their own, repeated here.
    fn of_copies(
        alloc: Global,
        each: EachCopy,
        pos: Pos,
        call_number: Option<u64>,
    ) -> Result<Frame, AllocError>
        ensures { IfOk result (λ frame. level_of frame
            ≡ level_with call_number ending.Repeat (each_of (place.At pos) each)) }
    {
        let nothing = Text::new(Vec::new(alloc));
        let text = Rc::new(alloc, nothing)?;
        Ok(Frame::made(alloc, text, pos, Ending::Repeat, 0, each, call_number))
    }

    /// The body of a macro with arguments put in, called here by the call of this number, or the fault of its lines.
    pub fn call(
        alloc: Global,
        text: Rc<Text>,
        pos: Pos,
        number: u64,
    ) -> Result<Frame, Refusal<MacroCause>>
        ensures { GivesBy level_of result
            (entered (Some number) ending.Call (made_statements pos text.value)) }
    {
        check_text(alloc, &text)?;
        let each = EachCopy::none(alloc);
        Ok(Frame::made(alloc, text, pos, Ending::Call, 0, each, Some(number)))
    }

    /// So many copies of a body, repeated here in the call of this number, if in one, or the fault of its lines.
    pub fn repeat(
        alloc: Global,
        body: Vec<u8>,
        pos: Pos,
        count: u64,
        call_number: Option<u64>,
    ) -> Result<Frame, Refusal<MacroCause>>
        ensures { GivesBy level_of result (entered call_number ending.Repeat
            (copies_of count (made_statements pos body.items))) }
    {
        let text = Text::new(body);
        check_text(alloc, &text)?;
        if count == 0 {
            return Ok(Frame::of_copies(alloc, EachCopy::none(alloc), pos, call_number)?);
        }
        let text = Rc::new(alloc, text)?;
        let each = EachCopy::none(alloc);
        Ok(Frame::made(
            alloc,
            text,
            pos,
            Ending::Repeat,
            count - 1,
            each,
            call_number,
        ))
    }

    /// A copy of a body, in which `\@` is this number, for each of the values of a line, repeated here in the call of its number, if in
    /// one; or the fault of the lines of the first that has one.
    pub fn each(
        alloc: Global,
        body: Vec<u8>,
        line: EachLine,
        number: u64,
        pos: Pos,
        call_number: Option<u64>,
    ) -> Result<Frame, Refusal<MacroCause>>
        ensures { GivesBy level_of result (entered call_number ending.Repeat
            (each_copy pos line.name.items number body.items (texts line.values.items))) }
    {
        check_copies(alloc, &body, &line, number)?;
        let each = EachCopy {
            body,
            line,
            number,
            next: 0,
        };
        Ok(Frame::of_copies(alloc, each, pos, call_number)?)
    }
}
