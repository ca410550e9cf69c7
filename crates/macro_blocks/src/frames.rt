//! What is left of an open file, call or repeat: a place in a text, and copies that are to come.

ghost use Rattle.std.specs.Prelude.{◌≡◌, ◌<◌, ◌≤◌, true, length};
ghost use Rattle.asm_lines.specs.LineNumbers.{line_of};
ghost use Rattle.macro_blocks.specs.Places.{is_whole};

use crate::blocks::Ending;
use crate::copies::EachCopy;
use crate::places::Place;
use asm_base::{Pos, Text, Token};
use asm_lines::{NextStatement, next_statement};
use macro_words::MacroCause;
use std::alloc::{AllocError, Global};
use std::rc::Rc;

/// What stands next in an open file, call or repeat.
#[derive(Clone, Copy, Debug)]
pub enum Taken {
    /// A statement that stands here: the first so many of the tokens.
    Statement(Pos, usize),
    /// A copy with a text of its own.
    NextCopy,
    /// Its end mark.
    End,
}

/// A statement that was read: where it stands, and how many tokens it has.
#[derive(Clone, Copy, Debug)]
pub(crate) struct Read {
    pub pos: Pos,
    pub count: usize,
}

/// A statement that ends a branch: where it stands, and whether a branch that is chosen begins there, or its fault.
#[derive(Clone, Copy, Debug)]
pub struct Branch {
    pub pos: Pos,
    pub verdict: Result<bool, MacroCause>,
}

/// An open file, call or repeat: the rest of a text from an offset on, further copies of the text that are alike, and behind those the
/// copies of a body for the values of a name.
#[derive(Drop)]
pub struct Frame {
    pub(crate) text: Rc<Text>,
    pub(crate) at: usize,
    pub(crate) line: u32,
    /// How many more copies of the text follow.
    pub(crate) alike: u64,
    pub(crate) each: EachCopy,
    pub(crate) place: Place,
    pub(crate) ends: Ending,
    /// Where the conditionals begin that are open.
    pub(crate) open: Vec<Pos>,
    /// The number of the innermost call that it stands in.
    pub(crate) call_number: Option<u64>,
    ghost within: { at ≤ length text.value },
    ghost line_there: { line ≡ line_of text.value at },
    ghost whole: { is_whole text.value at ≡ true },
    ghost again: { 0 < alike → is_whole text.value 0 ≡ true },
    ghost alone: { 0 < alike → each.next ≡ length each.line.values.items },
}

impl Frame {
    ghost use Rattle.std.specs.Prelude.{[], ◌∷◌, ◌++◌, ◌+◌, ◌-◌, None, Ok, map, IfOk, OnOk};
    ghost use Rattle.asm_lines.specs.NextStatements.{in_tokens, statements_left, found_left};
    ghost use Rattle.macro_blocks.specs.declared.blocks.Ending.TheVariants as ending;
    ghost use Rattle.macro_blocks.specs.declared.frames.Taken.TheVariants as taken;
    ghost use Rattle.macro_blocks.specs.Levels.{with_open, first_open, but_last, level_with};
    ghost use Rattle.macro_blocks.specs.Places.{left_in};
    ghost use Rattle.macro_blocks.specs.Copies.{each_of, later_of};
    ghost use Rattle.macro_blocks.specs.Frames.{text_in, copies_left, level_of, IsSamePart, IsSameText, StandsBeforeCopy, Reads, Takes, IsOutermost};

    /// The statements of a file from an offset on, whose lines have no fault from there on; the file was started in the call of this
    /// number, if in one.
    pub fn file(
        alloc: Global,
        text: Rc<Text>,
        file: u32,
        at: usize,
        line: u32,
        call_number: Option<u64>,
    ) -> Frame
        requires within { at ≤ length text.value }
        requires line { line ≡ line_of text.value at }
        requires whole { found_left text.value at ≡ None }
        ensures level { level_of result
            ≡ level_with call_number ending.File
            (map in_tokens (statements_left file text.value at)) }
        ensures text { text_in result ≡ text.value }
    {
        Frame {
            text,
            at,
            line,
            alike: 0,
            each: EachCopy::none(alloc),
            place: Place::File(file),
            ends: Ending::File,
            open: Vec::new(alloc),
            call_number,
        }
    }

    /// The text in which the next statement stands.
    pub fn text(&self) -> Result<Rc<Text>, AllocError>
        ensures { IfOk result (λ text. text.value ≡ text_in self.now) }
    {
        self.text.clone()
    }

    /// What ends behind it.
    #[tactic(auto, unfolding(crate::specs::Frames::level_of))]
    pub fn ends(&self) -> Ending
        ensures { result ≡ (level_of self.now).ends }
    {
        self.ends
    }

    /// The number of the innermost call that it stands in, if it stands in one.
    #[tactic(auto, unfolding(crate::specs::Frames::level_of))]
    pub fn call_number(&self) -> Option<u64>
        ensures { result ≡ (level_of self.now).call_number }
    {
        self.call_number
    }

    /// Goes back to the beginning of the text for the next copy of it.
    pub(crate) fn restart(&mut self)
        requires { 0 < self.old.alike }
        ensures statements { (level_of self.new).statements
            ≡ later_of self.old.place self.old.text.value self.old.alike self.old.each }
        ensures alike { self.new.alike + 1 ≡ self.old.alike }
        ensures at { self.new.at ≡ 0 }
        ensures text { self.new.text.value ≡ self.old.text.value }
        ensures each { self.new.each ≡ self.old.each }
        ensures same { IsSamePart self.old self.new }
    {
        self.alike -= 1;
        self.at = 0;
        self.line = 1;
    }

    /// Makes the text of the next copy that has one of its own, and begins with it.
    pub(crate) fn next_text(&mut self, alloc: Global) -> Result<(), AllocError>
        requires alike { self.old.alike ≡ 0 }
        requires more { 0 < copies_left self.old }
        ensures statements { OnOk result ((level_of self.new).statements
            ≡ each_of self.old.place self.old.each) }
        ensures copies { OnOk result (copies_left self.new + 1 ≡ copies_left self.old) }
        ensures alike { self.new.alike ≡ 0 }
        ensures at { OnOk result (self.new.at ≡ 0) }
        ensures same { IsSamePart self.old self.new }
    {
        let bytes = self.each.next_text(alloc)?;
        let made = Text::new(bytes);
        let text = Rc::new(alloc, made)?;
        self.each.pass();
        self.text = text;
        self.at = 0;
        self.line = 1;
        Ok(())
    }

    /// Reads the statement that stands next in the text, if one does.
    #[inline(always)]
    fn read_next<'a>(
        &mut self,
        source: &'a [u8],
        tokens: &mut Vec<Token<'a>>,
    ) -> Result<Option<Read>, AllocError>
        requires { source.now ≡ self.old.text.value }
        ensures reads { IfOk result (λ read. Reads read tokens.new.items
            self.old self.new) }
        ensures same { IsSameText self.old self.new }
    {
        match next_statement(source, self.at, self.line, tokens)? {
            NextStatement::Statement(line, next, there, count) => {
                self.at = next;
                self.line = there;
                Ok(Some(Read {
                    pos: self.place.pos_in(line),
                    count,
                }))
            }
            NextStatement::End => Ok(None),
            NextStatement::Faulty => unreachable!(),
        }
    }

    /// Takes off the first statement of the next copy, where no statement is left in this one.
    #[inline(never)]
    fn take_later<'a>(
        &mut self,
        source: &'a [u8],
        tokens: &mut Vec<Token<'a>>,
    ) -> Result<Taken, AllocError>
        requires source { source.now ≡ text_in self.old }
        requires none { left_in self.old.place self.old.text.value self.old.at ≡ [] }
        ensures next { IfOk result (λ taken. Takes taken tokens.new.items
            (level_of self.old) (level_of self.new)) }
        ensures more { result ≡ Ok taken.NextCopy → StandsBeforeCopy self.new }
        ensures copies { copies_left self.new ≡ copies_left self.old }
        ensures text { text_in self.new ≡ text_in self.old }
    {
        if self.alike > 0 {
            self.restart();
            match self.read_next(source, tokens)? {
                Some(read) => Ok(Taken::Statement(read.pos, read.count)),
                None => Ok(Taken::End),
            }
        } else if self.each.is_left() {
            Ok(Taken::NextCopy)
        } else {
            Ok(Taken::End)
        }
    }

    /// Takes off the statement that stands next in its text, which is the source, into the first of the tokens.
    #[inline(always)]
    pub fn take<'a>(
        &mut self,
        source: &'a [u8],
        tokens: &mut Vec<Token<'a>>,
    ) -> Result<Taken, AllocError>
        requires { source.now ≡ text_in self.old }
        ensures next { IfOk result (λ taken. Takes taken tokens.new.items
            (level_of self.old) (level_of self.new)) }
        ensures more { result ≡ Ok taken.NextCopy → StandsBeforeCopy self.new }
        ensures copies { copies_left self.new ≡ copies_left self.old }
        ensures text { text_in self.new ≡ text_in self.old }
    {
        match self.read_next(source, tokens)? {
            Some(read) => Ok(Taken::Statement(read.pos, read.count)),
            None => self.take_later(source, tokens),
        }
    }

    /// Begins the next copy that has a text of its own, where no statement is left before it.
    pub fn begin_copy(&mut self, alloc: Global) -> Result<(), AllocError>
        requires { StandsBeforeCopy self.old }
        ensures level { OnOk result (level_of self.new ≡ level_of self.old) }
        ensures copies { OnOk result (copies_left self.new < copies_left self.old) }
    {
        self.next_text(alloc)?;
        Ok(())
    }

    /// A conditional that begins here is open from here on.
    #[tactic(auto, unfolding(crate::specs::Frames::level_of))]
    pub fn open(&mut self, pos: Pos) -> Result<(), AllocError>
        ensures level { OnOk result (level_of self.new
            ≡ with_open ((level_of self.old).open_at ++ pos ∷ []) (level_of self.old)) }
        ensures copies { copies_left self.new ≡ copies_left self.old }
        ensures text { text_in self.new ≡ text_in self.old }
    {
        self.open.push(pos)?;
        Ok(())
    }

    /// The innermost conditional is open no more.
    #[tactic(auto, unfolding(crate::specs::Frames::level_of))]
    pub fn close(&mut self)
        ensures level { level_of self.new
            ≡ with_open (but_last (level_of self.old).open_at) (level_of self.old) }
        ensures copies { copies_left self.new ≡ copies_left self.old }
        ensures text { text_in self.new ≡ text_in self.old }
    {
        let _ = self.open.pop();
    }

    /// Where the outermost conditional begins that is open.
    #[tactic(auto, unfolding(crate::specs::Frames::level_of))]
    pub fn outermost(&self) -> Option<Pos>
        ensures { IsOutermost result (level_of self.now).open_at }
    {
        self.open.first().copied()
    }

    /// Where the outermost block begins that is open: a conditional's, or else the one that begins here.
    #[tactic(auto, unfolding(crate::specs::Frames::level_of))]
    pub fn first_open(&self, pos: Pos) -> Pos
        ensures { result ≡ first_open pos (level_of self.now).open_at }
    {
        self.outermost().unwrap_or(pos)
    }
}
