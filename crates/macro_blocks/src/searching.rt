//! The search for the statement that ends a block or a branch, statement by statement.

ghost use Rattle.std.specs.Prelude.{◌≡◌, ◌+◌, ◌*◌, ◌-◌, ◌<◌, ◌≤◌, ◌^◌, List, [], Bool, Option, Result, Ok, false, true, map, drop, length, IfOk, OnOk};
ghost use Rattle.asm_base.specs.Refusals.{Returns};
ghost use Rattle.asm_base.specs.Tokens.{SpelledToken, spelled};
ghost use Rattle.asm_lines.specs.LineNumbers.{line_of};
ghost use Rattle.macro_words.specs.Statements.{behind_labels};
ghost use Rattle.macro_words.specs.declared.words.Word.{Word};
ghost use Rattle.macro_words.specs.declared.causes.MacroCause.{MacroCause};
ghost use Rattle.macro_blocks.specs.Places.{is_whole};
ghost use Rattle.macro_blocks.specs.Searches.{StopsBy, EndsBy, IsPassed, PassesOne, Seeks, sought_up_to};

use crate::blocks::Block;
use crate::bodies::push_statement;
use crate::places::Place;
use asm_base::{Pos, Refusal, Steps, Token};
use asm_lines::{NextStatement, counted_next_statement};
use macro_words::{MacroCause, Word, labels_length, word_of_head};
use std::alloc::{AllocError, Global};
use std::sync::ledger::{Blank, Ledger};

/// What says whether a branch that is chosen begins at a statement.
pub(crate) trait Verdicts {
    /// That, or the fault of the statement, by its word and its operands.
    ghost verdict: { Self → Option Word → List SpelledToken → Result Bool MacroCause };

    /// Whether one begins at a statement of this word, if it has one, with these operands.
    fn verdict(&self, word: Option<Word>, operands: &[Token]) -> Result<bool, Refusal<MacroCause>>
        ensures { Returns result (verdict self.now word (map spelled operands.now)) };
}

/// No branch begins in a block that is passed over whole.
pub(crate) struct NoBranch;

impl Verdicts for NoBranch {
    ghost verdict = { λ _ _ _. Ok false };

    fn verdict(
        &self,
        _word: Option<Word>,
        _operands: &[Token],
    ) -> Result<bool, Refusal<MacroCause>> {
        Ok(false)
    }
}

/// A statement at which a search ends: where it stands, whether a branch that is chosen begins there or its fault, and the offset and
/// the line behind it.
#[derive(Clone, Copy, Debug)]
pub(crate) struct Stop {
    pub pos: Pos,
    pub verdict: Result<bool, MacroCause>,
    pub at: usize,
    pub line: u32,
}

/// What comes of a search in a text.
#[derive(Clone, Copy, Debug)]
pub(crate) enum Sought {
    /// It ends at this statement.
    Stopped(Stop),
    /// It reached the offset at which it was to end.
    Limit,
    /// It reached the end of the text.
    End,
}

/// The room in bytes that the text of what is passed begins with.
const SHORT_TEXT: usize = 128;

/// A search for the end of a block: how many further blocks are open, and the text of what was passed, where that is kept.
#[derive(Drop)]
pub(crate) struct Search {
    pub block: Block,
    pub keeps: bool,
    pub deep: u128,
    pub text: Vec<u8>,
}

/// What stands behind the labels in front.
fn behind_labels<'t, 'a>(tokens: &'t [Token<'a>]) -> &'t [Token<'a>]
    ensures { map spelled result.now ≡ behind_labels (map spelled tokens.entry.now) }
{
    &tokens[labels_length(tokens)..]
}

/// What stands behind the first token.
fn operands<'t, 'a>(tokens: &'t [Token<'a>]) -> &'t [Token<'a>]
    ensures { map spelled result.now ≡ drop 1 (map spelled tokens.entry.now) }
{
    match tokens {
        [_, operands @ ..] => operands,
        [] => tokens,
    }
}

/// Whether a search ends at a statement of this word with these operands, no further block being open, and the verdict there.
fn stop_at<V: Verdicts>(
    block: Block,
    verdicts: &V,
    word: Option<Word>,
    operands: &[Token],
) -> Result<Option<Result<bool, MacroCause>>, AllocError>
    ensures { IfOk result (λ stop. StopsBy block (V.verdict verdicts.now) word
        (map spelled operands.now) stop) }
{
    if block.ends_at(word) {
        return Ok(Some(Ok(false)));
    }
    match verdicts.verdict(word, operands) {
        Ok(true) => Ok(Some(Ok(true))),
        Ok(false) => Ok(None),
        Err(Refusal::Fault(cause)) => Ok(Some(Err(cause))),
        Err(Refusal::NoMemory) => Err(AllocError),
    }
}

impl Search {
    /// A search that begins, and keeps no text.
    pub(crate) fn new(alloc: Global, block: Block) -> Search
        ensures block { result.block ≡ block }
        ensures keeps { result.keeps ≡ false }
        ensures deep { result.deep ≡ 0 }
        ensures text { result.text.items ≡ [] }
    {
        Search {
            block,
            keeps: false,
            deep: 0,
            text: Vec::new(alloc),
        }
    }

    /// A search that begins, and keeps the text of what it passes.
    pub(crate) fn keeping(alloc: Global, block: Block) -> Result<Search, AllocError>
        ensures block { IfOk result (λ search. search.block ≡ block) }
        ensures keeps { IfOk result (λ search. search.keeps ≡ true) }
        ensures deep { IfOk result (λ search. search.deep ≡ 0) }
        ensures text { IfOk result (λ search. search.text.items ≡ []) }
    {
        Ok(Search {
            block,
            keeps: true,
            deep: 0,
            text: Vec::with_capacity(alloc, SHORT_TEXT)?,
        })
    }

    /// Whether the search ends at a statement of this word with these operands, and the verdict there.
    fn ends_at<V: Verdicts>(
        &self,
        verdicts: &V,
        word: Option<Word>,
        operands: &[Token],
    ) -> Result<Option<Result<bool, MacroCause>>, AllocError>
        ensures { IfOk result (λ stop. EndsBy self.now (V.verdict verdicts.now) word
            (map spelled operands.now) stop) }
    {
        if self.deep == 0 {
            stop_at(self.block, verdicts, word, operands)
        } else {
            Ok(None)
        }
    }

    /// Goes on behind a statement of this word, if it has one.
    fn go_on(&mut self, word: Option<Word>, tokens: &[Token]) -> Result<(), AllocError>
        requires { self.old.deep < 2 ^ 128 - 1 }
        ensures passed { OnOk result (IsPassed self.old self.new word (map spelled tokens.now)) }
        ensures few { self.new.deep ≤ self.old.deep + 1 }
        ensures block { self.new.block ≡ self.old.block }
    {
        self.deep = self.block.depth_behind(self.deep, word);
        if self.keeps {
            push_statement(&mut self.text, tokens)?;
        }
        Ok(())
    }

    /// Passes a statement, or ends there with this verdict.
    fn pass<V: Verdicts>(
        &mut self,
        verdicts: &V,
        tokens: &[Token],
    ) -> Result<Option<Result<bool, MacroCause>>, AllocError>
        requires { self.old.deep < 2 ^ 128 - 1 }
        ensures passes { IfOk result (λ stop. PassesOne (V.verdict verdicts.now) self.old self.new
            (map spelled tokens.now) stop) }
        ensures few { self.new.deep ≤ self.old.deep + 1 }
        ensures block { self.new.block ≡ self.old.block }
    {
        let head = behind_labels(tokens);
        let word = word_of_head(head);
        match self.ends_at(verdicts, word, operands(head))? {
            Some(verdict) => Ok(Some(verdict)),
            None => {
                self.go_on(word, tokens)?;
                Ok(None)
            }
        }
    }

    /// Searches a text, whose statements stand here and whose lines have no fault, from one offset up to another, if that is one of a
    /// statement. A step is a look at what stands at an offset of the text: at most three for each byte from the one offset on, and
    /// one more.
    fn seek<V: Verdicts, L: Ledger>(
        &mut self,
        alloc: Global,
        verdicts: &V,
        source: &[u8],
        place: Place,
        from: usize,
        line: u32,
        until: usize,
        steps: &mut Steps<L>,
    ) -> Result<Sought, AllocError>
        requires within { from ≤ length source.now }
        requires line { line ≡ line_of source.now from }
        requires whole { is_whole source.now from ≡ true }
        requires few { self.old.deep + length source.now < 2 ^ 128 }
        ensures seeks { IfOk result (λ sought. Seeks (V.verdict verdicts.now) place source.now from until
            self.old self.new sought) }
        ensures few { IfOk result (λ _. self.new.deep ≤ self.old.deep + length source.now) }
        ensures block { self.new.block ≡ self.old.block }
        ensures looks { steps.new ≤ steps.old + 3 * (length source.now - from) + 1 }
        ensures sought { IfOk result (λ sought.
            3 * from + steps.new ≤ steps.old + 3 * sought_up_to source.now until sought + 1) }
    {
        let mut tokens = Vec::new(alloc);
        let mut at = from;
        let mut line = line;
        while at != until {
            match counted_next_statement(source, at, line, &mut tokens, steps)? {
                NextStatement::Statement(here, next, there, count) => {
                    let pos = place.pos_in(here);
                    match self.pass(verdicts, &tokens.as_slice()[..count])? {
                        Some(verdict) => {
                            return Ok(Sought::Stopped(Stop {
                                pos,
                                verdict,
                                at: next,
                                line: there,
                            }));
                        }
                        None => {
                            at = next;
                            line = there;
                        }
                    }
                }
                NextStatement::End => return Ok(Sought::End),
                NextStatement::Faulty => unreachable!(),
            }
        }
        Ok(Sought::Limit)
    }

    /// Searches a text so, with a count of steps of its own.
    pub(crate) fn seek_alone<V: Verdicts, L: Ledger>(
        &mut self,
        alloc: Global,
        verdicts: &V,
        source: &[u8],
        place: Place,
        from: usize,
        line: u32,
        until: usize,
        blank: Blank,
    ) -> Result<Sought, AllocError>
        requires name { blank.name ≡ L.name }
        requires parts { blank.parts ≡ L.parts }
        requires some { 0 < blank.parts }
        requires within { from ≤ length source.now }
        requires line { line ≡ line_of source.now from }
        requires whole { is_whole source.now from ≡ true }
        requires few { self.old.deep + length source.now < 2 ^ 128 }
        ensures seeks { IfOk result (λ sought. Seeks (V.verdict verdicts.now) place source.now from until
            self.old self.new sought) }
        ensures few { IfOk result (λ _. self.new.deep ≤ self.old.deep + length source.now) }
        ensures block { self.new.block ≡ self.old.block }
    {
        let mut steps = Steps::<L>::new(blank);
        self.seek(
            alloc, verdicts, source, place, from, line, until, &mut steps,
        )
    }
}
