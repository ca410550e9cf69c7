//! What is left of an open file, call or repeat goes on behind a block or a branch.

ghost use Rattle.std.specs.Prelude.{◌≡◌, ◌+◌, ◌<◌, ◌≤◌, ◌*◌, ◌^◌, length, map, option_map, IfOk};
ghost use Rattle.macro_words.specs.Branches.{verdict_by};

use crate::blocks::Block;
use crate::frames::{Branch, Frame};
use crate::searching::{NoBranch, Search, Sought, Verdicts};
use asm_base::{Refusal, Token};
use macro_words::{KnowingPlacer, MacroCause, Word, verdict};
use std::alloc::{AllocError, Global};
use std::marker::Brand;
use std::sync::ledger::Blank;

/// Branches by what a placer knows.
#[derive(Drop)]
struct Branches<'k, E> {
    known: &'k E,
}

impl<E: KnowingPlacer> Verdicts for Branches<'_, E> {
    ghost verdict = { λ b. verdict_by (E.told b.known.now) };

    fn verdict(&self, word: Option<Word>, operands: &[Token]) -> Result<bool, Refusal<MacroCause>> {
        verdict(self.known, word, operands)
    }
}

impl Frame {
    ghost use Rattle.macro_blocks.specs.Copies.{each_of, later_of};
    ghost use Rattle.macro_blocks.specs.Frames.{level_of, IsSamePart, IsSameText, PassesBlock, TakesBody, PassesBranch};
    ghost use Rattle.macro_blocks.specs.Passing.{EndsIn, PassesText, PassesWhole, BeganAt};

    /// Searches the text from the next statement on up to an offset, and goes on behind the statement at which the search ends.
    fn pass_text<V: Verdicts>(
        &mut self,
        alloc: Global,
        verdicts: &V,
        search: &mut Search,
        until: usize,
    ) -> Result<Sought, AllocError>
        requires { search.old.deep + 2 ^ 64 ≤ 2 ^ 128 }
        ensures passes { IfOk result (λ sought. PassesText (V.verdict verdicts.now) until
            search.old search.new self.old self.new sought) }
        ensures few { IfOk result (λ _. search.new.deep < search.old.deep + 2 ^ 64) }
        ensures block { search.new.block ≡ search.old.block }
        ensures same { IsSameText self.old self.new }
    {
        let sought = search.seek_alone::<V, Brand>(
            alloc,
            verdicts,
            self.text.as_bytes(),
            self.place,
            self.at,
            self.line,
            until,
            Blank::new(1),
        )?;
        if let Sought::Stopped(stop) = sought {
            self.at = stop.at;
            self.line = stop.line;
        }
        Ok(sought)
    }

    /// Searches all that is left of the text.
    fn pass_whole<V: Verdicts>(
        &mut self,
        alloc: Global,
        verdicts: &V,
        search: &mut Search,
    ) -> Result<Option<Branch>, AllocError>
        requires { search.old.deep + 2 ^ 64 ≤ 2 ^ 128 }
        ensures passes { IfOk result (λ branch. PassesWhole (V.verdict verdicts.now)
            search.old search.new self.old self.new branch) }
        ensures few { IfOk result (λ _. search.new.deep < search.old.deep + 2 ^ 64) }
        ensures block { search.new.block ≡ search.old.block }
        ensures same { IsSameText self.old self.new }
    {
        let until = self.text.as_bytes().len();
        match self.pass_text(alloc, verdicts, search, until)? {
            Sought::Stopped(stop) => Ok(Some(Branch {
                pos: stop.pos,
                verdict: stop.verdict,
            })),
            Sought::Limit => Ok(None),
            Sought::End => Ok(None),
        }
    }

    /// Searches the copies of the text that are to come, up to the place where the search began: what one copy's length does not end, no
    /// further copy ends.
    fn pass_alike<V: Verdicts>(
        &mut self,
        alloc: Global,
        verdicts: &V,
        search: &mut Search,
        start: usize,
    ) -> Result<Option<Branch>, AllocError>
        requires some { 0 < self.old.alike }
        requires begun { BeganAt (V.verdict verdicts.now) self.old start search.old }
        requires few { search.old.deep + self.old.alike * 2 ^ 64 < 2 ^ 128 }
        ensures ends { IfOk result (λ branch. EndsIn (V.verdict verdicts.now) search.old search.new
            (later_of self.old.place self.old.text.value self.old.alike self.old.each)
            (level_of self.new).statements branch) }
        ensures same { IsSamePart self.old self.new }
    {
        'copies: while self.alike > 0 {
            self.restart();
            match self.pass_text(alloc, verdicts, search, start)? {
                Sought::Stopped(stop) => {
                    return Ok(Some(Branch {
                        pos: stop.pos,
                        verdict: stop.verdict,
                    }));
                }
                Sought::Limit => return Ok(None),
                Sought::End => {}
            }
        }
        Ok(None)
    }

    /// Searches the copies that have texts of their own.
    fn pass_each<V: Verdicts>(
        &mut self,
        alloc: Global,
        verdicts: &V,
        search: &mut Search,
    ) -> Result<Option<Branch>, AllocError>
        requires alike { self.old.alike ≡ 0 }
        requires few { search.old.deep < 2 ^ 64 }
        ensures ends { IfOk result (λ branch. EndsIn (V.verdict verdicts.now) search.old search.new
            (each_of self.old.place self.old.each) (level_of self.new).statements branch) }
        ensures same { IsSamePart self.old self.new }
    {
        'copies: while self.each.is_left() {
            self.next_text(alloc)?;
            match self.pass_whole(alloc, verdicts, search)? {
                Some(branch) => return Ok(Some(branch)),
                None => {}
            }
        }
        Ok(None)
    }

    /// Searches the copies that are to come, where the text was searched from an offset on.
    fn pass_later<V: Verdicts>(
        &mut self,
        alloc: Global,
        verdicts: &V,
        search: &mut Search,
        start: usize,
    ) -> Result<Option<Branch>, AllocError>
        requires begun { BeganAt (V.verdict verdicts.now) self.old start search.old }
        requires few { search.old.deep < 2 ^ 64 }
        ensures ends { IfOk result (λ branch. EndsIn (V.verdict verdicts.now) search.old search.new
            (later_of self.old.place self.old.text.value self.old.alike self.old.each)
            (level_of self.new).statements branch) }
        ensures same { IsSamePart self.old self.new }
    {
        if self.alike > 0 {
            self.pass_alike(alloc, verdicts, search, start)
        } else {
            self.pass_each(alloc, verdicts, search)
        }
    }

    /// Goes on behind the statement at which the search ends, if there is one.
    fn pass_to<V: Verdicts>(
        &mut self,
        alloc: Global,
        verdicts: &V,
        search: &mut Search,
    ) -> Result<Option<Branch>, AllocError>
        requires { search.old.deep ≡ 0 }
        ensures ends { IfOk result (λ branch. EndsIn (V.verdict verdicts.now) search.old search.new
            (level_of self.old).statements (level_of self.new).statements branch) }
        ensures same { IsSamePart self.old self.new }
    {
        let start = self.at;
        match self.pass_whole(alloc, verdicts, search)? {
            Some(branch) => Ok(Some(branch)),
            None => self.pass_later(alloc, verdicts, search, start),
        }
    }

    /// Goes on behind the end of the block that began before what stands next. It says whether there is one.
    pub fn pass_block(&mut self, alloc: Global, block: Block) -> Result<bool, AllocError>
        ensures { IfOk result (λ closed.
            PassesBlock block closed (level_of self.old) (level_of self.new)) }
    {
        let mut search = Search::new(alloc, block);
        match self.pass_to(alloc, &NoBranch, &mut search)? {
            Some(_) => Ok(true),
            None => Ok(false),
        }
    }

    /// Goes on behind the end of that block, and hands out the text of what was inside; nothing where there is no end.
    pub fn take_body(&mut self, alloc: Global, block: Block) -> Result<Option<Vec<u8>>, AllocError>
        ensures { IfOk result (λ body. TakesBody block (option_map (λ text. text.items) body)
            (level_of self.old) (level_of self.new)) }
    {
        let mut search = Search::keeping(alloc, block)?;
        match self.pass_to(alloc, &NoBranch, &mut search)? {
            Some(_) => Ok(Some(search.text)),
            None => Ok(None),
        }
    }

    /// Goes on behind the statement that ends a branch which is not chosen and begins here; nothing where there is none.
    pub fn pass_branch<E: KnowingPlacer>(
        &mut self,
        alloc: Global,
        known: &E,
    ) -> Result<Option<Branch>, AllocError>
        ensures { IfOk result (λ branch. PassesBranch (E.told known.now) branch
            (level_of self.old) (level_of self.new)) }
    {
        let mut search = Search::new(alloc, Block::Conditional);
        let found = self.pass_to(alloc, &Branches { known }, &mut search)?;
        Ok(found)
    }
}
