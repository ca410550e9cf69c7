//! The functions of a source, as its statements are placed.

ghost use Rattle.std.specs.Prelude.{◌≡◌, ◌<◌, [], length, option_map, slice_get, Some, OnOk, OnErr};

use crate::extents::{Extent, SectionEnds};
use crate::functions::Function;
use crate::items::CodeItem;
use crate::spans::Spans;
use crate::tallies::Tally;
use asm_base::{NoMemory, Place, Pos};
use asm_expr::SymId;
use std::alloc::Global;
use std::marker::Model;

/// The functions of a source, and what is put into their sections while they are open. What a
/// statement does to them takes a few operations, but that each function ends once.
#[derive(Drop)]
pub struct Functions {
    spans: Spans,
    /// How many functions of each section are open, and how many in all.
    counts: Tally,
    open: usize,
    /// For each symbol one more than the number of its function, or 0.
    numbers: Tally,
    /// All functions before this one have ended.
    first: usize,
}

impl Model for Functions {
    ghost use Rattle.std.specs.Prelude.{List};
    ghost use Rattle.code_functions.specs.declared.items.CodeItem.{CodeItem};
    ghost use Rattle.code_functions.specs.Recorded.{Recorded};
    ghost use Rattle.code_functions.specs.Tallies.{AreTold};

    ghost Value = { List (Recorded CodeItem) };

    ghost view = { λ inside. inside.spans };

    ghost invariant = { λ inside.
        AreTold inside.counts inside.open inside.numbers inside.first inside.spans };
}

impl Functions {
    ghost use Rattle.code_functions.specs.InOrder.{AreInOrder};
    ghost use Rattle.code_functions.specs.Recorded.{begun, added, is_split, closed_at, closed_of, all_closed, extent_of, items_of};

    /// No function.
    pub fn new(alloc: Global) -> Functions
        ensures { result ≡ [] }
    {
        Functions {
            spans: Spans::new(alloc),
            counts: Tally::new(alloc),
            open: 0,
            numbers: Tally::new(alloc),
            first: 0,
        }
    }

    /// How many functions began.
    pub fn len(&self) -> usize
        ensures { result ≡ length self.now }
    {
        self.spans.len()
    }

    /// A function begins at a label of the symbol.
    #[tactic(auto, using(crate::proofs::TallyLemmas::begun_told, crate::proofs::TallyLemmas::room_told, crate::proofs::TallyLemmas::counts_below))]
    pub fn begin(
        &mut self,
        symbol: SymId,
        pos: Pos,
        section: u32,
        start: Place,
    ) -> Result<(), NoMemory>
        ensures ok { OnOk result (self.new ≡ begun symbol pos section start self.old) }
        ensures err { OnErr result (self.new ≡ self.old) }
    {
        self.numbers.reach(symbol.index())?;
        self.counts.reach(section)?;
        self.spans.begin(symbol, pos, section, start)?;
        // Counts are less than how many functions there are.
        let count = self.spans.len();
        self.numbers.set(symbol.index(), count);
        self.counts.set(section, self.counts.get(section) + 1);
        self.open += 1;
        Ok(())
    }

    /// Whether an instruction in this section splits a function: one that is open has another section.
    #[inline(always)]
    #[tactic(auto, using(crate::proofs::TallyLemmas::split_told))]
    pub fn splits(&self, section: u32) -> bool
        ensures { result ≡ is_split section self.now }
    {
        self.counts.get(section) != self.open
    }

    /// An item is put into a section.
    #[inline(always)]
    #[tactic(auto, using(crate::proofs::TallyLemmas::added_told, crate::proofs::TallyLemmas::none_counted))]
    pub fn add(&mut self, section: u32, item: CodeItem) -> Result<(), NoMemory>
        ensures ok { OnOk result (self.new ≡ added section item self.old) }
        ensures err { OnErr result (self.new ≡ self.old) }
    {
        if self.counts.get(section) == 0 {
            Ok(())
        } else {
            self.spans.add(section, item)
        }
    }

    /// The function of this number ends where its section does, if it is open.
    #[tactic(auto, using(crate::proofs::EndingLemmas::closed_told, crate::proofs::EndingLemmas::at_number, crate::proofs::EndingLemmas::ended_stays, crate::proofs::EndingLemmas::was_counted))]
    fn end_at<E: SectionEnds>(&mut self, number: usize, ends: &E)
        requires { number < length self.old }
        ensures { self.new ≡ closed_at (E.ends ends.now) number self.old }
    {
        let extent = self.spans.extent(number);
        if extent.stop.is_none() {
            self.spans.end(number, ends);
            self.counts
                .set(extent.section, self.counts.get(extent.section) - 1);
            self.open -= 1;
        }
    }

    /// The function of a symbol ends where its section does, if it is open.
    #[tactic(auto, using(crate::proofs::TallyLemmas::number_within, crate::proofs::TallyLemmas::symbol_closed, crate::proofs::TallyLemmas::none_closed))]
    pub fn end<E: SectionEnds>(&mut self, symbol: SymId, ends: &E)
        ensures { self.new ≡ closed_of symbol (E.ends ends.now) self.old }
    {
        let number = self.numbers.get(symbol.index());
        if number != 0 {
            self.end_at(number - 1, ends);
        }
    }

    /// All functions that are open end, each where its section does.
    #[tactic(auto, using(crate::proofs::EndingLemmas::more_up_to, crate::proofs::EndingLemmas::start_up_to, crate::proofs::EndingLemmas::whole_up_to, crate::proofs::EndingLemmas::told_whole, crate::proofs::EndingLemmas::length_up_to))]
    pub fn end_all<E: SectionEnds>(&mut self, ends: &E)
        ensures { self.new ≡ all_closed (E.ends ends.now) self.old }
    {
        for number in self.first..self.spans.len() {
            self.end_at(number, ends);
        }
        self.first = self.spans.len();
    }

    /// The function of this number, without its items.
    pub fn extent(&self, number: usize) -> Extent
        requires { number < length self.now }
        ensures { option_map extent_of (slice_get self.now number) ≡ Some result }
    {
        self.spans.extent(number)
    }

    /// The function of this number with its items, where these are in the order of their places.
    pub fn function(&self, number: usize) -> Function<'_>
        requires there { number < length self.now }
        requires ordered { AreInOrder (items_of number self.now) }
        ensures items { result.items.now ≡ items_of number self.now }
        ensures section { option_map (λ f. f.section) (slice_get self.now number)
            ≡ Some result.section }
    {
        self.spans.function(number)
    }
}
