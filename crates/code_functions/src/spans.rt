//! Functions as parts of the lists of their sections' items.

ghost use Rattle.std.specs.Prelude.{◌≡◌, ◌<◌, [], length, option_map, slice_get, Some, OnOk, OnErr};

use crate::extents::{Extent, SectionEnds};
use crate::functions::Function;
use crate::items::CodeItem;
use crate::lists::ItemLists;
use asm_base::{NoMemory, Place, Pos};
use asm_expr::SymId;
use std::alloc::Global;
use std::marker::Model;

/// The end of a function.
#[derive(Clone, Copy)]
pub(crate) struct SpanEnd {
    pub(crate) place: Place,
    /// How many items its section had there.
    pub(crate) count: usize,
}

/// A function: its items are those of its section from so many on, up to its end.
#[derive(Clone, Copy)]
pub(crate) struct FunctionSpan {
    pub(crate) symbol: SymId,
    pub(crate) pos: Pos,
    pub(crate) section: u32,
    pub(crate) start: Place,
    pub(crate) from: usize,
    pub(crate) end: Option<SpanEnd>,
}

/// The functions so far, and the items of their sections.
#[derive(Drop)]
pub(crate) struct Spans {
    lists: ItemLists,
    all: Vec<FunctionSpan>,
}

impl Model for Spans {
    ghost use Rattle.std.specs.Prelude.{List, All, map};
    ghost use Rattle.code_functions.specs.declared.items.CodeItem.{CodeItem};
    ghost use Rattle.code_functions.specs.Recorded.{Recorded};
    ghost use Rattle.code_functions.specs.Spans.{recorded, IsKept};

    ghost Value = { List (Recorded CodeItem) };

    ghost view = { λ inside. map (recorded inside.lists) inside.all.items };

    ghost invariant = { λ inside. All (IsKept inside.lists) inside.all.items };
}

impl Spans {
    ghost use Rattle.code_functions.specs.InOrder.{AreInOrder};
    ghost use Rattle.code_functions.specs.Recorded.{begun, added, closed_at, extent_of, items_of};

    /// No function.
    pub(crate) fn new(alloc: Global) -> Spans
        ensures { result ≡ [] }
    {
        Spans {
            lists: ItemLists::new(alloc),
            all: Vec::new(alloc),
        }
    }

    pub(crate) fn len(&self) -> usize
        ensures { result ≡ length self.now }
    {
        self.all.len()
    }

    /// A function begins.
    #[tactic(auto, using(crate::proofs::SpanLemmas::grown_view, crate::proofs::SpanLemmas::grown_kept, crate::proofs::SpanLemmas::begun_view, crate::proofs::SpanLemmas::begun_kept))]
    pub(crate) fn begin(
        &mut self,
        symbol: SymId,
        pos: Pos,
        section: u32,
        start: Place,
    ) -> Result<(), NoMemory>
        ensures ok { OnOk result (self.new ≡ begun symbol pos section start self.old) }
        ensures err { OnErr result (self.new ≡ self.old) }
    {
        self.lists.reach(section)?;
        let from = self.lists.items(section).as_slice().len();
        self.all.push(FunctionSpan {
            symbol,
            pos,
            section,
            start,
            from,
            end: None,
        })?;
        Ok(())
    }

    /// An item is put into a section.
    #[tactic(auto, using(crate::proofs::SpanLemmas::added_view, crate::proofs::SpanLemmas::added_kept))]
    pub(crate) fn add(&mut self, section: u32, item: CodeItem) -> Result<(), NoMemory>
        ensures ok { OnOk result (self.new ≡ added section item self.old) }
        ensures err { OnErr result (self.new ≡ self.old) }
    {
        self.lists.put(section, item)
    }

    /// The function of this number, without its items.
    #[tactic(auto, using(crate::proofs::SpanLemmas::span_found))]
    pub(crate) fn extent(&self, number: usize) -> Extent
        requires { number < length self.now }
        ensures { option_map extent_of (slice_get self.now number) ≡ Some result }
    {
        let span = &self.all[number];
        Extent {
            symbol: span.symbol,
            pos: span.pos,
            section: span.section,
            start: span.start,
            stop: match span.end {
                None => None,
                Some(end) => Some(end.place),
            },
        }
    }

    /// The function of this number ends where its section does, if it is open.
    #[tactic(auto, using(crate::proofs::SpanLemmas::ended_kept))]
    pub(crate) fn end<E: SectionEnds>(&mut self, number: usize, ends: &E)
        requires { number < length self.old }
        ensures { self.new ≡ closed_at (E.ends ends.now) number self.old }
    {
        if self.all[number].end.is_some() {
            return;
        }
        let section = self.all[number].section;
        let place = ends.end_of(section);
        let count = self.lists.items(section).as_slice().len();
        self.all[number].end = Some(SpanEnd { place, count });
    }

    /// A function with its items, where these are in order.
    #[tactic(auto, using(crate::proofs::SpanLemmas::items_found, crate::proofs::SpanLemmas::span_found))]
    pub(crate) fn function(&self, number: usize) -> Function<'_>
        requires there { number < length self.now }
        requires ordered { AreInOrder (items_of number self.now) }
        ensures items { result.items.now ≡ items_of number self.now }
        ensures section { option_map (λ f. f.section) (slice_get self.now number)
            ≡ Some result.section }
    {
        let span = &self.all[number];
        let items = self.lists.items(span.section).as_slice();
        Function {
            section: span.section,
            items: match span.end {
                None => &items[span.from..],
                Some(end) => &items[span.from..end.count],
            },
        }
    }
}
