//! Which distances span each block of rows.

ghost use Rattle.std.specs.Prelude.{◌≡◌, ◌⊎◌, ◌+◌, ◌*◌, ◌<◌, ◌≤◌, ◌^◌, ℕ, min, max, true, IfOk, IfSome, OnOk, length, slice_index, slice_index_or, slice_set, vec_len};
ghost use Rattle.asm_levels.specs.declared.rows.Row.{Row};
ghost use Rattle.asm_levels.specs.Watching as spec;
ghost use Rattle.asm_levels.specs.Watching.{AreLinked, HaveMore, HasOwnEntry, AreWatchers, IsRun, block_of};
ghost use Rattle.asm_levels.specs.RowLists.{AreEnds};

use crate::distances::Distance;
use crate::ends::EndedRows;
use crate::needs::top;
use crate::packing::{Held, PackedRow};
use crate::rows::RowSize;
use asm_base::NoMemory;
use std::alloc::Global;

/// How many rows stand in a block.
const BLOCK: usize = 64;

/// For so many blocks more, before those that its distance spans and behind them, a row may have entries.
const MORE: usize = 7;

/// The node of the first block of so many rows.
pub(crate) fn first_leaf(count: usize) -> usize
    requires { count < 2 ^ 32 }
    ensures { result ≡ spec.first_leaf count }
{
    count / BLOCK + 1
}

/// The node of the block in which a row stands.
pub fn leaf_of(count: usize, row: usize) -> usize
    requires count { count < 2 ^ 32 }
    requires row { row < count }
    ensures leaf { result ≡ spec.leaf_of count row }
    ensures within { result < 2 * spec.first_leaf count }
{
    row / BLOCK + first_leaf(count)
}

/// Entries of rows at the nodes of a tree over blocks of rows, where node `n` stands above the nodes `2 * n` and
/// `2 * n + 1`. Those of a node are linked, from the last one on.
#[derive(Drop)]
pub struct Entries {
    pub rows: Vec<u32>,
    pub nodes: Vec<u32>,
    /// For each node one more than the number of its last entry, and 0 where it has none.
    pub heads: Vec<usize>,
    /// For each entry one more than the number of the one of its node before it.
    pub links: Vec<usize>,
    /// For each row whether it has the entries of the row before it, and none of its own.
    pub follows: Vec<bool>,
}

impl Entries {
    ghost use Rattle.std.specs.Prelude.{◌≡◌, ◌⊎◌, ◌+◌, ◌*◌, ◌/◌, ◌%◌, ◌<◌, ◌≤◌, ◌^◌, ℕ, false, [], IfOk, OnOk, length, replicate, vec_len};
    ghost use Rattle.asm_levels.specs.Watching as spec;
    ghost use Rattle.asm_levels.specs.Watching.{AreLinked, HaveMore, IsEntry};

    /// No entries, for so many rows.
    fn new(alloc: Global, count: usize) -> Result<Entries, NoMemory>
        requires { count < 2 ^ 32 }
        ensures linked { IfOk result (λ made. AreLinked count made.rows.items made.nodes.items
            made.heads.items made.links.items) }
        ensures none { IfOk result (λ made. made.rows.items ≡ []) }
        ensures no_follows { IfOk result (λ made. made.follows.items ≡ replicate count false) }
        ensures nodes { IfOk result (λ made. vec_len made.heads ≡ 2 * spec.first_leaf count) }
    {
        Ok(Entries {
            rows: Vec::new(alloc),
            nodes: Vec::new(alloc),
            heads: vec![in alloc; 0usize; 2 * first_leaf(count)]?,
            links: Vec::new(alloc),
            follows: vec![in alloc; false; count]?,
        })
    }

    /// Adds an entry of a row, one of so many, to a node.
    fn add(&mut self, all: EndedRows, row: usize, node: usize) -> Result<(), NoMemory>
        requires inside { row < length all.rows.now }
        requires few { length all.rows.now < 2 ^ 32 }
        requires node { node < vec_len self.old.heads }
        requires within { vec_len self.old.heads < 2 ^ 32 }
        requires linked { AreLinked (length all.rows.now) self.old.rows.items
            self.old.nodes.items self.old.heads.items self.old.links.items }
        ensures more { OnOk result (HaveMore (length all.entry.rows.now) row self.old.rows.items
            self.old.nodes.items self.new.rows.items self.new.nodes.items
            self.new.heads.items self.new.links.items) }
        ensures nodes { vec_len self.new.heads ≡ vec_len self.old.heads }
        ensures follows { self.new.follows.items ≡ self.old.follows.items }
        ensures entry { OnOk result (IsEntry self.new.rows.items self.new.nodes.items row node) }
    {
        let before = self.heads[node];
        let number = self.rows.len();
        self.rows.push(row as u32)?;
        self.nodes.push(node as u32)?;
        self.links.push(before)?;
        self.heads[node] = number + 1;
        Ok(())
    }

    /// The same, where this number is odd.
    fn add_where_odd(
        &mut self,
        all: EndedRows,
        row: usize,
        number: usize,
        node: usize,
    ) -> Result<(), NoMemory>
        requires inside { row < length all.rows.now }
        requires few { length all.rows.now < 2 ^ 32 }
        requires node { node < vec_len self.old.heads }
        requires within { vec_len self.old.heads < 2 ^ 32 }
        requires linked { AreLinked (length all.rows.now) self.old.rows.items
            self.old.nodes.items self.old.heads.items self.old.links.items }
        ensures more { OnOk result (HaveMore (length all.entry.rows.now) row self.old.rows.items
            self.old.nodes.items self.new.rows.items self.new.nodes.items
            self.new.heads.items self.new.links.items) }
        ensures nodes { vec_len self.new.heads ≡ vec_len self.old.heads }
        ensures follows { self.new.follows.items ≡ self.old.follows.items }
        ensures entry { OnOk result (number % 2 ≡ 1
            → IsEntry self.new.rows.items self.new.nodes.items row node) }
    {
        if number % 2 == 1 {
            self.add(all, row, node)
        } else {
            Ok(())
        }
    }

    /// Of the nodes from one up to an end, adds entries of a row to the first, if it is odd, and to the last, if the end
    /// is: the nodes above the others have no more nodes below them.
    fn add_ends(
        &mut self,
        all: EndedRows,
        row: usize,
        first: usize,
        end: usize,
    ) -> Result<(), NoMemory>
        requires inside { row < length all.rows.now }
        requires few { length all.rows.now < 2 ^ 32 }
        requires some { first < end }
        requires node { end ≤ vec_len self.old.heads }
        requires within { vec_len self.old.heads < 2 ^ 32 }
        requires linked { AreLinked (length all.rows.now) self.old.rows.items
            self.old.nodes.items self.old.heads.items self.old.links.items }
        ensures more { OnOk result (HaveMore (length all.entry.rows.now) row self.old.rows.items
            self.old.nodes.items self.new.rows.items self.new.nodes.items
            self.new.heads.items self.new.links.items) }
        ensures nodes { vec_len self.new.heads ≡ vec_len self.old.heads }
        ensures follows { self.new.follows.items ≡ self.old.follows.items }
        ensures entry { OnOk result ((node : ℕ) → first ≤ node → node < end
            → IsEntry self.new.rows.items self.new.nodes.items row node
            ⊎ (((first + 1) / 2 ≤ node / 2) × (node / 2 < end / 2))) }
    {
        self.add_where_odd(all, row, first, first)?;
        self.add_where_odd(all, row, end, end - 1)?;
        Ok(())
    }
}

/// Adds entries of a row to the nodes that stand above just the blocks from one to another: at most two of each height.
#[inline(never)]
fn add_all(
    entries: &mut Entries,
    all: EndedRows,
    row: usize,
    first: usize,
    last: usize,
) -> Result<(), NoMemory>
    requires inside { row < length all.rows.now }
    requires few { length all.rows.now < 2 ^ 32 }
    requires first { first ≤ block_of (length all.rows.now) }
    requires last { last ≤ block_of (length all.rows.now) }
    requires nodes { vec_len entries.old.heads ≡ 2 * spec.first_leaf (length all.rows.now) }
    requires linked { AreLinked (length all.rows.now) entries.old.rows.items
        entries.old.nodes.items entries.old.heads.items entries.old.links.items }
    ensures more { OnOk result (HaveMore (length all.entry.rows.now) row entries.old.rows.items
        entries.old.nodes.items entries.new.rows.items entries.new.nodes.items
        entries.new.heads.items entries.new.links.items) }
    ensures nodes { vec_len entries.new.heads ≡ vec_len entries.old.heads }
    ensures follows { entries.new.follows.items ≡ entries.old.follows.items }
    ensures entry { OnOk result ((block : ℕ) → first ≤ block → block ≤ last
        → HasOwnEntry entries.new.rows.items entries.new.nodes.items row
        (block + spec.first_leaf (length all.entry.rows.now))) }
{
    let leaf = first_leaf(all.rows.len());
    let mut low = leaf + first;
    let mut end = leaf + last + 1;
    while low < end {
        entries.add_ends(all, row, low, end)?;
        low = (low + 1) / 2;
        end /= 2;
    }
    Ok(())
}

/// Whether the row before has entries for the blocks from one to another, and for few others.
#[inline(always)]
fn has_run(first: usize, last: usize, before: (usize, usize)) -> bool
    ensures { result ≡ true → (before.0 ≤ first) × (last ≤ before.1) }
{
    before.0 <= first && last <= before.1 && first - before.0 <= MORE && before.1 - last <= MORE
}

/// Gives a row entries for the blocks from one to another: those of the row before it, where that has entries for these
/// blocks and few others, and else its own. Answers the first and the last block for which it has entries.
#[inline(always)]
fn add_run(
    entries: &mut Entries,
    all: EndedRows,
    row: usize,
    first: usize,
    last: usize,
    before: (usize, usize),
) -> Result<(usize, usize), NoMemory>
    requires inside { row < length all.rows.now }
    requires few { length all.rows.now < 2 ^ 32 }
    requires first { first ≤ block_of (length all.rows.now) }
    requires last { last ≤ block_of (length all.rows.now) }
    requires nodes { vec_len entries.old.heads ≡ 2 * spec.first_leaf (length all.rows.now) }
    requires linked { AreLinked (length all.rows.now) entries.old.rows.items
        entries.old.nodes.items entries.old.heads.items entries.old.links.items }
    requires many_follows { length entries.old.follows.items ≡ length all.rows.now }
    requires before { IsRun (length all.rows.now) entries.old.rows.items entries.old.nodes.items
        entries.old.follows.items before.0 before.1 row }
    ensures more { OnOk result (HaveMore (length all.entry.rows.now) row entries.old.rows.items
        entries.old.nodes.items entries.new.rows.items entries.new.nodes.items
        entries.new.heads.items entries.new.links.items) }
    ensures nodes { vec_len entries.new.heads ≡ vec_len entries.old.heads }
    ensures follows { OnOk result ((entries.new.follows.items ≡ entries.old.follows.items)
        ⊎ (entries.new.follows.items ≡ slice_set entries.old.follows.items row true)) }
    ensures own { OnOk result (IsRun (length all.entry.rows.now) entries.new.rows.items
        entries.new.nodes.items entries.new.follows.items first last (row + 1)) }
    ensures run { IfOk result (λ run. IsRun (length all.entry.rows.now) entries.new.rows.items
        entries.new.nodes.items entries.new.follows.items run.0 run.1 (row + 1)) }
{
    if has_run(first, last, before) {
        entries.follows[row] = true;
        return Ok(before);
    }
    add_all(entries, all, row, first, last)?;
    Ok((first, last))
}

/// The rows whose distances are looked at: by entries where these stand within a section, and else by a list.
#[derive(Drop)]
pub struct Watchers {
    pub entries: Entries,
    pub wide: Vec<u32>,
}

/// The lower and the higher one of two rows.
#[inline(always)]
fn in_order(ahead: u32, behind: u32) -> (usize, usize)
    ensures low { result.0 ≡ min ahead behind }
    ensures high { result.1 ≡ max ahead behind }
{
    (ahead.min(behind) as usize, ahead.max(behind) as usize)
}

/// The rows between which the distance of a row in an allocation of its own stands.
#[inline(never)]
fn span_of_other(size: &RowSize) -> Option<(usize, usize)>
    ensures { IfSome result (λ span. spec.RowSpans size.now span.0 span.1) }
{
    let (RowSize::Jump { distance, .. }
    | RowSize::Leb128 { distance, .. }
    | RowSize::Advance { distance }) = size
    else {
        return None;
    };
    match distance {
        Distance::Between { ahead, behind, .. } => Some(in_order(*ahead, *behind)),
        Distance::Sum { .. } => None,
    }
}

/// The first and the last row between which the distance of a row stands, if it is one of two rows.
#[inline(always)]
fn span_of(row: &PackedRow) -> Option<(usize, usize)>
    ensures { IfSome result (λ span. spec.RowSpans row.now.size span.0 span.1) }
{
    match &row.held {
        Held::Jump { ahead, behind, .. } => Some(in_order(*ahead, *behind)),
        Held::Leb128 { ahead, behind, .. } => Some(in_order(*ahead, *behind)),
        Held::Advance { ahead, behind, .. } => Some(in_order(*ahead, *behind)),
        Held::Fixed { .. } | Held::Align { .. } | Held::End { .. } => None,
        Held::Other(row) => span_of_other(&row.size),
    }
}

/// The same, where they stand in one section.
#[inline(always)]
fn span_within(all: EndedRows, row: usize) -> Option<(usize, usize)>
    requires inside { row < length all.rows.now }
    requires ends { AreEnds all.rows.now all.ends.now }
    ensures span { IfSome result (λ span. (default : Row) → spec.RowSpans
        (slice_index_or all.entry.rows.now row default).size span.0 span.1) }
    ensures section { IfSome result (λ span. span.1 < slice_index all.entry.ends.now span.0) }
    ensures first { IfSome result (λ span. span.0 < length all.entry.rows.now) }
    ensures last { IfSome result (λ span. span.1 < length all.entry.rows.now) }
{
    let (first, last) = span_of(&all.rows[row])?;
    let end = *all.ends.get(first)? as usize;
    if last < end {
        Some((first, last))
    } else {
        None
    }
}

impl Watchers {
    ghost use Rattle.std.specs.Prelude.{◌≡◌, ◌+◌, ◌<◌, ◌≤◌, ◌^◌, ℕ, IfOk, OnOk, length, vec_len};
    ghost use Rattle.asm_levels.specs.RowLists.{AreEnds};
    ghost use Rattle.asm_levels.specs.Watching.{FirstWatchers, AreWatchers, IsRun};

    /// Has the distance of a row looked at where it may have changed. Takes the first and the last block for which the
    /// row before it has entries, and answers those of this row: block 1 to block 0, where it has none.
    #[inline(always)]
    fn watch(
        &mut self,
        all: EndedRows,
        row: usize,
        before: (usize, usize),
    ) -> Result<(usize, usize), NoMemory>
        requires inside { row < length all.rows.now }
        requires few { length all.rows.now < 2 ^ 32 }
        requires ends { AreEnds all.rows.now all.ends.now }
        requires first { FirstWatchers all.rows.now all.ends.now self.old.entries.rows.items
            self.old.entries.nodes.items self.old.entries.heads.items
            self.old.entries.links.items self.old.entries.follows.items self.old.wide.items row }
        requires before { IsRun (length all.rows.now) self.old.entries.rows.items
            self.old.entries.nodes.items self.old.entries.follows.items before.0 before.1 row }
        ensures first { OnOk result (FirstWatchers all.entry.rows.now all.entry.ends.now
            self.new.entries.rows.items self.new.entries.nodes.items
            self.new.entries.heads.items self.new.entries.links.items
            self.new.entries.follows.items self.new.wide.items (row + 1)) }
        ensures run { IfOk result (λ run. IsRun (length all.entry.rows.now)
            self.new.entries.rows.items self.new.entries.nodes.items
            self.new.entries.follows.items run.0 run.1 (row + 1)) }
    {
        if top(&all.rows[row]) == 0 {
            return Ok((1, 0));
        }
        match span_within(all, row) {
            Some((start, end)) => {
                let first = start / BLOCK;
                let last = end / BLOCK;
                let run = add_run(&mut self.entries, all, row, first, last, before)?;
                Ok(run)
            }
            None => {
                self.wide.push(row as u32)?;
                Ok((1, 0))
            }
        }
    }

    /// The watchers of all rows.
    pub fn new(alloc: Global, all: EndedRows) -> Result<Watchers, NoMemory>
        requires few { length all.rows.now < 2 ^ 32 }
        requires ends { AreEnds all.rows.now all.ends.now }
        ensures { IfOk result (λ made. AreWatchers all.entry.rows.now all.entry.ends.now
            made.entries.rows.items made.entries.nodes.items made.entries.heads.items
            made.entries.links.items made.entries.follows.items made.wide.items) }
    {
        let mut made = Watchers {
            entries: Entries::new(alloc, all.rows.len())?,
            wide: Vec::new(alloc),
        };
        let mut run = (1, 0);
        for row in 0..all.rows.len() {
            run = made.watch(all, row, run)?;
        }
        Ok(made)
    }
}
