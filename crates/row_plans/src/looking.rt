//! A round in which only those rows are looked at whose distances may have changed.

ghost use Rattle.std.specs.Prelude.{◌≡◌, ◌⊎◌, ◌+◌, ◌*◌, ◌<◌, ◌≤◌, ◌^◌, ℕ, List, None, IfSome, All, true, length, slice_index, slice_index_or, vec_len};
ghost use Rattle.level_ranks.specs.Rounds.{raised, Rises};
ghost use Rattle.asm_levels.specs.declared.rows.Row.{Row};
ghost use Rattle.asm_levels.specs.Needs.{levels_needed, has_levels, several};
ghost use Rattle.asm_levels.specs.Standing.{AllStand};
ghost use Rattle.asm_levels.specs.RowLists.{AreListed, IsAmong};
ghost use Rattle.asm_levels.specs.Watching.{AreLinked, AreSeveral, AreFollowers, AreHighest, HaveSameRows, HasEntryAbove, IsFollowed, IsTouched};
ghost use Rattle.asm_levels.specs.Watching as spec;
ghost use Rattle.row_plans.specs.Looking.{IsPartlyLooked, BegunBy, AreCalm, ArePassed};

use asm_base::Steps;
use asm_levels::{Entries, PackedRow, leaf_of, level_taken, look, note, top};
use level_ranks::raised_by_index;
use range_table::RangeTable;
use std::sync::ledger::Ledger;

/// What a round looks at: the rows where they stand, and its stamp.
#[derive(Clone, Copy)]
pub(crate) struct View<'a> {
    pub(crate) rows: &'a [PackedRow],
    pub(crate) shifts: &'a RangeTable,
    pub(crate) round: u16,
}

/// Has no row looked at.
pub(crate) fn forget(seen: &mut [u16])
    ensures unseen { (at : ℕ) → slice_index seen.new at ≡ 0 }
    ensures as_many { length seen.new ≡ length seen.old }
{
    for index in 0..seen.len() {
        seen[index] = 0;
    }
}

/// Looks at the row of this index, unless that was done in this round. Answers how many have risen.
#[inline(always)]
pub(crate) fn look_row<L: Ledger>(
    view: View,
    index: usize,
    levels: &mut [u8],
    seen: &mut [u16],
    risen: &mut [u32],
    count: usize,
    steps: &mut Steps<L>,
) -> usize
    requires stand { AllStand view.rows.now }
    requires as_many_shifts { length view.shifts.now ≡ length view.rows.now }
    requires as_many_levels { length levels.old ≡ length view.rows.now }
    requires as_many_seen { length seen.old ≡ length view.rows.now }
    requires few { length view.rows.now < 2 ^ 32 }
    requires inside { index < length view.rows.now }
    requires count { count ≤ length view.rows.now }
    requires several { (default : Row)
        → has_levels (slice_index_or view.rows.now index default).size ≡ true }
    ensures part { (old : List ℕ) (start : ℕ)
        → IsPartlyLooked view.entry.rows.now view.entry.shifts.now old levels.old seen.old risen.old
        view.entry.round count start steps.old
        → IsPartlyLooked view.entry.rows.now view.entry.shifts.now old levels.new seen.new risen.new
        view.entry.round result start steps.new }
    ensures seen { slice_index seen.new index ≡ view.entry.round }
    ensures kept { (at : ℕ) → slice_index seen.old at ≡ view.entry.round
        → slice_index seen.new at ≡ view.entry.round }
    ensures as_many_levels { length levels.new ≡ length levels.old }
    ensures as_many_seen { length seen.new ≡ length seen.old }
    ensures room { length risen.new ≡ length risen.old }
{
    if seen[index] == view.round {
        return count;
    }
    seen[index] = view.round;
    let level = level_taken(view.shifts, &view.rows[index], levels[index], steps);
    if level <= levels[index] {
        return count;
    }
    levels[index] = level;
    note(risen, count, index);
    count + 1
}

/// Looks at this row and at those behind it that have its entries. Answers how many have risen.
fn look_run<L: Ledger>(
    view: View,
    entries: &Entries,
    first: usize,
    levels: &mut [u8],
    seen: &mut [u16],
    risen: &mut [u32],
    count: usize,
    steps: &mut Steps<L>,
) -> usize
    requires stand { AllStand view.rows.now }
    requires as_many_shifts { length view.shifts.now ≡ length view.rows.now }
    requires as_many_levels { length levels.old ≡ length view.rows.now }
    requires as_many_seen { length seen.old ≡ length view.rows.now }
    requires few { length view.rows.now < 2 ^ 32 }
    requires inside { first < length view.rows.now }
    requires many_follows { length entries.now.follows.items ≡ length view.rows.now }
    requires several { (default : Row)
        → has_levels (slice_index_or view.rows.now first default).size ≡ true }
    requires followers { AreFollowers view.rows.now entries.now.follows.items }
    requires begun { BegunBy view.rows.now view.shifts.now levels.old seen.old risen.old view.round
        count steps.old }
    ensures part { (old : List ℕ) (start : ℕ)
        → IsPartlyLooked view.entry.rows.now view.entry.shifts.now old levels.old seen.old risen.old
        view.entry.round count start steps.old
        → IsPartlyLooked view.entry.rows.now view.entry.shifts.now old levels.new seen.new risen.new
        view.entry.round result start steps.new }
    ensures seen { (row : ℕ) → IsFollowed entries.now.follows.items first row
        → slice_index seen.new row ≡ view.entry.round }
    ensures kept { (at : ℕ) → slice_index seen.old at ≡ view.entry.round
        → slice_index seen.new at ≡ view.entry.round }
    ensures as_many_levels { length levels.new ≡ length levels.old }
    ensures as_many_seen { length seen.new ≡ length seen.old }
    ensures room { length risen.new ≡ length risen.old }
{
    let mut count = look_row(view, first, levels, seen, risen, count, steps);
    for row in first + 1..view.rows.len() {
        if !entries.follows[row] {
            return count;
        }
        count = look_row(view, row, levels, seen, risen, count, steps);
    }
    count
}

/// Looks at the rows that have an entry at this node. Answers how many have risen.
fn look_node<L: Ledger>(
    view: View,
    entries: &Entries,
    node: usize,
    levels: &mut [u8],
    seen: &mut [u16],
    risen: &mut [u32],
    count: usize,
    steps: &mut Steps<L>,
) -> usize
    requires stand { AllStand view.rows.now }
    requires as_many_shifts { length view.shifts.now ≡ length view.rows.now }
    requires as_many_levels { length levels.old ≡ length view.rows.now }
    requires as_many_seen { length seen.old ≡ length view.rows.now }
    requires few { length view.rows.now < 2 ^ 32 }
    requires linked { AreLinked (length view.rows.now) entries.now.rows.items
        entries.now.nodes.items entries.now.heads.items entries.now.links.items }
    requires node { node < vec_len entries.now.heads }
    requires several { AreSeveral view.rows.now entries.now.rows.items }
    requires many_follows { length entries.now.follows.items ≡ length view.rows.now }
    requires followers { AreFollowers view.rows.now entries.now.follows.items }
    requires begun { BegunBy view.rows.now view.shifts.now levels.old seen.old risen.old view.round
        count steps.old }
    ensures part { (old : List ℕ) (start : ℕ)
        → IsPartlyLooked view.entry.rows.now view.entry.shifts.now old levels.old seen.old risen.old
        view.entry.round count start steps.old
        → IsPartlyLooked view.entry.rows.now view.entry.shifts.now old levels.new seen.new risen.new
        view.entry.round result start steps.new }
    ensures seen { (at row : ℕ) → at < length entries.now.rows.items
        → slice_index entries.now.nodes.items at ≡ node
        → IsFollowed entries.now.follows.items (slice_index entries.now.rows.items at) row
        → slice_index seen.new row ≡ view.entry.round }
    ensures kept { (at : ℕ) → slice_index seen.old at ≡ view.entry.round
        → slice_index seen.new at ≡ view.entry.round }
    ensures as_many_levels { length levels.new ≡ length levels.old }
    ensures as_many_seen { length seen.new ≡ length seen.old }
    ensures room { length risen.new ≡ length risen.old }
{
    let mut count = count;
    let mut left = entries.heads[node];
    while left > 0 {
        let row = entries.rows[left - 1] as usize;
        count = look_run(view, entries, row, levels, seen, risen, count, steps);
        left = entries.links[left - 1];
    }
    count
}

/// Looks at the rows that have an entry at this node or at one above it, up to a node that was passed in this round.
/// Answers how many have risen.
fn look_above<L: Ledger>(
    view: View,
    entries: &Entries,
    leaf: usize,
    levels: &mut [u8],
    seen: &mut [u16],
    passed: &mut [u16],
    risen: &mut [u32],
    count: usize,
    steps: &mut Steps<L>,
) -> usize
    requires stand { AllStand view.rows.now }
    requires as_many_shifts { length view.shifts.now ≡ length view.rows.now }
    requires as_many_levels { length levels.old ≡ length view.rows.now }
    requires as_many_seen { length seen.old ≡ length view.rows.now }
    requires few { length view.rows.now < 2 ^ 32 }
    requires linked { AreLinked (length view.rows.now) entries.now.rows.items
        entries.now.nodes.items entries.now.heads.items entries.now.links.items }
    requires as_many_passed { length passed.old ≡ vec_len entries.now.heads }
    requires passed { ArePassed entries.now.rows.items entries.now.nodes.items
        entries.now.follows.items seen.old passed.old view.round }
    requires leaf { leaf < vec_len entries.now.heads }
    requires several { AreSeveral view.rows.now entries.now.rows.items }
    requires many_follows { length entries.now.follows.items ≡ length view.rows.now }
    requires followers { AreFollowers view.rows.now entries.now.follows.items }
    requires begun { BegunBy view.rows.now view.shifts.now levels.old seen.old risen.old view.round
        count steps.old }
    ensures part { (old : List ℕ) (start : ℕ)
        → IsPartlyLooked view.entry.rows.now view.entry.shifts.now old levels.old seen.old risen.old
        view.entry.round count start steps.old
        → IsPartlyLooked view.entry.rows.now view.entry.shifts.now old levels.new seen.new risen.new
        view.entry.round result start steps.new }
    ensures seen { (row : ℕ) → HasEntryAbove entries.now.rows.items entries.now.nodes.items
        entries.now.follows.items row leaf → slice_index seen.new row ≡ view.entry.round }
    ensures passed { ArePassed entries.now.rows.items entries.now.nodes.items
        entries.now.follows.items seen.new passed.new view.entry.round }
    ensures stamps { ((at : ℕ) → slice_index passed.old at ≤ view.entry.round)
        → (at : ℕ) → slice_index passed.new at ≤ view.entry.round }
    ensures as_many_passed { length passed.new ≡ length passed.old }
    ensures kept { (at : ℕ) → slice_index seen.old at ≡ view.entry.round
        → slice_index seen.new at ≡ view.entry.round }
    ensures as_many_levels { length levels.new ≡ length levels.old }
    ensures as_many_seen { length seen.new ≡ length seen.old }
    ensures room { length risen.new ≡ length risen.old }
{
    let mut count = count;
    let mut node = leaf;
    while node > 0 {
        if passed[node] == view.round {
            return count;
        }
        passed[node] = view.round;
        count = look_node(view, entries, node, levels, seen, risen, count, steps);
        node /= 2;
    }
    count
}

/// Looks at the rows that have an entry at the node of the block of one of these, or at one above it. Answers how
/// many have risen.
fn look_touched<L: Ledger>(
    view: View,
    entries: &Entries,
    touched: &[u32],
    levels: &mut [u8],
    seen: &mut [u16],
    passed: &mut [u16],
    risen: &mut [u32],
    steps: &mut Steps<L>,
) -> usize
    requires stand { AllStand view.rows.now }
    requires as_many_shifts { length view.shifts.now ≡ length view.rows.now }
    requires as_many_levels { length levels.old ≡ length view.rows.now }
    requires as_many_seen { length seen.old ≡ length view.rows.now }
    requires few { length view.rows.now < 2 ^ 32 }
    requires linked { AreLinked (length view.rows.now) entries.now.rows.items
        entries.now.nodes.items entries.now.heads.items entries.now.links.items }
    requires nodes { vec_len entries.now.heads ≡ 2 * spec.first_leaf (length view.rows.now) }
    requires several { AreSeveral view.rows.now entries.now.rows.items }
    requires many_follows { length entries.now.follows.items ≡ length view.rows.now }
    requires followers { AreFollowers view.rows.now entries.now.follows.items }
    requires as_many_passed { length passed.old ≡ vec_len entries.now.heads }
    requires fresh_passed { (at : ℕ) → slice_index passed.old at < view.round }
    requires inside { (at : ℕ) → at < length touched.now
        → slice_index touched.now at < length view.rows.now }
    requires begun { BegunBy view.rows.now view.shifts.now levels.old seen.old risen.old view.round
        0 steps.old }
    ensures part { (old : List ℕ) (start : ℕ)
        → IsPartlyLooked view.entry.rows.now view.entry.shifts.now old levels.old seen.old risen.old
        view.entry.round 0 start steps.old
        → IsPartlyLooked view.entry.rows.now view.entry.shifts.now old levels.new seen.new risen.new
        view.entry.round result start steps.new }
    ensures seen { (row : ℕ) → IsTouched (length view.entry.rows.now) entries.now.rows.items
        entries.now.nodes.items entries.now.follows.items (length touched.now) touched.now row
        → slice_index seen.new row ≡ view.entry.round }
    ensures passed { (at : ℕ) → slice_index passed.new at ≤ view.entry.round }
    ensures as_many_passed { length passed.new ≡ length passed.old }
    ensures as_many_levels { length levels.new ≡ length levels.old }
    ensures as_many_seen { length seen.new ≡ length seen.old }
    ensures room { length risen.new ≡ length risen.old }
{
    let mut count = 0usize;
    for row in touched {
        let leaf = leaf_of(view.rows.len(), *row as usize);
        count = look_above(
            view, entries, leaf, levels, seen, passed, risen, count, steps,
        );
    }
    count
}

/// Looks at the rows of this list. Answers how many have risen.
fn look_listed<L: Ledger>(
    view: View,
    list: &[u32],
    levels: &mut [u8],
    seen: &mut [u16],
    risen: &mut [u32],
    count: usize,
    steps: &mut Steps<L>,
) -> usize
    requires stand { AllStand view.rows.now }
    requires as_many_shifts { length view.shifts.now ≡ length view.rows.now }
    requires as_many_levels { length levels.old ≡ length view.rows.now }
    requires as_many_seen { length seen.old ≡ length view.rows.now }
    requires few { length view.rows.now < 2 ^ 32 }
    requires inside { (at : ℕ) → at < length list.now
        → slice_index list.now at < length view.rows.now }
    requires several { AreSeveral view.rows.now list.now }
    requires begun { BegunBy view.rows.now view.shifts.now levels.old seen.old risen.old view.round
        count steps.old }
    ensures part { (old : List ℕ) (start : ℕ)
        → IsPartlyLooked view.entry.rows.now view.entry.shifts.now old levels.old seen.old risen.old
        view.entry.round count start steps.old
        → IsPartlyLooked view.entry.rows.now view.entry.shifts.now old levels.new seen.new risen.new
        view.entry.round result start steps.new }
    ensures seen { (at : ℕ) → at < length list.now
        → slice_index seen.new (slice_index list.now at) ≡ view.entry.round }
    ensures kept { (at : ℕ) → slice_index seen.old at ≡ view.entry.round
        → slice_index seen.new at ≡ view.entry.round }
    ensures as_many_levels { length levels.new ≡ length levels.old }
    ensures as_many_seen { length seen.new ≡ length seen.old }
    ensures room { length risen.new ≡ length risen.old }
{
    let mut count = count;
    for row in list {
        count = look_row(view, *row as usize, levels, seen, risen, count, steps);
    }
    count
}

/// Looks at the rows whose distances may have changed, since one of these rows has another size: those that have an
/// entry at the node of its block or above it, and those of the list. Answers how many have risen, and lists these as
/// far as there is room.
pub(crate) fn look_few<L: Ledger>(
    view: View,
    entries: &Entries,
    wide: &[u32],
    touched: &[u32],
    levels: &mut [u8],
    seen: &mut [u16],
    passed: &mut [u16],
    risen: &mut [u32],
    steps: &mut Steps<L>,
) -> usize
    requires stand { AllStand view.rows.now }
    requires as_many_shifts { length view.shifts.now ≡ length view.rows.now }
    requires as_many_levels { length levels.old ≡ length view.rows.now }
    requires as_many_seen { length seen.old ≡ length view.rows.now }
    requires few { length view.rows.now < 2 ^ 32 }
    requires linked { AreLinked (length view.rows.now) entries.now.rows.items
        entries.now.nodes.items entries.now.heads.items entries.now.links.items }
    requires nodes { vec_len entries.now.heads ≡ 2 * spec.first_leaf (length view.rows.now) }
    requires several { AreSeveral view.rows.now entries.now.rows.items }
    requires many_follows { length entries.now.follows.items ≡ length view.rows.now }
    requires followers { AreFollowers view.rows.now entries.now.follows.items }
    requires wide_several { AreSeveral view.rows.now wide.now }
    requires wide_within { (at : ℕ) → at < length wide.now
        → slice_index wide.now at < length view.rows.now }
    requires inside { (at : ℕ) → at < length touched.now
        → slice_index touched.now at < length view.rows.now }
    requires as_many_passed { length passed.old ≡ vec_len entries.now.heads }
    requires fresh_passed { (at : ℕ) → slice_index passed.old at < view.round }
    requires fresh { (at : ℕ) → slice_index seen.old at < view.round }
    requires calm { AreCalm view.rows.now view.shifts.now levels.old entries.now.rows.items
        entries.now.nodes.items entries.now.follows.items wide.now (length touched.now)
        touched.now }
    ensures levels { levels.new
        ≡ raised levels.old (levels_needed view.entry.shifts.now view.entry.rows.now) }
    ensures part { IsPartlyLooked view.entry.rows.now view.entry.shifts.now levels.old levels.new
        seen.new risen.new view.entry.round result steps.old steps.new }
    ensures room { length risen.new ≡ length risen.old }
    ensures passed { (at : ℕ) → slice_index passed.new at ≤ view.entry.round }
    ensures as_many_passed { length passed.new ≡ length passed.old }
    ensures as_many_seen { length seen.new ≡ length seen.old }
    ensures at_most { steps.new ≤ steps.old + several view.entry.rows.now }
{
    raised_by_index();
    let count = look_touched(view, entries, touched, levels, seen, passed, risen, steps);
    look_listed(view, wide, levels, seen, risen, count, steps)
}

/// Looks at all rows, or, where so many are touched, at those whose distances may have changed by that.
pub(crate) fn look_where<L: Ledger>(
    view: View,
    entries: &Entries,
    wide: &[u32],
    moved: Option<usize>,
    touched: &[u32],
    levels: &mut [u8],
    seen: &mut [u16],
    passed: &mut [u16],
    risen: &mut [u32],
    steps: &mut Steps<L>,
) -> usize
    requires stand { AllStand view.rows.now }
    requires as_many_shifts { length view.shifts.now ≡ length view.rows.now }
    requires as_many_levels { length levels.old ≡ length view.rows.now }
    requires as_many_seen { length seen.old ≡ length view.rows.now }
    requires few { length view.rows.now < 2 ^ 32 }
    requires linked { AreLinked (length view.rows.now) entries.now.rows.items
        entries.now.nodes.items entries.now.heads.items entries.now.links.items }
    requires nodes { vec_len entries.now.heads ≡ 2 * spec.first_leaf (length view.rows.now) }
    requires several { AreSeveral view.rows.now entries.now.rows.items }
    requires many_follows { length entries.now.follows.items ≡ length view.rows.now }
    requires followers { AreFollowers view.rows.now entries.now.follows.items }
    requires wide_several { AreSeveral view.rows.now wide.now }
    requires wide_within { (at : ℕ) → at < length wide.now
        → slice_index wide.now at < length view.rows.now }
    requires end { IfSome moved (λ many. many ≤ length touched.now) }
    requires inside { IfSome moved (λ many. (at : ℕ) → at < many
        → slice_index touched.now at < length view.rows.now) }
    requires as_many_passed { length passed.old ≡ vec_len entries.now.heads }
    requires fresh_passed { (at : ℕ) → slice_index passed.old at < view.round }
    requires fresh { (at : ℕ) → slice_index seen.old at < view.round }
    requires calm { IfSome moved (λ many. AreCalm view.rows.now view.shifts.now levels.old
        entries.now.rows.items entries.now.nodes.items entries.now.follows.items wide.now many
        touched.now) }
    ensures levels { levels.new
        ≡ raised levels.old (levels_needed view.entry.shifts.now view.entry.rows.now) }
    ensures rose { 0 < result → Rises levels.old levels.new }
    ensures still { result ≡ 0 → levels.new ≡ levels.old }
    ensures listed { AreListed levels.old levels.new result risen.new }
    ensures within { (at : ℕ) → at < result → at < length risen.new
        → slice_index risen.new at < length view.entry.rows.now }
    ensures room { length risen.new ≡ length risen.old }
    ensures seen { (at : ℕ) → slice_index seen.new at ≤ view.entry.round }
    ensures passed { (at : ℕ) → slice_index passed.new at ≤ view.entry.round }
    ensures as_many_passed { length passed.new ≡ length passed.old }
    ensures as_many_seen { length seen.new ≡ length seen.old }
    ensures at_most { steps.new ≤ steps.old + several view.entry.rows.now }
    ensures at_least { steps.old ≤ steps.new }
    ensures lowest { moved ≡ None → All (λ level. level ≡ 0) levels.old
        → steps.old + several view.entry.rows.now ≤ steps.new }
{
    match moved {
        Some(many) => {
            let rows = &touched[..many];
            look_few(
                view, entries, wide, rows, levels, seen, passed, risen, steps,
            )
        }
        None => look(view.rows, view.shifts, levels, risen, steps),
    }
}

/// Puts those of the first so many rows of this list that are at their highest level behind the others. Answers how
/// many the others are.
pub(crate) fn put_highest_last(
    rows: &[PackedRow],
    levels: &[u8],
    list: &mut [u32],
    count: usize,
) -> usize
    requires as_many_levels { length levels.now ≡ length rows.now }
    requires inside { (at : ℕ) → at < length list.old → slice_index list.old at < length rows.now }
    requires end { count ≤ length list.old }
    requires highest { AreHighest rows.now levels.now count list.old }
    ensures highest { AreHighest rows.now levels.now result list.new }
    ensures same_rows { HaveSameRows list.old list.new }
    ensures end { result ≤ length list.new }
{
    let mut left = count;
    let mut at = 0usize;
    while at < left {
        let row = list[at] as usize;
        if levels[row] < top(&rows[row]) {
            at += 1;
        } else {
            left -= 1;
            list.swap(at, left);
        }
    }
    left
}
