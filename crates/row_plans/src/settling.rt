//! Rounds, until none raises a level.

ghost use Rattle.std.specs.Prelude.{◌≡◌, ◌+◌, ◌*◌, ◌^◌, ◌<◌, ◌≤◌, ℕ, All, length, sum, slice_index, vec_len};
ghost use Rattle.level_ranks.specs.Ranks.{IsLayout};
ghost use Rattle.asm_levels.specs.Sizes.{most_in};
ghost use Rattle.asm_levels.specs.Shifts.{shifts_of};
ghost use Rattle.asm_levels.specs.Needs.{need, tops, several};
ghost use Rattle.asm_levels.specs.RowLists.{AreEnds, AreDependents};
ghost use Rattle.asm_levels.specs.Watching.{AreWatchers};
ghost use Rattle.asm_levels.specs.Standing.{AllStand};

use crate::looking::{View, forget, look_where, put_highest_last};
use crate::placing::place;
use crate::resizing::move_rows;
use asm_base::Steps;
use asm_levels::{EndedRows, Entries, needs_stay_within_tops, needs_stay_within_tops_everywhere};
use level_ranks::{
    levels_hold, levels_stay_within, one_round_more, raised_by_index, rounds_are_few,
    rounds_reach_the_layout,
};
use range_table::RangeTable;
use std::sync::ledger::Ledger;

/// The stamp of the next round. Where no higher one is left, those of all rounds before are forgotten.
fn next_stamp(stamp: u16, seen: &mut [u16], passed: &mut [u16]) -> u16
    requires seen { (at : ℕ) → slice_index seen.old at ≤ stamp }
    requires passed { (at : ℕ) → slice_index passed.old at ≤ stamp }
    ensures seen { (at : ℕ) → slice_index seen.new at < result }
    ensures passed { (at : ℕ) → slice_index passed.new at < result }
    ensures as_many_seen { length seen.new ≡ length seen.old }
    ensures as_many_passed { length passed.new ≡ length passed.old }
{
    if stamp == u16::MAX {
        forget(seen);
        forget(passed);
        return 1;
    }
    stamp + 1
}

/// Raises the levels, round by round, until each holds its distance. Answers the number of rounds.
pub(crate) fn settle<L: Ledger>(
    all: EndedRows,
    dependents: &[u32],
    entries: &Entries,
    wide: &mut [u32],
    levels: &mut [u8],
    shifts: &mut RangeTable,
    seen: &mut [u16],
    passed: &mut [u16],
    risen: &mut [u32],
    touched: &mut [u32],
    steps: &mut Steps<L>,
) -> u64
    requires stand { AllStand all.rows.now }
    requires bytes { most_in all.rows.now < 2 ^ 62 }
    requires few { length all.rows.now < 2 ^ 28 }
    requires as_many_levels { length levels.old ≡ length all.rows.now }
    requires as_many_shifts { length shifts.old ≡ length all.rows.now }
    requires ends { AreEnds all.rows.now all.ends.now }
    requires dependents { AreDependents all.rows.now dependents.now }
    requires watchers { AreWatchers all.rows.now all.ends.now entries.now.rows.items
        entries.now.nodes.items entries.now.heads.items entries.now.links.items
        entries.now.follows.items wide.old }
    requires as_many_passed { length passed.old ≡ vec_len entries.now.heads }
    requires as_many_seen { length seen.old ≡ length all.rows.now }
    requires room { length risen.old + length dependents.now ≤ length touched.old }
    requires lowest { All (λ level. level ≡ 0) levels.old }
    ensures watchers { AreWatchers all.entry.rows.now all.entry.ends.now entries.now.rows.items
        entries.now.nodes.items entries.now.heads.items entries.now.links.items
        entries.now.follows.items wide.new }
    ensures layout { IsLayout (need all.entry.rows.now) (tops all.entry.rows.now) levels.new result }
    ensures shifts { shifts.new ≡ shifts_of all.entry.rows.now levels.new }
    ensures small { All (λ shift. shift < 2 ^ 62) shifts.new }
    ensures as_many { length shifts.new ≡ length all.entry.rows.now }
    ensures holds { (index : ℕ) → index < length all.entry.rows.now
        → slice_index (need all.entry.rows.now levels.new) index ≤ slice_index levels.new index }
    ensures highest { (index : ℕ) → index < length all.entry.rows.now
        → slice_index levels.new index ≤ slice_index (tops all.entry.rows.now) index }
    ensures rounds { result ≤ 1 + sum (tops all.entry.rows.now) }
    ensures at_most { steps.new ≤ steps.old + result * several all.entry.rows.now }
    ensures at_least { steps.old + several all.entry.rows.now ≤ steps.new }
{
    one_round_more();
    raised_by_index();
    levels_stay_within();
    rounds_are_few();
    rounds_reach_the_layout();
    levels_hold();
    needs_stay_within_tops();
    needs_stay_within_tops_everywhere();
    place(all.rows, levels, shifts);
    forget(seen);
    forget(passed);
    let mut rounds = 0u32;
    let mut stamp = 0u16;
    let mut moved: Option<usize> = None;
    let mut left = wide.len();
    loop {
        rounds += 1;
        stamp = next_stamp(stamp, seen, passed);
        let view = View {
            rows: all.rows,
            shifts,
            round: stamp,
        };
        let listed = &wide[..left];
        let count = look_where(
            view, entries, listed, moved, touched, levels, seen, passed, risen, steps,
        );
        if count == 0 {
            return rounds as u64;
        }
        left = put_highest_last(all.rows, levels, wide, left);
        moved = move_rows(all, dependents, levels, risen, count, shifts, touched);
    }
}
