//! Plans of rows: making one takes all memory, and settling it none.

use crate::settling;
use asm_base::{NoMemory, Steps};
use asm_levels::{EndedRows, PackedRow, Watchers, dependents_of, ends_of};
use range_table::RangeTable;
use std::alloc::Global;
use std::marker::Model;
use std::sync::ledger::Ledger;

/// One row in so many is few: where more rise in a round, all rows are placed anew.
const FEW: usize = 16;

/// The rows of all sections, with room for their levels and shifts.
#[derive(Drop)]
pub struct RowPlan {
    rows: Vec<PackedRow>,
    levels: Vec<u8>,
    shifts: RangeTable,
    /// For each row the index behind the last one that its size moves.
    ends: Vec<u32>,
    /// The rows whose size depends on their address.
    dependents: Vec<u32>,
    /// Which distances span which rows.
    watchers: Watchers,
    /// The stamp of the round in which each row was looked at last, of those that did not look at all.
    seen: Vec<u16>,
    /// The stamp of the round in which each node over blocks of rows was passed last.
    passed: Vec<u16>,
    /// Room for the rows whose levels rise in a round, where these are few.
    risen: Vec<u32>,
    /// Room for the rows that have another size than in the round before.
    touched: Vec<u32>,
}

impl Model for RowPlan {
    ghost use Rattle.std.specs.Prelude.{◌≡◌, ◌+◌, ◌≤◌, vec_len};
    ghost use Rattle.row_plans.specs.Plans.{PlanOf, IsPlan};
    ghost use Rattle.asm_levels.specs.RowLists.{AreEnds, AreDependents};
    ghost use Rattle.asm_levels.specs.Watching.{AreWatchers};

    ghost Value = { PlanOf };

    ghost view = { λ plan.
        record { rows = plan.rows.items; levels = plan.levels.items; shifts = plan.shifts } };

    ghost invariant = { λ plan. IsPlan plan.rows.items plan.levels.items plan.shifts
        × AreEnds plan.rows.items plan.ends.items
        × AreDependents plan.rows.items plan.dependents.items
        × AreWatchers plan.rows.items plan.ends.items plan.watchers.entries.rows.items
        plan.watchers.entries.nodes.items plan.watchers.entries.heads.items
        plan.watchers.entries.links.items plan.watchers.entries.follows.items
        plan.watchers.wide.items
        × (vec_len plan.seen ≡ vec_len plan.rows)
        × (vec_len plan.passed ≡ vec_len plan.watchers.entries.heads)
        × (vec_len plan.risen + vec_len plan.dependents ≤ vec_len plan.touched) };
}

impl RowPlan {
    ghost use Rattle.std.specs.Prelude.{◌≡◌, ◌+◌, ◌-◌, ◌*◌, ◌^◌, ◌<◌, ◌≤◌, ℕ, All, IfOk, length, sum, slice_index, vec_len};
    ghost use Rattle.level_ranks.specs.Ranks.{IsLayout};
    ghost use Rattle.asm_levels.specs.Sizes.{most_in};
    ghost use Rattle.asm_levels.specs.Shifts.{shifts_of};
    ghost use Rattle.asm_levels.specs.Needs.{need, tops, several};
    ghost use Rattle.asm_levels.specs.Standing.{AllStand};

    /// The rows, each at its lowest level. It takes all memory that settling takes.
    pub fn new(alloc: Global, rows: Vec<PackedRow>) -> Result<RowPlan, NoMemory>
        requires stand { AllStand rows.items }
        requires bytes { most_in rows.items < 2 ^ 62 }
        requires few { vec_len rows < 2 ^ 28 }
        ensures rows { IfOk result (λ plan. plan.rows ≡ rows.items) }
        ensures levels { IfOk result (λ plan. All (λ level. level ≡ 0) plan.levels) }
    {
        let levels = vec![in alloc; 0u8; rows.len()]?;
        let shifts = RangeTable::new(alloc, rows.len())?;
        let ends = ends_of(alloc, &rows)?;
        let dependents = dependents_of(alloc, &rows)?;
        let all = EndedRows {
            rows: &rows,
            ends: &ends,
        };
        let watchers = Watchers::new(alloc, all)?;
        let seen = vec![in alloc; 0u16; rows.len()]?;
        let passed = vec![in alloc; 0u16; watchers.entries.heads.len()]?;
        let few = rows.len() / FEW;
        let risen = vec![in alloc; 0u32; few]?;
        let touched = vec![in alloc; 0u32; few + dependents.len()]?;
        Ok(RowPlan {
            rows,
            levels,
            shifts,
            ends,
            dependents,
            watchers,
            seen,
            passed,
            risen,
            touched,
        })
    }

    /// Raises each level to what its distance needs, in rounds, until none rises. Answers the number of rounds.
    /// It takes no memory.
    pub fn settle<L: Ledger>(&mut self, steps: &mut Steps<L>) -> u64
        requires fresh { All (λ level. level ≡ 0) self.old.levels }
        ensures layout { IsLayout (need self.old.rows) (tops self.old.rows) self.new.levels result }
        ensures shifts { self.new.shifts ≡ shifts_of self.old.rows self.new.levels }
        ensures small { All (λ shift. shift < 2 ^ 62) self.new.shifts }
        ensures holds { (index : ℕ) → index < length self.old.rows
            → slice_index (need self.old.rows self.new.levels) index
            ≤ slice_index self.new.levels index }
        ensures highest { (index : ℕ) → index < length self.old.rows
            → slice_index self.new.levels index ≤ slice_index (tops self.old.rows) index }
        ensures within { result ≤ 1 + sum (tops self.old.rows) }
        ensures at_most { steps.new ≤ steps.old + result * several self.old.rows }
        ensures at_least { steps.old + several self.old.rows ≤ steps.new }
        ensures kept { self.new.rows ≡ self.old.rows }
    {
        let all = EndedRows {
            rows: &self.rows,
            ends: &self.ends,
        };
        settling::settle(
            all,
            &self.dependents,
            &self.watchers.entries,
            &mut self.watchers.wide,
            &mut self.levels,
            &mut self.shifts,
            &mut self.seen,
            &mut self.passed,
            &mut self.risen,
            &mut self.touched,
            steps,
        )
    }

    /// The level of the row of this index.
    pub fn level(&self, row: usize) -> u8
        requires { row < length self.now.rows }
        ensures { result ≡ slice_index self.now.levels row }
    {
        self.levels[row]
    }

    /// How far the row of this index is moved, in bytes.
    pub fn shift(&self, row: usize) -> u64
        requires { row < length self.now.rows }
        ensures shift { result ≡ slice_index self.now.shifts row }
        ensures within { result < 2 ^ 62 }
    {
        self.shifts.get(row)
    }

    /// The rows.
    pub fn rows(&self) -> &[PackedRow]
        ensures { result.now ≡ self.now.rows }
    {
        &self.rows
    }
}
