//! What rows settle to, as text.

ghost use Rattle.std.specs.Prelude.{◌≡◌, ◌<◌, All, length};
ghost use Rattle.asm_levels.specs.Needs as spec;

use crate::layouts::forms::{push_advance, push_jump, push_leb128};
use crate::layouts::standing::all_fit;
use asm_base::Steps;
use asm_levels::{Distance, PackedRow, RowSize};
use row_plans::RowPlan;
use row_texts::{write_count, write_line, write_number, write_spaced_code, write_text};
use std::alloc::{AllocError, Global};
use std::io;
use std::marker::Brand;
use std::sync::ledger::{Blank, Ledger};

/// Of a case so many items are shown.
const SHOWN_ITEMS: usize = 8;

/// Settles the rows with a count of steps of their own. Answers the number of rounds.
fn rounds_of<L: Ledger>(plan: &mut RowPlan, blank: Blank) -> u64
    requires name { blank.name ≡ L.name }
    requires parts { blank.parts ≡ L.parts }
    requires some { 0 < blank.parts }
    requires lowest { All (λ level. level ≡ 0) plan.old.levels }
{
    let mut steps = Steps::<L>::new(blank);
    plan.settle(&mut steps)
}

/// How far a row is moved that another one names.
fn named_shift(plan: &RowPlan, row: u32) -> u64 {
    let row = row as usize;
    if row < plan.rows().len() {
        plan.shift(row)
    } else {
        0
    }
}

/// The distance that a row holds.
fn held_distance(plan: &RowPlan, distance: &Distance) -> u64 {
    match distance {
        Distance::Between {
            number,
            ahead,
            behind,
        } => {
            number
                .wrapping_add(named_shift(plan, *ahead))
                .wrapping_sub(named_shift(plan, *behind))
        }
        // No line makes one.
        Distance::Sum { number, .. } => *number,
    }
}

/// Appends the bytes of a row that holds a distance.
fn push_form(
    plan: &RowPlan,
    size: &RowSize,
    level: u8,
    bytes: &mut Vec<u8>,
) -> Result<(), AllocError> {
    match size {
        RowSize::Jump {
            conditional,
            distance,
        } => push_jump(*conditional, level, held_distance(plan, distance), bytes),
        RowSize::Leb128 { signed, distance } => {
            push_leb128(*signed, level, held_distance(plan, distance), bytes)
        }
        RowSize::Advance { distance } => {
            push_advance(level, held_distance(plan, distance), bytes)
        }
        _ => Ok(()),
    }
}

/// The word of a row.
fn word_of(size: &RowSize) -> &'static str {
    match size {
        RowSize::Fixed(_) => "fixed",
        RowSize::Align { .. } => "align",
        RowSize::Org { .. } => "org",
        RowSize::Jump {
            conditional: false,
            ..
        } => "jmp",
        RowSize::Jump {
            conditional: true,
            ..
        } => "je",
        RowSize::Leb128 { signed: false, .. } => "uleb128",
        RowSize::Leb128 { signed: true, .. } => "sleb128",
        RowSize::Advance { .. } => "advance",
        RowSize::End => "end",
    }
}

/// Writes the word of a row, its address, and its bytes, or how many they are where it holds no distance.
fn write_row(alloc: Global, plan: &RowPlan, index: usize, out: &mut Vec<u8>) -> io::Result<()>
    requires { index < length plan.now.rows }
{
    // No row holds a sum.
    let Some(row) = plan.rows()[index].row() else {
        return Ok(());
    };
    let shift = plan.shift(index);
    let address = row.offset.wrapping_add(shift);
    let word = word_of(&row.size);
    write_text(word, out)?;
    write_text(" at ", out)?;
    write_number(address, out)?;
    write_text(":", out)?;
    if has_levels(&plan.rows()[index]) {
        let mut bytes = Vec::new(alloc);
        push_form(plan, &row.size, plan.level(index), &mut bytes)?;
        write_spaced_code(&bytes, out)?;
        return write_line("", out);
    }
    let next = index + 1;
    let moved = if next < plan.rows().len() {
        plan.shift(next).wrapping_sub(shift)
    } else {
        0
    };
    write_text(" ", out)?;
    write_count(moved, " bytes", out)
}

/// Whether a row has more than one level.
fn has_levels(row: &PackedRow) -> bool
    ensures { result ≡ spec.has_levels row.now.size }
{
    row.top() > 0
}

/// How many rows have more than one level: settling takes at most so many steps in a round.
#[tactic(auto, unfolding(asm_levels::specs::Needs::several))]
fn several(rows: &[PackedRow]) -> usize
    ensures { result ≡ spec.several rows.now }
{
    let mut count = 0;
    for row in rows {
        if has_levels(row) {
            count += 1;
        }
    }
    count
}

/// How many rows of several levels have this one.
fn count_at(plan: &RowPlan, level: u8) -> usize {
    let mut count = 0usize;
    for (index, row) in plan.rows().iter().enumerate() {
        if has_levels(row) && plan.level(index) == level {
            count = count.saturating_add(1);
        }
    }
    count
}

/// Writes how many rows have each level, where there are any.
fn write_levels(plan: &RowPlan, out: &mut Vec<u8>) -> io::Result<()> {
    for level in 0..10u8 {
        let count = count_at(plan, level);
        if count != 0 {
            write_text(", ", out)?;
            write_number(count as u64, out)?;
            write_text(" of level ", out)?;
            write_number(u64::from(level), out)?;
        }
    }
    write_line("", out)
}

/// How many plain bytes stand before a mark at the end of a section, and none where the row is no such mark.
fn end_offset(row: &PackedRow) -> Option<u64> {
    let row = row.row()?;
    match row.size {
        RowSize::End => Some(row.offset),
        _ => None,
    }
}

/// The bytes of all sections.
fn total(plan: &RowPlan) -> u64 {
    let mut bytes = 0u64;
    for (index, row) in plan.rows().iter().enumerate() {
        if let Some(offset) = end_offset(row) {
            let address = offset.wrapping_add(plan.shift(index));
            bytes = bytes.wrapping_add(address);
        }
    }
    bytes
}

/// Writes the first rows but the marks at the ends of sections.
fn write_rows(alloc: Global, plan: &RowPlan, out: &mut Vec<u8>) -> io::Result<()> {
    for (index, row) in plan.rows().iter().enumerate() {
        if index < SHOWN_ITEMS && end_offset(row).is_none() {
            write_row(alloc, plan, index, out)?;
        }
    }
    Ok(())
}

/// Writes how many bytes there are, how many rounds were made, and how many steps at most.
fn write_counts(bytes: u64, rounds: u64, steps: u64, out: &mut Vec<u8>) -> io::Result<()> {
    write_text("bytes ", out)?;
    write_number(bytes, out)?;
    write_text(", rounds ", out)?;
    write_number(rounds, out)?;
    write_text(", at most ", out)?;
    write_number(steps, out)?;
    write_text(" steps", out)
}

/// Settles the rows, and writes their bytes, rounds and levels, and the first of them.
pub fn write_settled(alloc: Global, rows: Vec<PackedRow>, out: &mut Vec<u8>) -> io::Result<()> {
    if !all_fit(&rows) {
        return write_line("too large", out);
    }
    let mut plan = match RowPlan::new(alloc, rows) {
        Ok(plan) => plan,
        Err(_) => return Err(io::Error::from(AllocError)),
    };
    let rounds = rounds_of::<Brand>(&mut plan, Blank::new(1));
    let bytes = total(&plan);
    let steps = rounds.saturating_mul(several(plan.rows()) as u64);
    write_counts(bytes, rounds, steps, out)?;
    write_levels(&plan, out)?;
    write_rows(alloc, &plan, out)
}
