//! The rows of an opcode.

ghost use Rattle.std.specs.Prelude.{◌≡◌, ◌<◌, ◌-◌, ℕ, IfSome, Some, slice_get, option_map, take, drop};
ghost use Rattle.x86_table.specs.Rows.{the_rows};
ghost use Rattle.x86_decode.specs.Admitting.{admits};
ghost use Rattle.x86_decode.specs.Slots as spec;
ghost use Rattle.x86_decode.specs.Views.{shown_head};

use crate::admitting::{admits, map_number};
use crate::heads::Head;
use crate::slots::{OPCODE_ROWS, STARTS};
use x86_lookup::rows;
use x86_table::{Map, Row};

/// A row of the table, and its number there.
#[derive(Clone, Copy)]
pub(crate) struct TableRow {
    pub(crate) number: u16,
    pub(crate) row: &'static Row,
}

/// Where the rows of each opcode begin.
#[tactic(auto, unfolding(crate::specs::Slots::the_starts))]
fn starts() -> &'static [u16]
    ensures { result.now ≡ spec.the_starts }
{
    &STARTS
}

/// The rows of each opcode.
#[tactic(auto, unfolding(crate::specs::Slots::the_numbers))]
fn numbers() -> &'static [u16]
    ensures { result.now ≡ spec.the_numbers }
{
    &OPCODE_ROWS
}

/// Where the rows of a slot begin.
fn start_of(slot: usize) -> usize
    requires { slot < 2000 }
    ensures { result ≡ spec.start_of slot }
{
    match starts().get(slot) {
        Some(start) => usize::from(*start),
        None => 0,
    }
}

/// All but so many.
fn behind(all: &'static [u16], count: usize) -> &'static [u16]
    ensures { result.now ≡ drop count all.now }
{
    if count < all.len() {
        &all[count..]
    } else {
        &[]
    }
}

/// At most so many.
fn front(all: &'static [u16], count: usize) -> &'static [u16]
    ensures { result.now ≡ take count all.now }
{
    if count < all.len() {
        &all[..count]
    } else {
        all
    }
}

/// The rows of the opcode, by their indices.
pub(crate) fn opcode_rows(map: Map, opcode: u8) -> &'static [u16]
    ensures { result.now ≡ spec.slot_numbers (spec.slot_of map opcode) }
{
    let slot = 256 * (usize::from(map_number(map)) - 1) + usize::from(opcode);
    let start = start_of(slot);
    front(
        behind(numbers(), start),
        start_of(slot + 1).saturating_sub(start),
    )
}

/// The row of this index, if it admits the head.
fn admitted(map: Map, head: &Head, opcode: u8, tail: &[u8], number: u16) -> Option<TableRow>
    ensures row { option_map (λ found. found.row.now) result
        ≡ spec.only (admits map (shown_head head.now) opcode tail.now) (slice_get the_rows number) }
    ensures numbered { IfSome result (λ found. slice_get the_rows found.number ≡ Some found.row.now) }
{
    match rows().get(usize::from(number)) {
        Some(row) => {
            if admits(map, head, opcode, tail, row) {
                Some(TableRow { number, row })
            } else {
                None
            }
        }
        None => None,
    }
}

/// The first of these rows that admits the head.
#[tactic(auto, using(crate::proofs::FirstNumbers::one_first, crate::proofs::FirstNumbers::none_first))]
pub(crate) fn first_of(
    map: Map,
    head: &Head,
    opcode: u8,
    tail: &[u8],
    numbers: &[u16],
) -> Option<TableRow>
    ensures row { option_map (λ found. found.row.now) result
        ≡ spec.first_number (admits map (shown_head head.now) opcode tail.now) numbers.now }
    ensures numbered { IfSome result (λ found. slice_get the_rows found.number ≡ Some found.row.now) }
{
    match numbers.split_first() {
        None => None,
        Some((number, others)) => match admitted(map, head, opcode, tail, *number) {
            Some(found) => Some(found),
            None => first_of(map, head, opcode, tail, others),
        },
    }
}
