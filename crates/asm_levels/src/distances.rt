//! The distances that rows hold: numbers, plus how far rows are moved.

ghost use Rattle.std.specs.Prelude.{◌≡◌, ◌+◌, ◌%◌, ◌^◌, ◌<◌, All, length, sum_by};
ghost use Rattle.asm_levels.specs.Distances as spec;
ghost use Rattle.asm_levels.specs.declared.distances.Distance.TheVariants.{Between};

use asm_base::NoMemory;
use range_table::RangeTable;
use std::alloc::Global;
use std::marker::Model;

/// The shift of a row, so many times.
#[derive(Clone, Copy)]
pub struct RowTerm {
    pub coefficient: u64,
    pub row: u32,
}

/// The terms of a sum, in an allocation of their own: few of many rows hold any, and each row stays small.
#[derive(Drop)]
pub struct RowTerms {
    terms: Box<Vec<RowTerm>>,
}

impl Model for RowTerms {
    ghost use Rattle.std.specs.Prelude.{List};
    ghost use Rattle.asm_levels.specs.declared.distances.RowTerm.{RowTerm as TheTerm};

    ghost Value = { List TheTerm };

    ghost view = { λ held. held.terms.value.items };
}

impl RowTerms {
    ghost use Rattle.std.specs.Prelude.{◌≡◌, IfOk};

    /// These terms.
    pub fn new(alloc: Global, terms: Vec<RowTerm>) -> Result<RowTerms, NoMemory>
        ensures { IfOk result (λ held. held ≡ terms.items) }
    {
        Ok(RowTerms {
            terms: Box::new(alloc, terms)?,
        })
    }

    /// The terms.
    pub fn as_slice(&self) -> &[RowTerm]
        ensures { result.now ≡ self.now }
    {
        self.terms.as_slice()
    }
}

/// A number plus how far rows are moved: the distance that a row holds.
#[derive(Drop)]
pub enum Distance {
    /// The number plus the shift of one row less that of another, modulo 2^64.
    Between {
        number: u64,
        ahead: u32,
        behind: u32,
    },
    /// The number plus the shifts of rows, each times its coefficient, modulo 2^64.
    Sum {
        number: u64,
        terms: RowTerms,
    },
}

#[inline(never)]
fn sum_value(shifts: &RangeTable, number: u64, terms: &[RowTerm]) -> u64
    requires { All (λ term. term.row < length shifts.now) terms.now }
    ensures { result ≡ (number + sum_by (spec.times_shift shifts.now) terms.now) % 2 ^ 64 }
{
    let mut value = number;
    for term in terms {
        value = value.wrapping_add(term.coefficient.wrapping_mul(shifts.get(term.row as usize)));
    }
    value
}

/// A number plus the shift of one row less that of another.
#[tactic(auto, unfolding(crate::specs::Distances::distance_value))]
#[inline(always)]
pub(crate) fn value_between(shifts: &RangeTable, number: u64, ahead: u32, behind: u32) -> u64
    requires ahead { ahead < length shifts.now }
    requires behind { behind < length shifts.now }
    ensures { result ≡ spec.distance_value shifts.now (Between number ahead behind) }
{
    number
        .wrapping_add(shifts.get(ahead as usize))
        .wrapping_sub(shifts.get(behind as usize))
}

/// The distance, modulo 2^64, where the rows are moved so far.
#[tactic(auto, unfolding(crate::specs::Distances::distance_value))]
#[inline(always)]
pub(crate) fn distance_value(shifts: &RangeTable, distance: &Distance) -> u64
    requires { spec.DistanceStands (length shifts.now) distance.now }
    ensures { result ≡ spec.distance_value shifts.now distance.now }
{
    match distance {
        Distance::Between {
            number,
            ahead,
            behind,
        } => value_between(shifts, *number, *ahead, *behind),
        Distance::Sum { number, terms } => sum_value(shifts, *number, terms.as_slice()),
    }
}
