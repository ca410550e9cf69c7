//! Pieces of space, sizes and alignments (GNU as manual, ".skip", ".fill", ".comm").

ghost use Rattle.std.specs.Prelude.{◌≡◌, ◌<◌, ◌≤◌, IfOk};
ghost use Rattle.asm_base.specs.Refusals.{GivesBy};
ghost use Rattle.asm_expr.specs.Arithmetic.{is_negative};
ghost use Rattle.asm_words.specs.Spaces.{space_of, units_of, unit_size, default_log, said_log, log_of, space_size};

use asm_operands::{PlaceCause, PlaceFault};
use item_contents::{Content, Fill};

/// A size of space for a symbol.
pub fn space_size(size: u64) -> Result<u64, PlaceFault>
    ensures { GivesBy (λ size. size) result (space_size size) }
{
    if is_negative(size) {
        Err(PlaceFault::Fault(PlaceCause::OutOfRange))
    } else {
        Ok(size)
    }
}

/// The most bytes of one piece of space.
pub(crate) const MOST_SPACE: u64 = 1 << 30;

/// Whether a number modulo 2^64 is below 0.
pub fn is_negative(number: u64) -> bool
    ensures { result ≡ is_negative number }
{
    number >= 1 << 63
}

/// So many bytes, each the low byte of the value.
#[tactic(auto, unfolding(crate::specs::Spaces::space_of))]
pub fn space_of(count: u64, value: u64) -> Result<Content, PlaceFault>
    ensures { GivesBy (λ item. item) result (space_of count value) }
{
    if count > MOST_SPACE {
        return Err(PlaceFault::Fault(PlaceCause::OutOfRange));
    }
    Ok(Content::Fill(Fill::new(count, 1, value)))
}

/// So many units of so many bytes.
#[tactic(auto, unfolding(crate::specs::Spaces::units_of))]
pub fn units_of(count: u64, size: u64, value: u64) -> Result<Content, PlaceFault>
    requires { size ≤ 8 }
    ensures { GivesBy (λ item. item) result (units_of count size value) }
{
    if is_negative(count) {
        return Err(PlaceFault::Fault(PlaceCause::OutOfRange));
    }
    if size == 0 {
        return Ok(Content::Fill(Fill::new(0, 0, value)));
    }
    if count > MOST_SPACE || count * size > MOST_SPACE {
        return Err(PlaceFault::Fault(PlaceCause::OutOfRange));
    }
    Ok(Content::Fill(Fill::new(count, size, value)))
}

/// The size of a unit, in bytes: 1 where it is not said, and at most 8.
#[tactic(auto, unfolding(crate::specs::Spaces::unit_size))]
pub fn unit_size(size: Option<u64>) -> Result<u64, PlaceFault>
    ensures value { GivesBy (λ size. size) result (unit_size size) }
    ensures within { IfOk result (λ size. size ≤ 8) }
{
    match size {
        None => Ok(1),
        Some(size) => {
            if is_negative(size) {
                Err(PlaceFault::Fault(PlaceCause::OutOfRange))
            } else {
                Ok(size.min(8))
            }
        }
    }
}

/// The power of two of an alignment that is not said.
#[tactic(auto, unfolding(crate::specs::Spaces::default_log))]
fn default_log(size: u64) -> u8
    ensures value { result ≡ default_log size }
    ensures within { result ≤ 4 }
{
    match size {
        0..2 => 0,
        2..4 => 1,
        4..8 => 2,
        8..16 => 3,
        _ => 4,
    }
}

/// The power of two of an alignment that is said.
#[tactic(auto, unfolding(crate::specs::Spaces::said_log))]
pub(crate) fn said_log(alignment: u64) -> Result<u8, PlaceFault>
    ensures value { GivesBy (λ log. log) result (said_log alignment) }
    ensures within { IfOk result (λ log. log ≤ 30) }
{
    if alignment == 0 {
        return Ok(0);
    }
    let log = alignment.trailing_zeros();
    if alignment.is_power_of_two() && log <= 30 {
        Ok(log as u8)
    } else {
        Err(PlaceFault::Fault(PlaceCause::OutOfRange))
    }
}

/// The power of two of an alignment that may be said.
pub fn log_of(alignment: Option<u64>, size: u64) -> Result<u8, PlaceFault>
    ensures value { GivesBy (λ log. log) result (log_of alignment size) }
    ensures within { IfOk result (λ log. log ≤ 30) }
{
    match alignment {
        None => Ok(default_log(size)),
        Some(alignment) => said_log(alignment),
    }
}
