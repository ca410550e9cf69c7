//! Alignments, and bytes up to a place (GNU as manual, ".p2align", ".align", ".balign", ".org").

ghost use Rattle.std.specs.Prelude.{◌≡◌, ◌≤◌, ◌^◌, IfOk};
ghost use Rattle.asm_base.specs.Refusals.{GivesBy};
ghost use Rattle.asm_words.specs.Paddings as spec;

use crate::directives::AlignedBy;
use crate::space_sizes::{MOST_SPACE, is_negative, said_log};
use asm_operands::{PlaceCause, PlaceFault, UpToThree};
use item_contents::{Align, Content, Org, Padding};

/// The exponent of the power of two that an alignment is said by.
fn aligned_log(by: AlignedBy, said: u64) -> Result<u8, PlaceFault>
    ensures value { GivesBy (λ log. log) result (spec.aligned_log by said) }
    ensures within { IfOk result (λ log. log ≤ 30) }
{
    match by {
        AlignedBy::Exponent => {
            if said <= 30 {
                Ok(said as u8)
            } else {
                Err(PlaceFault::Fault(PlaceCause::OutOfRange))
            }
        }
        AlignedBy::Bytes => said_log(said),
    }
}

/// The most bytes that an alignment may add.
fn most_added(log: u8, most: Option<u64>) -> Result<u64, PlaceFault>
    requires { log ≤ 30 }
    ensures { GivesBy (λ most. most) result (spec.most_added log most) }
{
    match most {
        None => Ok(1 << log),
        Some(most) => {
            if is_negative(most) {
                Err(PlaceFault::Fault(PlaceCause::OutOfRange))
            } else {
                Ok(most)
            }
        }
    }
}

/// What is put in between, in code or elsewhere.
fn padding_of(code: bool, fill: Option<u64>) -> Padding
    ensures { result ≡ spec.padding_of code fill }
{
    match fill {
        Some(value) => Padding::Byte((value % (1 << 8)) as u8),
        None => {
            if code {
                Padding::NoOperations
            } else {
                Padding::Byte(0)
            }
        }
    }
}

/// The alignment that is said by these values: the exponent or the bytes, the fill, and the most bytes.
#[tactic(auto, unfolding(crate::specs::Paddings::align_of))]
pub fn align_of(by: AlignedBy, code: bool, values: UpToThree<u64>) -> Result<Content, PlaceFault>
    ensures { GivesBy (λ item. item) result (spec.align_of by code values) }
{
    let log = aligned_log(by, values.first)?;
    let most = most_added(log, values.third)?;
    let padding = padding_of(code, values.second);
    Ok(Content::Align(Align::new(log, most, padding)))
}

/// A number modulo 2^64 as bytes forwards.
fn forwards(number: u64) -> u64
    ensures { result ≡ spec.forwards number }
{
    if is_negative(number) { 0 } else { number }
}

/// The same as bytes backwards, where it is below 0.
fn backwards(number: u64) -> u64
    ensures { result ≡ spec.backwards number }
{
    if is_negative(number) {
        number.wrapping_neg()
    } else {
        0
    }
}

/// Bytes of the low byte of a value up to the place that stands so far from the one of this offset,
/// which so many items stand before.
#[tactic(auto, unfolding(crate::specs::Paddings::org_of))]
pub fn org_of(from: u32, offset: u64, number: u64, fill: u64) -> Result<Content, PlaceFault>
    requires { offset ≤ 2 ^ 33 }
    ensures { GivesBy (λ item. item) result (spec.org_of from offset number fill) }
{
    let ahead = forwards(number);
    let behind = backwards(number);
    if ahead > MOST_SPACE || behind > MOST_SPACE {
        return Err(PlaceFault::Fault(PlaceCause::OutOfRange));
    }
    let fill = (fill % (1 << 8)) as u8;
    Ok(Content::Org(Org::new(from, offset + ahead, behind, fill)))
}
