//! From bytes to operations (DWARF 5, sections 6.2.5 and 7.22).

ghost use Rattle.std.specs.Prelude.{◌≡◌, ◌+◌, ◌<◌, ◌≤◌, IfSome, length};
ghost use Rattle.std.specs.Option.{option_map};
ghost use Rattle.line_rows.specs.Ops as spec;

use crate::rows::LineOp;
use leb128::{read_signed, read_unsigned};

/// A number in two bytes, the lowest first.
pub fn two_bytes(bytes: &[u8]) -> Option<(u32, &[u8])>
    ensures value { option_map (λ r. (r.0, r.1.now)) result ≡ spec.two_bytes_of bytes.now }
    ensures shorter { IfSome result (λ r. length r.1.now < length bytes.now) }
{
    match bytes {
        [a, b, rest @ ..] => Some((*a as u32 + *b as u32 * 256, rest)),
        _ => None,
    }
}

/// A number in four bytes, the lowest first.
pub fn four_bytes(bytes: &[u8]) -> Option<(u32, &[u8])>
    ensures value { option_map (λ r. (r.0, r.1.now)) result ≡ spec.four_bytes_of bytes.now }
    ensures shorter { IfSome result (λ r. length r.1.now < length bytes.now) }
{
    match bytes {
        [a, b, c, d, rest @ ..] => {
            Some((
                *a as u32 + *b as u32 * 256 + *c as u32 * 65536 + *d as u32 * 16777216,
                rest,
            ))
        }
        _ => None,
    }
}

fn address(operands: &[u8]) -> Option<LineOp>
    ensures { result ≡ spec.address_of operands.now }
{
    let (low, rest) = four_bytes(operands)?;
    let (high, _rest) = four_bytes(rest)?;
    Some(LineOp::SetAddress(low as u64 + high as u64 * 4294967296))
}

#[tactic(auto, unfolding(crate::specs::Ops::extended))]
fn extended(code: u8, operands: &[u8]) -> Option<LineOp>
    ensures { result ≡ spec.extended code operands.now }
{
    match code {
        0x01 => Some(LineOp::EndSequence),
        0x02 => address(operands),
        0x04 => {
            let (number, _rest) = read_unsigned(operands)?;
            Some(LineOp::SetDiscriminator(number))
        }
        _ => Some(LineOp::Skipped),
    }
}

/// An extended opcode by its length, and what follows it.
fn of_length(size: u64, bytes: &[u8]) -> Option<(LineOp, &[u8])>
    ensures value { option_map (λ r. (r.0, r.1.now)) result ≡ spec.of_length (size, bytes.now) }
    ensures shorter { IfSome result (λ r. length r.1.now < length bytes.now) }
{
    let Some((code, rest)) = bytes.split_first() else {
        return None;
    };
    if size == 0 || size > rest.len() as u64 + 1 {
        return None;
    }
    let count = (size - 1) as usize;
    let op = extended(*code, &rest[..count])?;
    Some((op, &rest[count..]))
}

#[tactic(auto, unfolding(crate::specs::Ops::first_standard))]
fn first_standard(code: u8, bytes: &[u8]) -> Option<(LineOp, &[u8])>
    ensures value { option_map (λ r. (r.0, r.1.now)) result ≡ spec.first_standard code bytes.now }
    ensures shorter { IfSome result (λ r. length r.1.now < length bytes.now + 1) }
{
    match code {
        0x01 => Some((LineOp::Copy, bytes)),
        0x02 => {
            let (number, rest) = read_unsigned(bytes)?;
            Some((LineOp::AdvancePc(number), rest))
        }
        0x03 => {
            let (number, rest) = read_signed(bytes)?;
            Some((LineOp::AdvanceLine(number), rest))
        }
        0x04 => {
            let (number, rest) = read_unsigned(bytes)?;
            Some((LineOp::SetFile(number), rest))
        }
        _ => {
            let (number, rest) = read_unsigned(bytes)?;
            Some((LineOp::SetColumn(number), rest))
        }
    }
}

#[tactic(auto, unfolding(crate::specs::Ops::second_standard))]
fn second_standard(code: u8, bytes: &[u8]) -> Option<(LineOp, &[u8])>
    ensures value { option_map (λ r. (r.0, r.1.now)) result ≡ spec.second_standard code bytes.now }
    ensures shorter { IfSome result (λ r. length r.1.now < length bytes.now + 1) }
{
    match code {
        0x06 => Some((LineOp::NegateStmt, bytes)),
        0x07 => Some((LineOp::SetBasicBlock, bytes)),
        0x08 => Some((LineOp::AdvancePc(17), bytes)),
        0x09 => {
            let (number, rest) = two_bytes(bytes)?;
            Some((LineOp::AdvancePc(number as u64), rest))
        }
        0x0a => Some((LineOp::SetPrologueEnd, bytes)),
        0x0b => Some((LineOp::SetEpilogueBegin, bytes)),
        _ => {
            let (number, rest) = read_unsigned(bytes)?;
            Some((LineOp::SetIsa(number), rest))
        }
    }
}

/// The operation that the bytes begin with, and what follows it.
pub fn next_op(bytes: &[u8]) -> Option<(LineOp, &[u8])>
    ensures value { option_map (λ r. (r.0, r.1.now)) result ≡ spec.next bytes.now }
    ensures shorter { IfSome result (λ r. length r.1.now < length bytes.now) }
{
    let Some((code, rest)) = bytes.split_first() else {
        return None;
    };
    let code = *code;
    if code == 0 {
        let (size, rest) = read_unsigned(rest)?;
        return of_length(size, rest);
    }
    if code < 0x06 {
        return first_standard(code, rest);
    }
    if code < 0x0d {
        return second_standard(code, rest);
    }
    let code = code - 13;
    Some((
        LineOp::Special((code % 14) as i64 - 5, (code / 14) as u64),
        rest,
    ))
}
