//! From instructions to their bytes (DWARF 5, sections 6.4.2 and 7.24).

ghost use Rattle.std.specs.Prelude.{◌≡◌, ℕ, ◌+◌, ◌≤◌, ◌<◌, [], ◌∷◌};
ghost use Rattle.std.specs.Option.{option_map};
ghost use Rattle.arrayvec.specs.ArrayVec.{array_vec_len};
ghost use Rattle.cfi_entries.specs.Written as spec;

use arrayvec::ArrayVec;
use cfi_rows::{CfiBytes, CfiOp, Rule};
use leb128::{push_signed, push_unsigned};

/// A code alone.
fn code_alone(code: u8) -> CfiBytes
    ensures { result.items ≡ code ∷ [] }
{
    let mut bytes = ArrayVec::new();
    bytes.push(code);
    bytes
}

/// A code, and a register behind it.
fn code_and_register(code: u8, number: u8) -> CfiBytes
    ensures { result.items ≡ code ∷ number ∷ [] }
{
    let mut bytes = ArrayVec::new();
    bytes.push(code);
    bytes.push(number);
    bytes
}

/// The distance in slots of 8 bytes, where it is a multiple.
fn slots(distance: u64) -> Option<u64>
    ensures { (most : ℕ) → distance ≤ most → result ≡ spec.slots most distance }
{
    if distance % 8 == 0 {
        Some(distance / 8)
    } else {
        None
    }
}

/// The CFA's offset behind `plain`, or factored behind `factored`, where it is below 0.
fn cfa_offset(plain: CfiBytes, factored: CfiBytes, offset: i64) -> Option<CfiBytes>
    requires plain_room { array_vec_len plain ≤ 2 }
    requires factored_room { array_vec_len factored ≤ 2 }
    ensures { option_map (λ bytes. bytes.items) result
        ≡ spec.cfa_offset plain.items factored.items offset }
{
    if offset >= 0 {
        let mut bytes = plain;
        push_unsigned(&mut bytes, offset as u64);
        Some(bytes)
    } else {
        let number = slots(offset.unsigned_abs())?;
        let mut bytes = factored;
        push_signed(&mut bytes, number as i64);
        Some(bytes)
    }
}

/// A rule's offset from the CFA, factored: behind `below` where it is 0 or below, and behind `above` where it is above.
fn rule_offset(below: CfiBytes, above: CfiBytes, offset: i64) -> Option<CfiBytes>
    requires below_room { array_vec_len below ≤ 2 }
    requires above_room { array_vec_len above ≤ 2 }
    ensures { option_map (λ bytes. bytes.items) result
        ≡ spec.rule_offset below.items above.items offset }
{
    let number = slots(offset.unsigned_abs())?;
    if offset > 0 {
        let mut bytes = above;
        push_signed(&mut bytes, -(number as i64));
        Some(bytes)
    } else {
        let mut bytes = below;
        push_unsigned(&mut bytes, number);
        Some(bytes)
    }
}

/// A register of 0 to 63 gets a rule.
fn rule_bytes(number: u8, rule: Rule) -> Option<CfiBytes>
    requires { number < 64 }
    ensures { option_map (λ bytes. bytes.items) result ≡ spec.rule_written number rule }
{
    match rule {
        Rule::Unspecified => None,
        Rule::Undefined => Some(code_and_register(0x07, number)),
        Rule::SameValue => Some(code_and_register(0x08, number)),
        Rule::Offset(offset) => rule_offset(
            code_alone(0x80 + number),
            code_and_register(0x11, number),
            offset,
        ),
        Rule::ValueOffset(offset) => rule_offset(
            code_and_register(0x14, number),
            code_and_register(0x15, number),
            offset,
        ),
        Rule::Register(other) if other < 64 => {
            let mut bytes = code_and_register(0x09, number);
            bytes.push(other);
            Some(bytes)
        }
        Rule::Register(_) => None,
    }
}

/// The bytes of an instruction. None where no form holds it: a register above 63, a rule that is unspecified, and an
/// offset that is factored and no multiple of 8.
pub fn op_bytes(op: CfiOp) -> Option<CfiBytes>
    ensures { option_map (λ bytes. bytes.items) result ≡ spec.written op }
{
    match op {
        CfiOp::DefCfa(number, offset) if number < 64 => cfa_offset(
            code_and_register(0x0c, number),
            code_and_register(0x12, number),
            offset,
        ),
        CfiOp::DefCfaRegister(number) if number < 64 => Some(code_and_register(0x0d, number)),
        CfiOp::DefCfaOffset(offset) => cfa_offset(code_alone(0x0e), code_alone(0x13), offset),
        CfiOp::Set(number, rule) if number < 64 => rule_bytes(number, rule),
        CfiOp::Restore(number) if number < 64 => Some(code_alone(0xc0 + number)),
        CfiOp::Remember => Some(code_alone(0x0a)),
        CfiOp::RestoreState => Some(code_alone(0x0b)),
        _ => None,
    }
}
