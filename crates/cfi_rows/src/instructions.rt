//! From an entry's bytes to its instructions (DWARF 5, sections 6.4.2 and 7.24).

ghost use Rattle.std.specs.Prelude.{◌≡◌, ◌+◌, ◌<◌, IfSome, length};
ghost use Rattle.std.specs.Option.{option_map};
ghost use Rattle.cfi_rows.specs.Instructions as spec;

use crate::operands::{byte, factored, factored_signed, four_bytes, plain, register, two_bytes};
use crate::rows::{CfiOp, Insn, Rule};

#[tactic(auto, unfolding(crate::specs::Instructions::nop_or_advance))]
fn nop_or_advance(code: u8, bytes: &[u8]) -> Option<(Insn, &[u8])>
    ensures value { option_map (λ r. (r.0, r.1.now)) result ≡ spec.nop_or_advance code bytes.now }
    ensures shorter { IfSome result (λ r. length r.1.now < length bytes.now + 1) }
{
    match code {
        0x00 => Some((Insn::Nop, bytes)),
        0x02 => {
            let (distance, rest) = byte(bytes)?;
            Some((Insn::Advance(distance), rest))
        }
        0x03 => {
            let (distance, rest) = two_bytes(bytes)?;
            Some((Insn::Advance(distance), rest))
        }
        0x04 => {
            let (distance, rest) = four_bytes(bytes)?;
            Some((Insn::Advance(distance), rest))
        }
        _ => None,
    }
}

#[tactic(auto, unfolding(crate::specs::Instructions::register_rule))]
fn register_rule(code: u8, bytes: &[u8]) -> Option<(Insn, &[u8])>
    ensures value { option_map (λ r. (r.0, r.1.now)) result ≡ spec.register_rule code bytes.now }
    ensures shorter { IfSome result (λ r. length r.1.now < length bytes.now + 1) }
{
    match code {
        0x05 => {
            let (number, rest) = register(bytes)?;
            let (offset, rest) = factored(rest)?;
            Some((Insn::Op(CfiOp::Set(number, Rule::Offset(offset))), rest))
        }
        0x06 => {
            let (number, rest) = register(bytes)?;
            Some((Insn::Op(CfiOp::Restore(number)), rest))
        }
        0x07 => {
            let (number, rest) = register(bytes)?;
            Some((Insn::Op(CfiOp::Set(number, Rule::Undefined)), rest))
        }
        0x08 => {
            let (number, rest) = register(bytes)?;
            Some((Insn::Op(CfiOp::Set(number, Rule::SameValue)), rest))
        }
        0x09 => {
            let (number, rest) = register(bytes)?;
            let (other, rest) = register(rest)?;
            Some((Insn::Op(CfiOp::Set(number, Rule::Register(other))), rest))
        }
        _ => None,
    }
}

#[tactic(auto, unfolding(crate::specs::Instructions::state_or_cfa))]
fn state_or_cfa(code: u8, bytes: &[u8]) -> Option<(Insn, &[u8])>
    ensures value { option_map (λ r. (r.0, r.1.now)) result ≡ spec.state_or_cfa code bytes.now }
    ensures shorter { IfSome result (λ r. length r.1.now < length bytes.now + 1) }
{
    match code {
        0x0a => Some((Insn::Op(CfiOp::Remember), bytes)),
        0x0b => Some((Insn::Op(CfiOp::RestoreState), bytes)),
        0x0c => {
            let (number, rest) = register(bytes)?;
            let (offset, rest) = plain(rest)?;
            Some((Insn::Op(CfiOp::DefCfa(number, offset)), rest))
        }
        0x0d => {
            let (number, rest) = register(bytes)?;
            Some((Insn::Op(CfiOp::DefCfaRegister(number)), rest))
        }
        0x0e => {
            let (offset, rest) = plain(bytes)?;
            Some((Insn::Op(CfiOp::DefCfaOffset(offset)), rest))
        }
        _ => None,
    }
}

#[tactic(auto, unfolding(crate::specs::Instructions::signed_or_value))]
fn signed_or_value(code: u8, bytes: &[u8]) -> Option<(Insn, &[u8])>
    ensures value { option_map (λ r. (r.0, r.1.now)) result ≡ spec.signed_or_value code bytes.now }
    ensures shorter { IfSome result (λ r. length r.1.now < length bytes.now + 1) }
{
    match code {
        0x11 => {
            let (number, rest) = register(bytes)?;
            let (offset, rest) = factored_signed(rest)?;
            Some((Insn::Op(CfiOp::Set(number, Rule::Offset(offset))), rest))
        }
        0x12 => {
            let (number, rest) = register(bytes)?;
            let (offset, rest) = factored_signed(rest)?;
            Some((Insn::Op(CfiOp::DefCfa(number, offset)), rest))
        }
        0x13 => {
            let (offset, rest) = factored_signed(bytes)?;
            Some((Insn::Op(CfiOp::DefCfaOffset(offset)), rest))
        }
        0x14 => {
            let (number, rest) = register(bytes)?;
            let (offset, rest) = factored(rest)?;
            Some((
                Insn::Op(CfiOp::Set(number, Rule::ValueOffset(offset))),
                rest,
            ))
        }
        0x15 => {
            let (number, rest) = register(bytes)?;
            let (offset, rest) = factored_signed(rest)?;
            Some((
                Insn::Op(CfiOp::Set(number, Rule::ValueOffset(offset))),
                rest,
            ))
        }
        _ => None,
    }
}

#[tactic(auto, unfolding(crate::specs::Instructions::extended))]
fn extended(code: u8, bytes: &[u8]) -> Option<(Insn, &[u8])>
    ensures value { option_map (λ r. (r.0, r.1.now)) result ≡ spec.extended code bytes.now }
    ensures shorter { IfSome result (λ r. length r.1.now < length bytes.now + 1) }
{
    if code < 0x05 {
        nop_or_advance(code, bytes)
    } else if code < 0x0a {
        register_rule(code, bytes)
    } else if code < 0x10 {
        state_or_cfa(code, bytes)
    } else {
        signed_or_value(code, bytes)
    }
}

/// The instruction that the bytes begin with, and what follows it. None where they begin with none that is taken.
pub fn next_insn(bytes: &[u8]) -> Option<(Insn, &[u8])>
    ensures value { option_map (λ r. (r.0, r.1.now)) result ≡ spec.next bytes.now }
    ensures shorter { IfSome result (λ r. length r.1.now < length bytes.now) }
{
    let Some((code, rest)) = bytes.split_first() else {
        return None;
    };
    let code = *code;
    if code < 0x40 {
        return extended(code, rest);
    }
    if code < 0x80 {
        return Some((Insn::Advance((code - 0x40) as u32), rest));
    }
    if code < 0xc0 {
        let (offset, rest) = factored(rest)?;
        return Some((
            Insn::Op(CfiOp::Set(code - 0x80, Rule::Offset(offset))),
            rest,
        ));
    }
    Some((Insn::Op(CfiOp::Restore(code - 0xc0)), rest))
}
