//! The shortest bytes of an instruction.

ghost use Rattle.std.specs.Prelude.{◌≡◌, ◌==◌, ◌&&◌, true};
ghost use Rattle.x86_insn.specs.Views.{view_of};
ghost use Rattle.x86_encode.specs.Answers.{Encodes, Fills, Notes, Placed};
ghost use Rattle.x86_parts.specs.Codes.{is_quad, is_wide, name_meant, meant};
ghost use Rattle.x86_encode.specs.Encoding.{is_coded, is_form, fault_of, encoding_of, answered, EncodesAs};
ghost use Rattle.x86_encode.specs.Faults.{HasCause};

use crate::making::{encoded_of, exchanged, made_of};
use crate::searching::shortest;
use x86_insn::{Class, Insn, Mnemonic, Slot, Values};
use x86_parts::{EncodeFault, Encoded, Found, is_signed_32, laid_out};
use x86_table::mnemonics::integers::{MOV, MOVABS, XCHG};

/// Whether the value goes into a 64-bit register and 32 bits, sign-extended, do not hold it.
fn is_wide_move(insn: &Insn, values: &Values) -> bool
    ensures { let view = view_of insn.now values.now in
        result ≡ (is_quad view.first && is_wide view.second) }
{
    match insn.first {
        Slot::Register(reg) => match reg.class {
            Class::Quad => match insn.second {
                Slot::Immediate => match values.immediate {
                    Some(value) => !is_signed_32(value),
                    None => false,
                },
                _ => false,
            },
            _ => false,
        },
        _ => false,
    }
}

/// The name that is meant: mov of a wide value is movabs.
fn name_meant(insn: &Insn, values: &Values) -> Mnemonic
    ensures { result.0 ≡ name_meant (view_of insn.now values.now) }
{
    if insn.name.0 == MOV && (insn.size == 64 && is_wide_move(insn, values)) {
        Mnemonic(MOVABS)
    } else {
        insn.name
    }
}

/// Whether some bytes mean the instruction with these values.
fn has_code(insn: &Insn, values: &Values) -> bool
    ensures { result ≡ is_coded (meant (view_of insn.now values.now)) }
{
    match made_of(name_meant(insn, values), insn, values) {
        None => false,
        Some(_) => true,
    }
}

/// Whether some bytes mean the instruction with any values: these two are as good as all.
fn has_form(insn: &Insn) -> bool
    ensures { result ≡ is_form (view_of insn.now) }
{
    let small = Values {
        immediate: Some(1),
        displacement: Some(0),
    };
    let large = Values {
        immediate: Some(0x8000_0000_0000_0000),
        displacement: Some(0),
    };
    if has_code(insn, &small) {
        true
    } else {
        has_code(insn, &large)
    }
}

/// Why no bytes mean the instruction.
#[tactic(auto, unfolding(crate::specs::Encoding::fault_of))]
#[inline(never)]
fn fault_of(insn: &Insn, values: &Values) -> EncodeFault
    ensures { result ≡ fault_of (view_of insn.now) values.now }
{
    if !has_form(insn) {
        return EncodeFault::NoSuchForm;
    }
    match values.immediate {
        Some(_) => EncodeFault::OutOfRange,
        None => {
            let unknown = Values {
                immediate: None,
                displacement: Some(0),
            };
            if has_code(insn, &unknown) {
                EncodeFault::OutOfRange
            } else {
                EncodeFault::ValueNotKnown
            }
        }
    }
}

/// The same of the instruction `xchg`, in either order of its operands.
#[inline(never)]
fn encode_exchanged(name: Mnemonic, insn: &Insn, values: &Values) -> Result<Encoded, EncodeFault>
    requires name { name.0 ≡ name_meant (view_of insn.now values.now) }
    requires xchg { (name.0 == XCHG) ≡ true }
    ensures { EncodesAs result (encoding_of (view_of insn.now) values.now) }
{
    match exchanged(name, insn, values) {
        None => Err(fault_of(insn, values)),
        Some(made) => Ok(made.encoded),
    }
}

/// The shortest bytes that mean the instruction.
pub fn encode(insn: &Insn, values: &Values) -> Result<Encoded, EncodeFault>
    ensures value { EncodesAs result (encoding_of (view_of insn.now) values.now) }
    ensures code { Encodes (meant (view_of insn.now values.now)) (answered result) }
    ensures fields { Fills (meant (view_of insn.now values.now)) (answered result) }
    ensures positions { Placed (meant (view_of insn.now values.now)) (answered result) }
    ensures notes { Notes (meant (view_of insn.now values.now)) (answered result) }
    ensures cause { HasCause insn.now values.now (answered result) }
{
    let name = name_meant(insn, values);
    if name.0 == XCHG {
        return encode_exchanged(name, insn, values);
    }
    let laid = laid_out(insn, values);
    let mut found: Option<Found> = None;
    shortest(&mut found, name, &laid, insn, values);
    match &found {
        None => Err(fault_of(insn, values)),
        Some(own) => Ok(encoded_of(name, own, insn, values)),
    }
}
