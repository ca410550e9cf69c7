//! The shortest bytes of an instruction, with their fields, in either order of its operands.

ghost use Rattle.std.specs.Prelude.{◌≡◌, ◌==◌, Some, false, option_map, true};
ghost use Rattle.x86_insn.specs.Views.{seen_at, view_of};
ghost use Rattle.x86_table.specs.Reads.{is_register, is_accumulator};
ghost use Rattle.x86_parts.specs.Codes.{named};
ghost use Rattle.x86_encode.specs.Encoding.{ordered_coding, turned_position, turned_field, turned_coding, is_earlier, coding_of, made_at, MakesAs};
ghost use Rattle.x86_parts.specs.Keys.{Best};
ghost use Rattle.x86_encode.specs.Exchanges.{turned, exchanges, at_most};

use crate::searching::shortest;
use x86_insn::{Insn, Mnemonic, Slot, Values};
use x86_lookup::rows;
use x86_parts::{Encoded, Field, Found, Position, displacement_field, immediate_field, laid_out};
use x86_table::mnemonics::integers::XCHG;
use x86_table::{bytes_of, fields_have_bytes};

/// What is encoded, and the index of its row.
#[derive(Drop)]
pub struct Made {
    pub row: usize,
    pub encoded: Encoded,
}

/// The bytes of what was found for an instruction of this name, with their fields.
pub fn encoded_of(name: Mnemonic, found: &Found, insn: &Insn, values: &Values) -> Encoded
    requires { Best (named name (view_of insn.now values.now)) found.now }
    ensures { MakesAs (Some (record { row = found.now.row; encoded = result }))
        (ordered_coding (named name (view_of insn.now values.now))) }
{
    fields_have_bytes();
    let row = &rows()[found.row];
    Encoded {
        bytes: bytes_of(row, &found.parts),
        displacement: displacement_field(
            found.length,
            row.immediate,
            found.parts.place,
            found.parts.displacement,
            insn,
            values,
        ),
        immediate: immediate_field(
            found.length,
            row.immediate,
            found.parts.immediate,
            insn,
            values,
        ),
    }
}

/// What is made of the operands in the row's order.
fn made_here(name: Mnemonic, insn: &Insn, values: &Values) -> Option<Made>
    ensures { MakesAs result (ordered_coding (named name (view_of insn.now values.now))) }
{
    let laid = laid_out(insn, values);
    let mut found: Option<Found> = None;
    shortest(&mut found, name, &laid, insn, values);
    match &found {
        None => None,
        Some(own) => Some(Made {
            row: own.row,
            encoded: encoded_of(name, own, insn, values),
        }),
    }
}

/// The position in the other order.
fn turned_position(position: Position) -> Position
    ensures { result ≡ turned_position position }
{
    match position {
        Position::First => Position::Second,
        Position::Second => Position::First,
        Position::Third => Position::Third,
    }
}

/// The field of the other order.
fn turned_field(field: Option<Field>) -> Option<Field>
    ensures { result ≡ turned_field field }
{
    match field {
        None => None,
        Some(own) => Some(Field {
            at: own.at,
            size: own.size,
            kind: own.kind,
            position: turned_position(own.position),
        }),
    }
}

/// What is made of the operands in the other order.
fn made_back(name: Mnemonic, insn: &Insn, values: &Values) -> Option<Made>
    ensures { let other = turned (named name (view_of insn.now values.now)) in
        MakesAs result (option_map turned_coding (ordered_coding other)) }
{
    let other = Insn {
        name: insn.name,
        size: insn.size,
        prefix: insn.prefix,
        first: insn.second,
        second: insn.first,
        third: insn.third,
        address: insn.address,
        immediate: x86_insn::Value {
            amount: x86_insn::Amount::Number(0),
            suffix: None,
        },
        displacement: x86_insn::Value {
            amount: x86_insn::Amount::Number(0),
            suffix: None,
        },
    };
    match made_here(name, &other, values) {
        None => None,
        Some(own) => Some(Made {
            row: own.row,
            encoded: Encoded {
                displacement: turned_field(own.encoded.displacement),
                immediate: turned_field(own.encoded.immediate),
                bytes: own.encoded.bytes,
            },
        }),
    }
}

/// Whether the one comes before the other in order of their bytes, or is it.
fn at_most(one: &[u8], other: &[u8]) -> bool
    ensures { result ≡ at_most one.now other.now }
{
    for i in 0..one.len() {
        if i >= other.len() {
            return false;
        }
        if one[i] != other[i] {
            return one[i] < other[i];
        }
    }
    true
}

/// Whether the one comes before the other.
fn is_earlier(one: &Made, other: &Made) -> bool
    ensures { result ≡ is_earlier (made_at one.now) (made_at other.now) }
{
    let (length, own) = (one.encoded.bytes.len(), other.encoded.bytes.len());
    length < own
        || (length == own
            && (one.row < other.row
                || (one.row == other.row
                    && at_most(one.encoded.bytes.as_slice(), other.encoded.bytes.as_slice()))))
}

/// Whether the operand is a register.
fn is_register(slot: Slot, insn: &Insn, values: &Values) -> bool
    ensures { result ≡ is_register (seen_at insn.now values.now slot) }
{
    match slot {
        Slot::Register(_) => true,
        _ => false,
    }
}

/// Whether the operand is the accumulator.
fn is_accumulator(slot: Slot, insn: &Insn, values: &Values) -> bool
    ensures { result ≡ is_accumulator (seen_at insn.now values.now slot) }
{
    match slot {
        Slot::Register(reg) => reg.number == 0,
        _ => false,
    }
}

/// The first of what is made in either order.
fn made_either(name: Mnemonic, insn: &Insn, values: &Values) -> Option<Made>
    requires own { exchanges (named name (view_of insn.now values.now)) ≡ false }
    requires other { exchanges (turned (named name (view_of insn.now values.now))) ≡ true }
    ensures { MakesAs result (coding_of (named name (view_of insn.now values.now))) }
{
    let back = made_back(name, insn, values);
    match made_here(name, insn, values) {
        None => back,
        Some(one) => match back {
            None => Some(one),
            Some(two) => {
                if is_earlier(&one, &two) {
                    Some(one)
                } else {
                    Some(two)
                }
            }
        },
    }
}

/// What is made of the operands of `xchg`, which shows the accumulator first.
pub fn exchanged(name: Mnemonic, insn: &Insn, values: &Values) -> Option<Made>
    requires { (name.0 == XCHG) ≡ true }
    ensures { MakesAs result (coding_of (named name (view_of insn.now values.now))) }
{
    let own = is_register(insn.first, insn, values) && is_accumulator(insn.second, insn, values);
    let other = is_register(insn.second, insn, values) && is_accumulator(insn.first, insn, values);
    if own {
        if other {
            made_back(name, insn, values)
        } else {
            None
        }
    } else if other {
        made_either(name, insn, values)
    } else {
        made_here(name, insn, values)
    }
}

/// What is made of the instruction.
pub fn made_of(name: Mnemonic, insn: &Insn, values: &Values) -> Option<Made>
    ensures { MakesAs result (coding_of (named name (view_of insn.now values.now))) }
{
    if name.0 == XCHG {
        exchanged(name, insn, values)
    } else {
        made_here(name, insn, values)
    }
}
