//! From rows to bytes.

ghost use Rattle.std.specs.Prelude.{◌≡◌, ◌+◌, ◌^◌, ◌<◌, ◌≤◌, ◌++◌, ◌∷◌, [], not, is_ok};
ghost use Rattle.arrayvec.specs.ArrayVec.{array_vec_len};
ghost use Rattle.leb128.specs.Digits.{uleb_bytes};
ghost use Rattle.line_rows.specs.Writing as spec;
ghost use Rattle.line_rows.specs.Writing.{Appends};

use crate::rows::{LineRow, Registers, RowBytes};
use leb128::{push_signed, push_unsigned};
use std::alloc::AllocError;

impl LineRow {
    ghost use Rattle.std.specs.Prelude.{◌≡◌};
    ghost use Rattle.line_rows.specs.Writing as spec;

    /// The registers that stay behind the row.
    pub fn registers(&self) -> Registers
        ensures { result ≡ spec.registers_of self.now }
    {
        Registers {
            file: self.file,
            line: self.line,
            column: self.column,
            is_stmt: self.is_stmt,
            isa: self.isa,
        }
    }
}

/// Appends a code and a number.
fn push_operand(out: &mut RowBytes, code: u8, number: u32)
    requires { array_vec_len out.old ≤ 69 }
    ensures value { out.new.items ≡ out.old.items ++ code ∷ uleb_bytes number }
    ensures few { array_vec_len out.new ≤ array_vec_len out.old + 11 }
{
    out.push(code);
    push_unsigned(out, number as u64);
}

/// Appends a discriminator.
fn push_discriminator(out: &mut RowBytes, number: u32)
    requires { array_vec_len out.old ≤ 64 }
    ensures value { out.new.items ≡ out.old.items ++ spec.discriminator_bytes number }
    ensures few { array_vec_len out.new ≤ array_vec_len out.old + 13 }
{
    let mut digits = RowBytes::new();
    push_unsigned(&mut digits, number as u64);
    out.push(0x00);
    out.push((digits.len() + 1) as u8);
    out.push(0x04);
    push_unsigned(out, number as u64);
}

/// Appends a discriminator that is not 0.
fn push_given_discriminator(out: &mut RowBytes, number: u32)
    requires { array_vec_len out.old ≤ 64 }
    ensures value { out.new.items ≡ out.old.items ++ spec.given_discriminator number }
    ensures few { array_vec_len out.new ≤ array_vec_len out.old + 13 }
{
    if number != 0 {
        push_discriminator(out, number);
    }
}

/// Appends a register's new value where it differs.
fn push_changed(out: &mut RowBytes, code: u8, before: u32, now: u32)
    requires { array_vec_len out.old ≤ 69 }
    ensures value { out.new.items ≡ out.old.items ++ spec.changed_bytes code before now }
    ensures few { array_vec_len out.new ≤ array_vec_len out.old + 11 }
{
    if before != now {
        push_operand(out, code, now);
    }
}

/// Appends a code where it is asked for.
fn push_mark(out: &mut RowBytes, code: u8, is_set: bool)
    requires { array_vec_len out.old ≤ 69 }
    ensures value { out.new.items ≡ out.old.items ++ spec.unless (not is_set) (code ∷ []) }
    ensures few { array_vec_len out.new ≤ array_vec_len out.old + 1 }
{
    if is_set {
        out.push(code);
    }
}

/// Appends a line's step where there is one.
fn push_line(out: &mut RowBytes, before: u32, now: u32)
    requires { array_vec_len out.old ≤ 69 }
    ensures value { out.new.items ≡ out.old.items ++ spec.line_bytes before now }
    ensures few { array_vec_len out.new ≤ array_vec_len out.old + 11 }
{
    if before != now {
        out.push(0x03);
        push_signed(out, now as i64 - before as i64);
    }
}

/// Appends a row's operations up to its advance, to an empty buffer.
#[tactic(auto, unfolding(crate::specs::Writing::row_bytes))]
pub fn push_row(out: &mut RowBytes, before: &Registers, row: &LineRow)
    requires { out.old.items ≡ [] }
    ensures value { out.new.items ≡ spec.row_bytes before.now row.now }
    ensures few { array_vec_len out.new ≤ 61 }
{
    push_changed(out, 0x04, before.file, row.file);
    push_changed(out, 0x05, before.column, row.column);
    push_given_discriminator(out, row.discriminator);
    push_changed(out, 0x0c, before.isa, row.isa);
    push_mark(out, 0x06, before.is_stmt != row.is_stmt);
    push_mark(out, 0x07, row.basic_block);
    push_mark(out, 0x0a, row.prologue_end);
    push_mark(out, 0x0b, row.epilogue_begin);
    push_line(out, before.line, row.line);
}

/// Appends a row's operations up to its advance.
pub fn row_bytes(out: &mut Vec<u8>, before: &Registers, row: &LineRow) -> Result<(), AllocError>
    ensures { Appends (is_ok result) (spec.row_bytes before.now row.now) out.old.items out.new.items }
{
    let mut bytes = RowBytes::new();
    push_row(&mut bytes, before, row);
    out.extend_from_slice(&bytes)
}

/// Appends a row whose distance from the one before it is known.
pub fn known_row_bytes(
    out: &mut Vec<u8>,
    before: &Registers,
    row: &LineRow,
    distance: u64,
) -> Result<(), AllocError>
    ensures { Appends (is_ok result) (spec.known_row_bytes before.now row.now distance)
        out.old.items out.new.items }
{
    let mut bytes = RowBytes::new();
    push_row(&mut bytes, before, row);
    bytes.push(0x02);
    push_unsigned(&mut bytes, distance);
    bytes.push(0x01);
    out.extend_from_slice(&bytes)
}
