//! The texts of the parts of an expression.

ghost use Rattle.std.specs.Prelude.{◌≡◌, ◌<◌, ◌++◌, flat_map, IfOk};
ghost use Rattle.std.specs.List.{list_all};
ghost use Rattle.asm_base.specs.ByteClasses.{is_name_byte};
ghost use Rattle.std.specs.Fmt.{decimal};
ghost use Rattle.expr_texts.specs.Shown.{is_word, stands_for_itself, escape, quoted, written_text, prefix_text, operator_text};

use asm_base::{is_name_byte, is_name_start};
use asm_expr::{BinaryOp, UnaryOp, Written};
use std::alloc::{AllocError, Global};

/// Whether all of them go on with a name.
fn are_name_bytes(bytes: &[u8]) -> bool
    ensures { result ≡ list_all is_name_byte bytes.now }
{
    bytes.iter().all(|byte| is_name_byte(*byte))
}

/// Whether the name is a word of its own, and not the place.
fn is_word(name: &[u8]) -> bool
    ensures { result ≡ is_word name.now }
{
    match name.split_first() {
        Some((first, rest)) => {
            is_name_start(*first) && are_name_bytes(rest) && name != b".".as_slice()
        }
        None => false,
    }
}

/// Whether the byte stands for itself between quotes.
fn stands_for_itself(byte: u8) -> bool
    ensures { result ≡ stands_for_itself byte }
{
    32 <= byte && byte <= 126 && byte != b'"' && byte != b'\\'
}

/// Appends a byte of a string: itself, or three octal digits behind a backslash.
fn put_escape(text: &mut Vec<u8>, byte: u8) -> Result<(), AllocError>
    ensures { IfOk result (λ _. text.new.items ≡ text.old.items ++ escape byte) }
{
    if stands_for_itself(byte) {
        text.extend_from_slice([byte].as_slice())
    } else {
        text.extend_from_slice([
            b'\\',
            b'0' + byte / 8 / 8,
            b'0' + byte / 8 % 8,
            b'0' + byte % 8,
        ]
        .as_slice())
    }
}

/// The name in quotes.
fn quoted(alloc: Global, name: &[u8]) -> Result<Vec<u8>, AllocError>
    ensures { IfOk result (λ text. text.items ≡ quoted name.now) }
{
    let mut text = Vec::from_slice(alloc, b"\"".as_slice())?;
    for byte in name {
        put_escape(&mut text, *byte)?;
    }
    text.extend_from_slice(b"\"".as_slice())?;
    Ok(text)
}

/// The number in decimal digits.
pub(crate) fn decimal(alloc: Global, number: u64) -> Result<Vec<u8>, AllocError>
    ensures { IfOk result (λ text. text.items ≡ decimal number) }
{
    let digits = format!(in alloc; "{number}")?;
    Vec::from_slice(alloc, digits.as_bytes())
}

/// The name as it is written.
pub(crate) fn written_text(alloc: Global, written: &Written) -> Result<Vec<u8>, AllocError>
    ensures { IfOk result (λ text. text.items ≡ written_text written.now) }
{
    match written {
        Written::Plain(name) => {
            if is_word(name.as_bytes()) {
                Vec::from_slice(alloc, name.as_bytes())
            } else {
                quoted(alloc, name.as_bytes())
            }
        }
        Written::Back(number) => {
            let mut text = decimal(alloc, *number)?;
            text.extend_from_slice(b"b".as_slice())?;
            Ok(text)
        }
        Written::Next(number) => {
            let mut text = decimal(alloc, *number)?;
            text.extend_from_slice(b"f".as_slice())?;
            Ok(text)
        }
    }
}

/// A prefix operator.
pub(crate) fn prefix_text(op: UnaryOp) -> &'static [u8]
    ensures { result.now ≡ prefix_text op }
{
    match op {
        UnaryOp::Minus => b"-",
        UnaryOp::Complement => b"~",
    }
}

/// An operator with blanks round it.
#[tactic(auto, unfolding(crate::specs::Shown::operator_text))]
pub(crate) fn operator_text(op: BinaryOp) -> &'static [u8]
    ensures { result.now ≡ operator_text op }
{
    match op {
        BinaryOp::Mul => b" * ",
        BinaryOp::Div => b" / ",
        BinaryOp::Rem => b" % ",
        BinaryOp::Shl => b" << ",
        BinaryOp::Shr => b" >> ",
        BinaryOp::Or => b" | ",
        BinaryOp::And => b" & ",
        BinaryOp::Xor => b" ^ ",
        BinaryOp::OrNot => b" ! ",
        BinaryOp::Add => b" + ",
        BinaryOp::Sub => b" - ",
        BinaryOp::Eq => b" == ",
        BinaryOp::Ne => b" != ",
        BinaryOp::Lt => b" < ",
        BinaryOp::Gt => b" > ",
        BinaryOp::Le => b" <= ",
        BinaryOp::Ge => b" >= ",
        BinaryOp::BothTrue => b" && ",
        BinaryOp::OneTrue => b" || ",
    }
}
