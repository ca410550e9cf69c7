//! What the bytes between the quotes of a string stand for (GNU as manual, "Strings").

ghost use Rattle.std.specs.Prelude.{◌≡◌, ◌≤◌, length, IfOk};
ghost use Rattle.std.specs.List.{prefix_len};
ghost use Rattle.asm_base.specs.Digits.{is_digit_of};
ghost use Rattle.asm_base.specs.Strings.{octal_length, hexadecimal_length, low_byte, control_byte, escape_length, escaped_byte, string_value};

use crate::digits::digit_of;
use std::alloc::{AllocError, Global};

/// The most digits of an octal escape.
const MOST_OCTAL_DIGITS: usize = 3;

/// Whether the radix has this digit.
fn is_digit_of(radix: u64, byte: u8) -> bool
    ensures { result ≡ is_digit_of radix byte }
{
    digit_of(byte) < radix
}

/// How many digits of the radix the bytes begin with.
fn digit_count(radix: u64, bytes: &[u8]) -> usize
    ensures value { result ≡ prefix_len (is_digit_of radix) bytes.now }
    ensures within { result ≤ length bytes.now }
{
    bytes
        .iter()
        .take_while(|byte| is_digit_of(radix, **byte))
        .count()
}

/// The low 8 bits of the number that the digits spell.
#[tactic(auto, using(crate::proofs::StringLemmas::low_byte_step, crate::proofs::StringLemmas::low_byte_done), unfolding(crate::specs::Strings::low_byte))]
fn low_byte(radix: u64, digits: &[u8]) -> u8
    requires { radix ≤ 16 }
    ensures { result ≡ low_byte radix digits.now }
{
    let mut low: u64 = 0;
    for digit in digits {
        low = (low * radix + digit_of(*digit)) % 256;
    }
    low as u8
}

/// `\b`, `\f`, `\n`, `\r` and `\t`; any other byte stands for itself.
#[tactic(auto, unfolding(crate::specs::Strings::control_byte))]
fn control_byte(byte: u8) -> u8
    ensures { result ≡ control_byte byte }
{
    match byte {
        b'b' => 8,
        b'f' => 12,
        b'n' => b'\n',
        b'r' => b'\r',
        b't' => b'\t',
        other => other,
    }
}

/// What a backslash stands for, by what follows it.
#[derive(Clone, Copy)]
struct Escape {
    byte: u8,
    /// How many bytes behind the backslash belong to it.
    length: usize,
}

/// What the backslash before these bytes stands for.
#[tactic(auto, unfolding(crate::specs::Strings::escape_length, crate::specs::Strings::escaped_byte))]
fn read_escape(bytes: &[u8]) -> Escape
    ensures byte { result.byte ≡ escaped_byte bytes.now }
    ensures length { result.length ≡ escape_length bytes.now }
    ensures within { result.length ≤ length bytes.now }
{
    let Some((first, rest)) = bytes.split_first() else {
        return Escape {
            byte: b'\\',
            length: 0,
        };
    };
    if is_digit_of(8, *first) {
        let length = digit_count(8, bytes).min(MOST_OCTAL_DIGITS);
        let byte = low_byte(8, &bytes[..length]);
        Escape { byte, length }
    } else if *first == b'x' {
        let digits = digit_count(16, rest);
        let byte = low_byte(16, &rest[..digits]);
        Escape {
            byte,
            length: 1 + digits,
        }
    } else {
        Escape {
            byte: control_byte(*first),
            length: 1,
        }
    }
}

/// What the bytes between the quotes of a string stand for: a backslash stands for a byte with what follows it.
pub fn string_value(alloc: Global, inner: &[u8]) -> Result<Vec<u8>, AllocError>
    ensures { IfOk result (λ bytes. bytes.items ≡ string_value inner.now) }
{
    let mut bytes = Vec::with_capacity(alloc, inner.len())?;
    let mut at = 0;
    while let Some((first, rest)) = inner[at..].split_first() {
        if *first == b'\\' {
            let escape = read_escape(rest);
            bytes.push(escape.byte)?;
            at += 1 + escape.length;
        } else {
            bytes.push(*first)?;
            at += 1;
        }
    }
    Ok(bytes)
}
