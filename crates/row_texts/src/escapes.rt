//! The escapes of a joined line: `\n`, `\r`, `\t`, `\\`, `\xHH`, and `\(65535*a)` for so many times the byte `a`.

use crate::rows::RowFault;

/// The most bytes that one escape stands for: enough for a source above its limit of 2^26 bytes.
const MOST_REPEATED: usize = 1 << 27;

/// What was read of an escape.
#[derive(Clone, Copy)]
enum Escape {
    /// No escape is open.
    Closed,
    /// `\`
    Begun,
    /// `\x`
    Hexadecimal,
    /// `\x` and the first digit.
    Digit(u8),
    /// `\(` and the number so far.
    Count(usize),
    /// `\(` and the number with its `*`.
    Times(usize),
    /// All but the closing parenthesis.
    Byte(usize, u8),
}

/// The value of a hexadecimal digit.
fn digit_value(byte: u8) -> Result<u8, RowFault> {
    match byte {
        b'0'..=b'9' => Ok(byte - b'0'),
        b'a'..=b'f' => Ok(byte - b'a' + 10),
        b'A'..=b'F' => Ok(byte - b'A' + 10),
        _ => Err(RowFault::NotUnderstood),
    }
}

/// The byte that two hexadecimal digits write.
fn byte_of(high: u8, low: u8) -> Result<u8, RowFault> {
    Ok(digit_value(high)? << 4 | digit_value(low)?)
}

/// The number with one more decimal digit.
fn count_with(count: usize, digit: u8) -> Result<usize, RowFault> {
    match digit {
        b'0'..=b'9' if count <= MOST_REPEATED => Ok(count * 10 + usize::from(digit - b'0')),
        _ => Err(RowFault::NotUnderstood),
    }
}

/// What is open after the byte behind a backslash.
fn begin(byte: u8, bytes: &mut Vec<u8>) -> Result<Escape, RowFault> {
    let plain = match byte {
        b'n' => b'\n',
        b'r' => b'\r',
        b't' => b'\t',
        b'\\' => b'\\',
        b'x' => return Ok(Escape::Hexadecimal),
        b'(' => return Ok(Escape::Count(0)),
        _ => return Err(RowFault::NotUnderstood),
    };
    bytes.push(plain)?;
    Ok(Escape::Closed)
}

/// Appends so many times the byte.
fn repeat(count: usize, byte: u8, bytes: &mut Vec<u8>) -> Result<(), RowFault> {
    let Some(length) = bytes.len().checked_add(count) else {
        return Err(RowFault::NotUnderstood);
    };
    bytes.resize(length, byte)?;
    Ok(())
}

/// What is open after one more byte. What closes is appended.
fn step(open: Escape, byte: u8, bytes: &mut Vec<u8>) -> Result<Escape, RowFault> {
    match open {
        Escape::Closed if byte == b'\\' => Ok(Escape::Begun),
        Escape::Closed => {
            bytes.push(byte)?;
            Ok(Escape::Closed)
        }
        Escape::Begun => begin(byte, bytes),
        Escape::Hexadecimal => Ok(Escape::Digit(byte)),
        Escape::Digit(high) => {
            bytes.push(byte_of(high, byte)?)?;
            Ok(Escape::Closed)
        }
        Escape::Count(count) if byte == b'*' => Ok(Escape::Times(count)),
        Escape::Count(count) => Ok(Escape::Count(count_with(count, byte)?)),
        Escape::Times(count) => Ok(Escape::Byte(count, byte)),
        Escape::Byte(count, repeated) if byte == b')' => {
            repeat(count, repeated, bytes)?;
            Ok(Escape::Closed)
        }
        Escape::Byte(_, _) => Err(RowFault::NotUnderstood),
    }
}

/// Appends what the line stands for. An escape closes on its line.
pub fn append_unescaped(line: &[u8], bytes: &mut Vec<u8>) -> Result<(), RowFault> {
    let mut open = Escape::Closed;
    for byte in line {
        open = step(open, *byte, bytes)?;
    }
    match open {
        Escape::Closed => Ok(()),
        _ => Err(RowFault::NotUnderstood),
    }
}
