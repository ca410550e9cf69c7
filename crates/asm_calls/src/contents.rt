//! What items are known to be before they have addresses, and their bytes at a size.

use item_contents::{
    Align, Content, Fill, TakesBytes, asked_alignment, fixed_size, is_known_zeros, put_bytes,
};
use row_texts::{write_number, write_spaced_code, write_text};
use std::alloc::{AllocError, Global};
use std::io::{self, Write};

/// The bytes of items, one behind the other.
#[derive(Drop)]
struct Collected {
    bytes: Vec<u8>,
}

impl TakesBytes for Collected {
    type Out = Result<(), AllocError>;

    // The bytes are compared where they are written.
    ghost takes = { λ before bytes answer after. Unit {0} };

    fn pieces(&mut self, unit: &[u8], count: u64, rest: &[u8]) -> Result<(), AllocError> {
        for _ in 0..count {
            self.bytes.extend_from_slice(unit)?;
        }
        self.bytes.extend_from_slice(rest)
    }
}

/// The item's size, which is this one where it has no other, and its bytes; the size that it has at any address, its
/// alignment, and whether it is known to be zeros.
fn write_item(alloc: Global, content: &Content, size: u64, out: &mut Vec<u8>) -> io::Result<()> {
    let fixed = fixed_size(content);
    let size = fixed.unwrap_or(size);
    let mut collected = Collected {
        bytes: Vec::new(alloc),
    };
    put_bytes(content, size, 0, &mut collected)?;
    write_number(size, out)?;
    write_text(":", out)?;
    write_spaced_code(&collected.bytes, out)?;
    let alignment = asked_alignment(content);
    let zeros = is_known_zeros(content);
    writeln!(out, ", {fixed:?}, {alignment}, {zeros}")
}

/// `run`
pub fn write_run(alloc: Global, out: &mut Vec<u8>) -> io::Result<()> {
    write_item(alloc, &Content::Run, 0, out)
}

/// `fill COUNT SIZE VALUE`
pub fn write_fill(
    alloc: Global,
    count: u64,
    size: u64,
    value: u64,
    out: &mut Vec<u8>,
) -> io::Result<()> {
    write_item(
        alloc,
        &Content::Fill(Fill::new(count.min(1 << 30), size.min(8), value)),
        0,
        out,
    )
}

/// `align LOG SIZE`
pub fn write_align(alloc: Global, log: u8, size: u64, out: &mut Vec<u8>) -> io::Result<()> {
    write_item(
        alloc,
        &Content::Align(Align::zeros(log.min(30))),
        size.min(1 << 30),
        out,
    )
}
