//! The header of a line table.

ghost use Rattle.std.specs.Prelude.{◌≡◌, ◌+◌, ◌<◌, ◌≤◌, IfSome, length};
ghost use Rattle.std.specs.Option.{option_map};
ghost use Rattle.line_rows.specs.Header as spec;

use crate::ops::four_bytes;
use crate::rows::LineRow;
use crate::running::row_in_program;
use leb128::read_unsigned;

/// Version 5, addresses of 8 bytes, no segment selectors.
static VERSION: [u8; 4] = [0x05, 0x00, 0x08, 0x00];

/// What the machine is, how many operands the standard opcodes have, and what a directory entry is.
static MACHINE: [u8; 21] = [
    0x01, 0x01, 0x01, 0xfb, 0x0e, 0x0d, 0x00, 0x01, 0x01, 0x01, 0x01, 0x00, 0x00, 0x00, 0x01, 0x00,
    0x00, 0x01, 0x01, 0x01, 0x08,
];

/// What a file entry is.
static FILE: [u8; 5] = [0x02, 0x01, 0x08, 0x02, 0x0f];

/// Lengths from here on are reserved (DWARF 5, section 7.4).
const RESERVED_LENGTH: u32 = 0xfffffff0;

/// What follows these bytes.
fn behind<'a>(front: &[u8], bytes: &'a [u8]) -> Option<&'a [u8]>
    ensures value { option_map (λ r. r.now) result ≡ spec.behind front.now bytes.now }
    ensures shorter { IfSome result (λ r. length r.now ≤ length bytes.now) }
{
    if front.len() <= bytes.len() && &bytes[..front.len()] == front {
        Some(&bytes[front.len()..])
    } else {
        None
    }
}

/// What follows a path.
fn behind_path(bytes: &[u8]) -> Option<&[u8]>
    ensures value { option_map (λ r. r.now) result ≡ spec.behind_path bytes.now }
    ensures shorter { IfSome result (λ r. length r.now < length bytes.now) }
{
    for i in 0..bytes.len() {
        if bytes[i] == 0 {
            return Some(&bytes[i + 1..]);
        }
    }
    None
}

/// What follows a path and a directory's number.
fn behind_file(bytes: &[u8]) -> Option<&[u8]>
    ensures value { option_map (λ r. r.now) result ≡ spec.behind_file bytes.now }
    ensures shorter { IfSome result (λ r. length r.now < length bytes.now) }
{
    let rest = behind_path(bytes)?;
    let (_directory, rest) = read_unsigned(rest)?;
    Some(rest)
}

/// What follows so many paths.
#[tactic(auto, using(crate::proofs::HeaderLemmas::paths_on))]
fn behind_paths(count: u64, bytes: &[u8]) -> Option<&[u8]>
    ensures value { option_map (λ r. r.now) result ≡ spec.behind_paths count bytes.now }
    ensures shorter { IfSome result (λ r. length r.now ≤ length bytes.now) }
{
    let mut rest = bytes;
    for _i in 0..count {
        rest = behind_path(rest)?;
    }
    Some(rest)
}

/// What follows so many files.
#[tactic(auto, using(crate::proofs::HeaderLemmas::files_on))]
fn behind_files(count: u64, bytes: &[u8]) -> Option<&[u8]>
    ensures value { option_map (λ r. r.now) result ≡ spec.behind_files count bytes.now }
    ensures shorter { IfSome result (λ r. length r.now ≤ length bytes.now) }
{
    let mut rest = bytes;
    for _i in 0..count {
        rest = behind_file(rest)?;
    }
    Some(rest)
}

/// What follows all that the header's length counts.
#[tactic(auto, unfolding(crate::specs::Header::behind_entries))]
fn behind_entries(bytes: &[u8]) -> Option<&[u8]>
    ensures value { option_map (λ r. r.now) result ≡ spec.behind_entries bytes.now }
    ensures shorter { IfSome result (λ r. length r.now ≤ length bytes.now) }
{
    let rest = behind(&MACHINE, bytes)?;
    let (paths, rest) = read_unsigned(rest)?;
    let rest = behind_paths(paths, rest)?;
    let rest = behind(&FILE, rest)?;
    let (files, rest) = read_unsigned(rest)?;
    behind_files(files, rest)
}

/// The program behind a header of this length.
fn behind_header(size: u32, bytes: &[u8]) -> Option<&[u8]>
    ensures value { option_map (λ r. r.now) result ≡ spec.behind_header (size, bytes.now) }
    ensures shorter { IfSome result (λ r. length r.now ≤ length bytes.now) }
{
    let program = behind_entries(bytes)?;
    if bytes.len() - program.len() == size as usize {
        Some(program)
    } else {
        None
    }
}

/// The program of a table.
fn program(table: &[u8]) -> Option<&[u8]>
    ensures value { option_map (λ r. r.now) result ≡ spec.program_of table.now }
    ensures short { IfSome result (λ r. length r.now < 0xfffffff0) }
{
    let (size, rest) = four_bytes(table)?;
    if size as usize != rest.len() || size >= RESERVED_LENGTH {
        return None;
    }
    let rest = behind(&VERSION, rest)?;
    let (size, rest) = four_bytes(rest)?;
    behind_header(size, rest)
}

/// The last row at or before a place of a table's sequence, the place counted from its first address. None at the
/// sequence's end and past it, and where the bytes are no such table or have no such sequence.
pub fn line_at(table: &[u8], seq: u32, at: u64) -> Option<LineRow>
    ensures { result ≡ spec.line_at table.now seq at }
{
    let program = program(table)?;
    row_in_program(program, seq, at)
}
