//! The entries of an `.eh_frame` section.

ghost use Rattle.std.specs.Prelude.{◌≡◌, ◌<◌, IfSome, length};
ghost use Rattle.std.specs.Option.{option_map};
ghost use Rattle.cfi_entries.specs.Entries as spec;

use crate::running::row_in_force;
use cfi_rows::{CfaRow, CommonForm, blank_row, common, four_bytes, size_if};

/// Lengths from here on are reserved (DWARF 5, section 7.4).
const RESERVED_LENGTH: u32 = 0xfffffff0;

/// The range, and the instructions behind the augmentation data.
fn covered(form: CommonForm, range: u32, bytes: &[u8]) -> Option<(u32, &[u8])>
    ensures value { option_map (λ r. (r.0, r.1.now)) result ≡ spec.covered form (range, bytes.now) }
    ensures short { IfSome result (λ r. length r.1.now < length bytes.now) }
{
    let (size, rest) = bytes.split_first()?;
    let size = *size as usize;
    if size == size_if(form.lsda) && size <= rest.len() {
        Some((range, &rest[size..]))
    } else {
        None
    }
}

/// The range and the instructions of a frame description entry, by the form of its common entry.
fn entry(form: CommonForm, fde: &[u8]) -> Option<(u32, &[u8])>
    ensures value { option_map (λ r. (r.0, r.1.now)) result ≡ spec.entry_of form fde.now }
    ensures short { IfSome result (λ r. length r.1.now < 0xfffffff0) }
{
    let (count, rest) = four_bytes(fde)?;
    if count as usize != rest.len() || count >= RESERVED_LENGTH {
        return None;
    }
    let (back, rest) = four_bytes(rest)?;
    if back == 0 {
        return None;
    }
    let (_start, rest) = four_bytes(rest)?;
    let (range, rest) = four_bytes(rest)?;
    covered(form, range, rest)
}

/// The row in force `at` so many bytes from the start of what the frame description entry covers (DWARF 5, section
/// 6.4.3). None where `at` is not below its range, or where the bytes are not a common entry and such an entry whole.
pub fn row_at(cie: &[u8], fde: &[u8], at: u64) -> Option<CfaRow>
    ensures { result ≡ spec.row_of cie.now fde.now at }
{
    let (form, code) = common(cie)?;
    let initial = row_in_force(&blank_row(), 0, code)?;
    let (range, code) = entry(form, fde)?;
    if at < range as u64 {
        row_in_force(&initial, at, code)
    } else {
        None
    }
}
