//! The bytes of entries (psABI, section 4.2.4).

use std::alloc::Global;

/// The common entry.
pub static COMMON: [u8; 24] = [
    0x14, 0x00, 0x00, 0x00, 0x00, 0x00, 0x00, 0x00, 0x01, 0x7a, 0x52, 0x00, 0x01, 0x78, 0x10, 0x01,
    0x1b, 0x0c, 0x07, 0x08, 0x90, 0x01, 0x00, 0x00,
];

/// What stands between the length and the instructions: three words, and the length of no augmentation data.
const FIELDS: usize = 13;

/// A frame description entry behind the common one, where a word holds its length.
pub fn entry_bytes(alloc: Global, code: &[u8], range: u32) -> Option<Vec<u8>> {
    let length = u32::try_from(code.len().saturating_add(FIELDS)).ok()?;
    let mut bytes = Vec::new(alloc);
    bytes.extend_from_slice(&length.to_le_bytes()).ok()?;
    bytes.extend_from_slice(&28u32.to_le_bytes()).ok()?;
    bytes.extend_from_slice(&0u32.to_le_bytes()).ok()?;
    bytes.extend_from_slice(&range.to_le_bytes()).ok()?;
    bytes.push(0).ok()?;
    bytes.extend_from_slice(code).ok()?;
    Some(bytes)
}
