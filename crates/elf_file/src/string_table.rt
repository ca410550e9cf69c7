//! String tables (gABI, chapter 4, "String Table").

ghost use Rattle.std.specs.Prelude.{◌≡◌, ◌++◌, length, IfOk, OnOk};
ghost use Rattle.elf_file.specs.StringTable.{ended_name, name_offset_after};

use std::alloc::AllocError;

/// Appends the name to the table, and answers where it stands, in bytes. The empty name takes none.
pub fn put_name(bytes: &mut Vec<u8>, name: &[u8]) -> Result<usize, AllocError>
    ensures bytes { OnOk result (bytes.new.items ≡ bytes.old.items ++ ended_name name.now) }
    ensures offset { IfOk result (λ n. n ≡ name_offset_after (length bytes.old.items) name.now) }
{
    if name.is_empty() {
        return Ok(0);
    }
    let offset = bytes.len();
    bytes.extend_from_slice(name)?;
    bytes.push(0)?;
    Ok(offset)
}

/// The same for a name in two parts.
pub(crate) fn put_joined(
    bytes: &mut Vec<u8>,
    prefix: &[u8],
    name: &[u8],
) -> Result<usize, AllocError>
    ensures bytes { OnOk result (bytes.new.items
        ≡ bytes.old.items ++ ended_name (prefix.now ++ name.now)) }
    ensures offset { IfOk result (λ n. n
        ≡ name_offset_after (length bytes.old.items) (prefix.now ++ name.now)) }
{
    if prefix.is_empty() {
        return put_name(bytes, name);
    }
    let offset = bytes.len();
    bytes.extend_from_slice(prefix)?;
    bytes.extend_from_slice(name)?;
    bytes.push(0)?;
    Ok(offset)
}
