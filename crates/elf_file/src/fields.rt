//! The fields of ELF64 structures, low byte first (gABI, chapter 4, "Data Representation").

ghost use Rattle.std.specs.Prelude.{◌≡◌, ◌+◌, ◌≤◌, ◌++◌, drop, length};
ghost use Rattle.elf_file.specs.Fields as spec;

use byteorder::{ByteOrder, LittleEndian};

/// Writes an `Elf64_Half`: the low 2 bytes of the number.
#[tactic(auto, unfolding(crate::specs::Fields::half))]
pub(crate) fn put_half(out: &mut [u8], number: u64)
    requires { 2 ≤ length out.old }
    ensures { out.new ≡ spec.half number ++ drop 2 out.old }
{
    LittleEndian::write_u16(out, (number % 0x1_0000) as u16);
}

/// Writes an `Elf64_Word`: the low 4 bytes of the number.
#[tactic(auto, unfolding(crate::specs::Fields::word))]
pub(crate) fn put_word(out: &mut [u8], number: u64)
    requires { 4 ≤ length out.old }
    ensures { out.new ≡ spec.word number ++ drop 4 out.old }
{
    LittleEndian::write_u32(out, (number % 0x1_0000_0000) as u32);
}

/// Writes an `Elf64_Xword`.
#[tactic(auto, unfolding(crate::specs::Fields::xword))]
pub(crate) fn put_xword(out: &mut [u8], number: u64)
    requires { 8 ≤ length out.old }
    ensures { out.new ≡ spec.xword number ++ drop 8 out.old }
{
    LittleEndian::write_u64(out, number);
}

/// The `Elf64_Half` at this offset.
#[tactic(auto, unfolding(crate::specs::Fields::half_at))]
pub(crate) fn half_at(bytes: &[u8], offset: usize) -> u16
    requires { offset + 2 ≤ length bytes.now }
    ensures { result ≡ spec.half_at bytes.now offset }
{
    LittleEndian::read_u16(&bytes[offset..])
}

/// The `Elf64_Word` at this offset.
#[tactic(auto, unfolding(crate::specs::Fields::word_at))]
pub(crate) fn word_at(bytes: &[u8], offset: usize) -> u32
    requires { offset + 4 ≤ length bytes.now }
    ensures { result ≡ spec.word_at bytes.now offset }
{
    LittleEndian::read_u32(&bytes[offset..])
}

/// The `Elf64_Xword` at this offset.
#[tactic(auto, unfolding(crate::specs::Fields::xword_at))]
pub(crate) fn xword_at(bytes: &[u8], offset: usize) -> u64
    requires { offset + 8 ≤ length bytes.now }
    ensures { result ≡ spec.xword_at bytes.now offset }
{
    LittleEndian::read_u64(&bytes[offset..])
}
