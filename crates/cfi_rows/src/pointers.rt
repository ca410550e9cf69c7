//! How pointers are written in frame tables (LSB 5.0, "DWARF Exception Header Encoding").

ghost use Rattle.std.specs.Prelude.{◌≡◌};
ghost use Rattle.cfi_rows.specs.Pointers as spec;

/// How a pointer is written: the format of its value, and what the value means. In the standard's words (`DW_EH_PE_`):
/// `absptr`, `udata4`, `sdata4` and `sdata8` are formats; a value that is `pcrel` is counted from its own place, and one
/// that is `indirect` leads to where the pointer is kept. `omit` (ff), no pointer at all, is none of these.
#[derive(Clone, Copy, PartialEq, Eq, Debug)]
pub enum PointerEncoding {
    /// 00, `absptr`: an address of eight bytes.
    Absolute8,
    /// 03, `udata4`: four bytes without a sign.
    Unsigned4,
    /// 0b, `sdata4`: four bytes with a sign.
    Signed4,
    /// 1b, `pcrel` and `sdata4`: four bytes with a sign, counted from its own place.
    Relative4,
    /// 9b, `indirect`, `pcrel` and `sdata4`: the same, to where the pointer is kept.
    Indirect4,
    /// 1c, `pcrel` and `sdata8`: eight bytes with a sign, counted from its own place.
    Relative8,
    /// 9c, `indirect`, `pcrel` and `sdata8`: the same, to where the pointer is kept.
    Indirect8,
}

impl PointerEncoding {
    /// The encoding that a number says. None where it is none of those that are taken: of ff (`omit`), too.
    #[tactic(auto, unfolding(crate::specs::Pointers::encoding_of))]
    pub fn of(number: u64) -> Option<PointerEncoding>
        ensures { result ≡ spec.encoding_of number }
    {
        match number {
            0x00 => Some(PointerEncoding::Absolute8),
            0x03 => Some(PointerEncoding::Unsigned4),
            0x0b => Some(PointerEncoding::Signed4),
            0x1b => Some(PointerEncoding::Relative4),
            0x9b => Some(PointerEncoding::Indirect4),
            0x1c => Some(PointerEncoding::Relative8),
            0x9c => Some(PointerEncoding::Indirect8),
            _ => None,
        }
    }

    /// The byte that says it.
    pub fn byte(self) -> u8
        ensures { result ≡ spec.encoding_byte self }
    {
        match self {
            PointerEncoding::Absolute8 => 0x00,
            PointerEncoding::Unsigned4 => 0x03,
            PointerEncoding::Signed4 => 0x0b,
            PointerEncoding::Relative4 => 0x1b,
            PointerEncoding::Indirect4 => 0x9b,
            PointerEncoding::Relative8 => 0x1c,
            PointerEncoding::Indirect8 => 0x9c,
        }
    }

    /// Whether the pointer has eight bytes, and else four.
    pub fn is_wide(self) -> bool
        ensures { result ≡ spec.is_wide self }
    {
        match self {
            PointerEncoding::Absolute8 | PointerEncoding::Relative8 | PointerEncoding::Indirect8 =>
                true,
            _ => false,
        }
    }

    /// Whether the pointer is counted from its own place.
    pub fn is_relative(self) -> bool
        ensures { result ≡ spec.is_relative self }
    {
        match self {
            PointerEncoding::Absolute8 | PointerEncoding::Unsigned4 | PointerEncoding::Signed4 => {
                false
            }
            _ => true,
        }
    }

    /// How many bytes the pointer has.
    pub fn size(self) -> u8
        ensures { result ≡ spec.pointer_size self }
    {
        if self.is_wide() { 8 } else { 4 }
    }
}

/// How many bytes a pointer has, where there is one.
pub fn size_if(encoding: Option<PointerEncoding>) -> usize
    ensures { result ≡ spec.size_if encoding }
{
    match encoding {
        None => 0,
        Some(encoding) => { if encoding.is_wide() { 8 } else { 4 } }
    }
}
