//! Fields: values that are written over zeros of a section once they are known.

ghost use Rattle.std.specs.Prelude.{◌≡◌, replicate};
ghost use Rattle.asm_frags.specs.Fields.{width, fits, fits_signed, holds};

use crate::roles::FieldRole;
use asm_base::Pos;
use asm_expr::Linear;
use x86_insn::FieldKind;

/// The size of a field.
#[derive(Clone, Copy, PartialEq, Eq, Debug)]
pub enum FieldSize {
    /// 1 byte.
    One,
    /// 2 bytes.
    Two,
    /// 4 bytes.
    Four,
    /// 8 bytes.
    Eight,
}

impl FieldSize {
    /// The size in bytes.
    pub fn bytes(self) -> usize
        ensures { result ≡ width self }
    {
        match self {
            FieldSize::One => 1,
            FieldSize::Two => 2,
            FieldSize::Four => 4,
            FieldSize::Eight => 8,
        }
    }

    /// Whether the field holds the value, a number modulo 2^64, as a number with a sign or without.
    #[tactic(auto, unfolding(crate::specs::Fields::fits))]
    pub fn fits(self, value: u64) -> bool
        ensures { result ≡ fits self value }
    {
        match self {
            FieldSize::One => value < 1 << 8 || value >= u64::MAX - 0x7f,
            FieldSize::Two => value < 1 << 16 || value >= u64::MAX - 0x7fff,
            FieldSize::Four => value < 1 << 32 || value >= u64::MAX - 0x7fff_ffff,
            FieldSize::Eight => true,
        }
    }

    /// Whether the field holds the value, a number modulo 2^64, as a number with a sign.
    #[tactic(auto, unfolding(crate::specs::Fields::fits_signed))]
    fn fits_signed(self, value: u64) -> bool
        ensures { result ≡ fits_signed self value }
    {
        match self {
            FieldSize::One => value < 1 << 7 || value >= u64::MAX - 0x7f,
            FieldSize::Two => value < 1 << 15 || value >= u64::MAX - 0x7fff,
            FieldSize::Four => value < 1 << 31 || value >= u64::MAX - 0x7fff_ffff,
            FieldSize::Eight => true,
        }
    }

    /// Whether a field of this size and kind holds the value, a number modulo 2^64.
    pub fn holds(self, kind: FieldKind, value: u64) -> bool
        ensures { result ≡ holds kind self value }
    {
        match kind {
            FieldKind::Plain => self.fits(value),
            FieldKind::Signed | FieldKind::Address | FieldKind::Branch => self.fits_signed(value),
            FieldKind::Number => true,
        }
    }

    /// The bytes that stand at a field: zeros.
    pub(crate) fn blank(self) -> &'static [u8]
        ensures { result.now ≡ replicate (width self) 0 }
    {
        match self {
            FieldSize::One => &[0],
            FieldSize::Two => &[0, 0],
            FieldSize::Four => &[0, 0, 0, 0],
            FieldSize::Eight => &[0, 0, 0, 0, 0, 0, 0, 0],
        }
    }
}

/// A field over plain bytes of a section, or in the last bytes of an item.
#[derive(Drop)]
pub struct Field {
    /// The place of its statement.
    pub pos: Pos,
    /// How many items of the section stand before it.
    pub item: u32,
    /// The number of the section.
    pub section: u32,
    /// How many plain bytes of the section stand before it.
    pub offset: usize,
    pub size: FieldSize,
    /// How it holds its value.
    pub role: FieldRole,
    /// Whether it stands in the last bytes of the item before it, and over no plain bytes.
    pub in_item: bool,
    /// The form whose value it holds, less what its role counts from.
    pub form: Linear,
}
