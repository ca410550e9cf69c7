//! The flags and types of sections (gABI, chapter 4, `sh_flags` and `sh_type`).

ghost use Rattle.std.specs.Prelude.{⊤, [], ◌∷◌, codes};

use bitflags::{Flag, Flags, bitflag_items};

/// `sh_type` of bytes that the program defines.
pub const SHT_PROGBITS: u32 = 1;

/// `sh_type` of notes.
pub const SHT_NOTE: u32 = 7;

/// `sh_type` of space that takes no bytes in the file.
pub const SHT_NOBITS: u32 = 8;

/// `sh_type` of pointers to functions that run before `main`.
pub const SHT_INIT_ARRAY: u32 = 14;

/// `sh_type` of pointers to functions that run at the end.
pub const SHT_FINI_ARRAY: u32 = 15;

/// `sh_type` of pointers to functions that run before all others.
pub const SHT_PREINIT_ARRAY: u32 = 16;

/// A set of flags.
#[derive(Clone, Copy, PartialEq, Eq, Debug)]
pub struct SectionFlags(u64);

bitflag_items! {
    impl SectionFlags: u64 {
        const WRITE = 1;
        const ALLOC = 2;
        const EXECINSTR = 4;
        const MERGE = 0x10;
        const STRINGS = 0x20;
        const GROUP = 0x200;
        const TLS = 0x400;
    }
}

impl Flags for SectionFlags {
    type Bits = u64;

    ghost exact = { ⊤ };

    ghost table = { (codes "WRITE", 1) ∷ (codes "ALLOC", 2) ∷ (codes "EXECINSTR", 4)
        ∷ (codes "MERGE", 16) ∷ (codes "STRINGS", 32) ∷ (codes "GROUP", 512)
        ∷ (codes "TLS", 1024) ∷ [] };

    ghost set_of = { λ flags. flags.0 };

    fn flags<'a>() -> &'a [Flag<SectionFlags>] {
        SectionFlags::FLAGS
    }

    fn bits(&self) -> u64 {
        self.0
    }

    fn from_bits_retain(bits: u64) -> SectionFlags {
        SectionFlags(bits)
    }
}
