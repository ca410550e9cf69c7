//! Names as the output shows them, and the words of the gABI and the psABI for numbers.

use std::alloc::{AllocError, Global};
use std::fmt::{self, Write};

/// A number by the word that stands for it, where there is one.
#[derive(Clone, Copy)]
pub struct Named {
    word: Option<&'static str>,
    number: u64,
}

impl Named {
    fn new(word: Option<&'static str>, number: u64) -> Named {
        Named { word, number }
    }
}

impl fmt::Display for Named {
    fn fmt<W: fmt::Write>(&self, f: &mut fmt::Formatter<W>) -> fmt::Result {
        match self.word {
            Some(word) => write!(f, "{word}"),
            None => {
                let number = self.number;
                write!(f, "{number}")
            }
        }
    }
}

/// A name in printable ASCII without blanks: another byte, or a backslash, is `\xHH`, and no name at all is `-`.
pub fn shown_name(alloc: Global, name: &[u8]) -> Result<String, AllocError> {
    let mut shown = String::new(alloc);
    for byte in name {
        match *byte {
            b'\\' => shown.push_str("\\x5c")?,
            b'!'..=b'~' => shown.push(char::from(*byte))?,
            _ => write!(shown, "\\x{byte:02x}")?,
        }
    }
    if shown.is_empty() {
        shown.push('-')?;
    }
    Ok(shown)
}

/// A section's type (gABI, figure 4-9).
pub fn section_type(kind: u32) -> Named {
    let word = match kind {
        0 => "null",
        1 => "progbits",
        2 => "symtab",
        3 => "strtab",
        4 => "rela",
        7 => "note",
        8 => "nobits",
        14 => "init_array",
        15 => "fini_array",
        16 => "preinit_array",
        17 => "group",
        _ => return Named::new(None, u64::from(kind)),
    };
    Named::new(Some(word), u64::from(kind))
}

/// The flags of a section that have a letter (gABI, figure 4-11), in the order in which the letters are shown.
static FLAG_LETTERS: [(u64, char); 8] = [
    (0x1, 'w'),
    (0x2, 'a'),
    (0x4, 'x'),
    (0x10, 'M'),
    (0x20, 'S'),
    (0x40, 'I'),
    (0x200, 'G'),
    (0x400, 'T'),
];

/// A section's flags by their letters. What is left over is a number.
pub fn section_flags(alloc: Global, flags: u64) -> Result<String, AllocError> {
    let mut shown = String::new(alloc);
    let mut left = flags;
    for (flag, letter) in &FLAG_LETTERS {
        if left & *flag != 0 {
            shown.push(*letter)?;
            left ^= *flag;
        }
    }
    if left != 0 {
        write!(shown, "+{left:#x}")?;
    }
    if shown.is_empty() {
        shown.push('-')?;
    }
    Ok(shown)
}

/// A symbol's type, in the low four bits of its info (gABI, figure 4-18).
pub fn symbol_type(info: u8) -> Named {
    let kind = info & 15;
    let word = match kind {
        0 => "notype",
        1 => "object",
        2 => "func",
        3 => "section",
        4 => "file",
        5 => "common",
        6 => "tls",
        _ => return Named::new(None, u64::from(kind)),
    };
    Named::new(Some(word), u64::from(kind))
}

/// A symbol's binding, in the high four bits of its info (gABI, figure 4-17).
pub fn symbol_binding(info: u8) -> Named {
    let binding = info >> 4;
    let word = match binding {
        0 => "local",
        1 => "global",
        2 => "weak",
        _ => return Named::new(None, u64::from(binding)),
    };
    Named::new(Some(word), u64::from(binding))
}

/// A symbol's visibility, in the low two bits of its other (gABI, figure 4-20).
pub fn symbol_visibility(other: u8) -> Named {
    let word = match other {
        0 => "default",
        1 => "internal",
        2 => "hidden",
        3 => "protected",
        _ => return Named::new(None, u64::from(other)),
    };
    Named::new(Some(word), u64::from(other))
}

/// The relocation types by number (psABI for AMD64, table 4.9). The empty ones are reserved.
static RELOCATION_TYPES: [&str; 43] = [
    "R_X86_64_NONE",
    "R_X86_64_64",
    "R_X86_64_PC32",
    "R_X86_64_GOT32",
    "R_X86_64_PLT32",
    "R_X86_64_COPY",
    "R_X86_64_GLOB_DAT",
    "R_X86_64_JUMP_SLOT",
    "R_X86_64_RELATIVE",
    "R_X86_64_GOTPCREL",
    "R_X86_64_32",
    "R_X86_64_32S",
    "R_X86_64_16",
    "R_X86_64_PC16",
    "R_X86_64_8",
    "R_X86_64_PC8",
    "R_X86_64_DTPMOD64",
    "R_X86_64_DTPOFF64",
    "R_X86_64_TPOFF64",
    "R_X86_64_TLSGD",
    "R_X86_64_TLSLD",
    "R_X86_64_DTPOFF32",
    "R_X86_64_GOTTPOFF",
    "R_X86_64_TPOFF32",
    "R_X86_64_PC64",
    "R_X86_64_GOTOFF64",
    "R_X86_64_GOTPC32",
    "R_X86_64_GOT64",
    "R_X86_64_GOTPCREL64",
    "R_X86_64_GOTPC64",
    "R_X86_64_GOTPLT64",
    "R_X86_64_PLTOFF64",
    "R_X86_64_SIZE32",
    "R_X86_64_SIZE64",
    "R_X86_64_GOTPC32_TLSDESC",
    "R_X86_64_TLSDESC_CALL",
    "R_X86_64_TLSDESC",
    "R_X86_64_IRELATIVE",
    "R_X86_64_RELATIVE64",
    "",
    "",
    "R_X86_64_GOTPCRELX",
    "R_X86_64_REX_GOTPCRELX",
];

/// A relocation's type.
pub fn relocation_type(kind: u32) -> Named {
    let word = match RELOCATION_TYPES.get(kind as usize) {
        Some(word) if !word.is_empty() => Some(*word),
        _ => None,
    };
    Named::new(word, u64::from(kind))
}
