//! The entries of symbol tables and of tables of relocations (gABI, chapter 4, "Symbol Table" and "Relocation").

ghost use Rattle.std.specs.Prelude.{◌≡◌};
ghost use Rattle.elf_file.specs.TableEntries as spec;

use crate::fields::{put_half, put_word, put_xword};
use crate::offsets::{
    R_ADDEND, R_OFFSET, R_SYM, R_TYPE, ST_INFO, ST_NAME, ST_OTHER, ST_SHNDX, ST_SIZE, ST_VALUE,
};

/// An entry of a symbol table (`Elf64_Sym`).
#[tactic(auto, unfolding(crate::specs::Fields::half, crate::specs::Fields::word, crate::specs::Fields::xword))]
pub fn elf_symbol(
    name: usize,
    info: u8,
    other: u8,
    section: usize,
    value: u64,
    size: u64,
) -> [u8; 24]
    ensures { result ≡ spec.elf_symbol name info other section value size }
{
    let mut entry = [0; 24];
    put_word(&mut entry[ST_NAME..], name as u64);
    entry[ST_INFO] = info;
    entry[ST_OTHER] = other;
    put_half(&mut entry[ST_SHNDX..], section as u64);
    put_xword(&mut entry[ST_VALUE..], value);
    put_xword(&mut entry[ST_SIZE..], size);
    entry
}

/// An entry of a table of relocations with addends (`Elf64_Rela`); `kind` and `symbol` are the halves of `r_info`.
#[tactic(auto, unfolding(crate::specs::Fields::word, crate::specs::Fields::xword))]
pub fn elf_relocation(offset: u64, kind: u32, symbol: usize, addend: u64) -> [u8; 24]
    ensures { result ≡ spec.elf_relocation offset kind symbol addend }
{
    let mut entry = [0; 24];
    put_xword(&mut entry[R_OFFSET..], offset);
    put_word(&mut entry[R_TYPE..], u64::from(kind));
    put_word(&mut entry[R_SYM..], symbol as u64);
    put_xword(&mut entry[R_ADDEND..], addend);
    entry
}
