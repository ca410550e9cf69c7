//! The sizes of ELF64 structures and the offsets of their fields, in bytes (gABI, chapter 4).

/// `sizeof(Elf64_Ehdr)`
pub(crate) const EHDR_SIZE: usize = 64;

pub(crate) const E_TYPE: usize = 16;

pub(crate) const E_MACHINE: usize = 18;

pub(crate) const E_VERSION: usize = 20;

pub(crate) const E_SHOFF: usize = 40;

pub(crate) const E_EHSIZE: usize = 52;

pub(crate) const E_SHENTSIZE: usize = 58;

pub(crate) const E_SHNUM: usize = 60;

pub(crate) const E_SHSTRNDX: usize = 62;

/// `sizeof(Elf64_Shdr)`
pub(crate) const SHDR_SIZE: usize = 64;

pub(crate) const SH_NAME: usize = 0;

pub(crate) const SH_TYPE: usize = 4;

pub(crate) const SH_FLAGS: usize = 8;

pub(crate) const SH_ADDR: usize = 16;

pub(crate) const SH_OFFSET: usize = 24;

pub(crate) const SH_SIZE: usize = 32;

pub(crate) const SH_LINK: usize = 40;

pub(crate) const SH_INFO: usize = 44;

pub(crate) const SH_ADDRALIGN: usize = 48;

pub(crate) const SH_ENTSIZE: usize = 56;

/// `sizeof(Elf64_Sym)`
pub const SYM_SIZE: usize = 24;

pub(crate) const ST_NAME: usize = 0;

pub(crate) const ST_INFO: usize = 4;

pub(crate) const ST_OTHER: usize = 5;

pub(crate) const ST_SHNDX: usize = 6;

pub(crate) const ST_VALUE: usize = 8;

pub(crate) const ST_SIZE: usize = 16;

/// `sizeof(Elf64_Rela)`
pub const RELA_SIZE: usize = 24;

pub(crate) const R_OFFSET: usize = 0;
/// The low half of `r_info`: `ELF64_R_TYPE`.
pub(crate) const R_TYPE: usize = 8;
/// The high half of `r_info`: `ELF64_R_SYM`.
pub(crate) const R_SYM: usize = 12;

pub(crate) const R_ADDEND: usize = 16;
