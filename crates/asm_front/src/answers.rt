//! The options of the assembler, and its answers.

use asm_base::{Fault, Files, Notes, Pos, Text};
use elf_object::Object;
use source_ends::Counts;

/// Where the main source comes from.
#[derive(Drop)]
pub enum Main {
    /// The file of this name; the empty name is standard input.
    File(String),
    /// This text; messages show it as standard input.
    Given(Text),
}

/// The options of a command line.
#[derive(Drop)]
pub struct Options {
    /// Where the source comes from.
    pub source: Main,
    /// Frame tables are to be worked out of functions (`--scfi=experimental`).
    pub scfi: bool,
    /// Warnings are not to be made (`--no-warn`).
    pub no_warn: bool,
    /// A warning is to refuse the run at its end (`--fatal-warnings`).
    pub fatal_warnings: bool,
}

/// The options with the name of the source, which a text that is given has not.
#[derive(Drop)]
pub(crate) struct Asked {
    /// The name of the source file; the empty name is standard input.
    pub(crate) file: String,
    pub(crate) scfi: bool,
    pub(crate) no_warn: bool,
    pub(crate) fatal_warnings: bool,
}

/// An object, with the notes of its source, the names of its files, and what is counted of it.
#[derive(Drop)]
pub struct Assembled {
    pub notes: Notes,
    pub files: Files,
    pub object: Object,
    pub counts: Counts,
}

/// Why there is no object.
#[derive(Drop)]
pub enum AsmFault {
    /// The first fault of the source, its place, the notes before it, and the names of the files.
    Source(Fault, Pos, Notes, Files),
    /// The input failed. Its count of failures has risen.
    Read,
    /// Memory ran out.
    NoMemory,
}
