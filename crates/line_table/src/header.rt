//! The header of a line table (DWARF 5, section 6.2.4).

ghost use Rattle.std.specs.Prelude.{◌≡◌, ◌++◌, ℕ, List, map, OnOk, IfOk, IfErr};
ghost use Rattle.std.specs.List.{filter};
ghost use Rattle.asm_base.specs.declared.refusals.Refusal.TheVariants.{NoMemory};
ghost use Rattle.line_rows.specs.Tables.{paths_then};
ghost use Rattle.line_rows.specs.Writing.{word_then};
ghost use Rattle.line_table.specs.Header as spec;

use crate::directories::{count_others, first_directory, is_other};
use crate::files::{least_or, push_files, push_number, push_path};
use asm_base::Bytes;
use asm_frags::FragFault;
use line_directives::{SourceFile, SourceFiles};
use std::alloc::{AllocError, Global};

/// Version 5, addresses of 8 bytes, no segment selectors.
static VERSION: [u8; 4] = [0x05, 0x00, 0x08, 0x00];

/// What the machine is, how many operands the standard opcodes have, and what a directory entry is: see `specs/Header.antt`
/// of `line_rows`.
static MACHINE: [u8; 21] = [
    0x01, 0x01, 0x01, 0xfb, 0x0e, 0x0d, 0x00, 0x01, 0x01, 0x01, 0x01, 0x00, 0x00, 0x00, 0x01, 0x00,
    0x00, 0x01, 0x01, 0x01, 0x08,
];

/// What a file entry is.
static FILE: [u8; 5] = [0x02, 0x01, 0x08, 0x02, 0x0f];

/// A number in four bytes, the lowest first.
fn word(number: u32) -> [u8; 4]
    ensures { (rest : List ℕ) → result ++ rest ≡ word_then number rest }
{
    [
        (number % 256) as u8,
        (number / 256 % 256) as u8,
        (number / 65536 % 256) as u8,
        (number / 16777216) as u8,
    ]
}

/// Puts the directories that are not directory 0 behind bytes.
fn push_others(bytes: &mut Vec<u8>, first: &[u8], directories: &[Bytes]) -> Result<(), AllocError>
    ensures { (rest : List ℕ) → OnOk result (bytes.new.items ++ rest
        ≡ bytes.old.items ++ paths_then (filter (spec.is_other first.now) directories.now) rest) }
{
    for directory in directories {
        if is_other(first, directory.as_slice()) {
            push_path(bytes, directory.as_slice())?;
        }
    }
    Ok(())
}

/// The beginning of what the header's length counts: what the machine is, and the directories.
fn directory_entries(alloc: Global, files: &SourceFiles) -> Result<Vec<u8>, AllocError>
    ensures { (rest : List ℕ) → IfOk result (λ bytes. bytes.items ++ rest
        ≡ spec.directories_then files.now rest) }
{
    let first = first_directory(files);
    let others = count_others(first, files.directories());
    let mut bytes = Vec::from_slice(alloc, &MACHINE)?;
    push_number(&mut bytes, 1 + others as u64)?;
    push_path(&mut bytes, first)?;
    push_others(&mut bytes, first, files.directories())?;
    Ok(bytes)
}

/// Puts what a file entry is, and the files, behind bytes. A number that is not given repeats this file.
fn push_numbered(
    bytes: &mut Vec<u8>,
    files: &SourceFiles,
    least: &SourceFile,
) -> Result<(), AllocError>
    ensures { OnOk result (bytes.new.items ≡ bytes.old.items
        ++ spec.file_entries (map (spec.entry_or files.now least.now) files.now.by_number)) }
{
    bytes.extend_from_slice(&FILE)?;
    push_number(bytes, files.by_number().len() as u64)?;
    push_files(bytes, files, least)
}

/// A file without a name, in no directory.
fn nameless(alloc: Global) -> SourceFile
    ensures { result ≡ spec.nameless }
{
    SourceFile {
        directory: None,
        name: Bytes::new(Vec::new(alloc)),
    }
}

/// All that the header's length counts.
#[tactic(auto, unfolding(line_rows::specs::Tables::entries_then))]
fn entries(alloc: Global, files: &SourceFiles) -> Result<Vec<u8>, AllocError>
    ensures { IfOk result (λ bytes. bytes.items ≡ spec.header_entries files.now) }
{
    let mut bytes = directory_entries(alloc, files)?;
    let nameless = nameless(alloc);
    push_numbered(&mut bytes, files, least_or(files.by_number(), &nameless))?;
    Ok(bytes)
}

/// The header behind the unit's length. One of 2^32 bytes or more is refused as want of memory.
pub(crate) fn header(alloc: Global, files: &SourceFiles) -> Result<Vec<u8>, FragFault>
    ensures bytes { IfOk result (λ bytes. bytes.items ≡ spec.header_bytes files.now) }
    ensures memory { IfErr result (λ fault. fault ≡ NoMemory) }
{
    let entries = entries(alloc, files)?;
    let Ok(size) = u32::try_from(entries.len()) else {
        return Err(FragFault::NoMemory);
    };
    let mut bytes = Vec::from_slice(alloc, &VERSION)?;
    bytes.extend_from_slice(&word(size))?;
    bytes.extend_from_slice(entries.as_slice())?;
    Ok(bytes)
}
