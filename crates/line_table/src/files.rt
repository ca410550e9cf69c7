//! The files of a line table (DWARF 5, section 6.2.4).

ghost use Rattle.std.specs.Prelude.{◌≡◌, ◌++◌, ◌∷◌, ℕ, List, map, unwrap_or, OnOk};
ghost use Rattle.leb128.specs.Digits.{uleb_bytes};
ghost use Rattle.line_rows.specs.Tables.{File, files_then};
ghost use Rattle.line_table.specs.Header as spec;

use crate::directories::directory_number;
use arrayvec::ArrayVec;
use leb128::push_unsigned;
use line_directives::{SourceFile, SourceFiles};
use std::alloc::AllocError;

/// Puts a number behind bytes, in groups of 7 bits, as few as hold it.
pub(crate) fn push_number(bytes: &mut Vec<u8>, number: u64) -> Result<(), AllocError>
    ensures { OnOk result (bytes.new.items ≡ bytes.old.items ++ uleb_bytes number) }
{
    let mut digits: ArrayVec<u8, 10> = ArrayVec::new();
    push_unsigned(&mut digits, number);
    bytes.extend_from_slice(&digits)
}

/// Puts a path behind bytes, and the zero that ends it.
pub(crate) fn push_path(bytes: &mut Vec<u8>, path: &[u8]) -> Result<(), AllocError>
    ensures { (rest : List ℕ) → OnOk result (bytes.new.items ++ rest
        ≡ bytes.old.items ++ (path.now ++ 0x00 ∷ rest)) }
{
    bytes.extend_from_slice(path)?;
    bytes.push(0x00)?;
    Ok(())
}

/// The file of the least number that is given, or else this one.
pub(crate) fn least_or<'a>(
    files: &'a [Option<SourceFile>],
    nameless: &'a SourceFile,
) -> &'a SourceFile
    ensures { result.now ≡ unwrap_or (spec.least files.now) nameless.now }
{
    for found in files {
        match found {
            Some(file) => return file,
            None => {}
        }
    }
    nameless
}

/// The file that stands under a number, or else the least one.
fn repeated<'a>(found: &'a Option<SourceFile>, least: &'a SourceFile) -> &'a SourceFile
    ensures { result.now ≡ unwrap_or found.now least.now }
{
    match found {
        Some(file) => file,
        None => least,
    }
}

/// Puts a file behind bytes.
fn push_file(bytes: &mut Vec<u8>, files: &SourceFiles, file: &SourceFile) -> Result<(), AllocError>
    ensures { (more : List File) (rest : List ℕ) → OnOk result (
        bytes.new.items ++ files_then more rest
        ≡ bytes.old.items ++ files_then (spec.entry files.now file.now ∷ more) rest) }
{
    push_path(bytes, file.name.as_slice())?;
    push_number(bytes, directory_number(files, file.directory) as u64)
}

/// Puts all files behind bytes, from number 0 to the greatest.
pub(crate) fn push_files(
    bytes: &mut Vec<u8>,
    files: &SourceFiles,
    least: &SourceFile,
) -> Result<(), AllocError>
    ensures { (rest : List ℕ) → OnOk result (bytes.new.items ++ rest ≡ bytes.old.items
        ++ files_then (map (spec.entry_or files.now least.now) files.now.by_number) rest) }
{
    for found in files.by_number() {
        push_file(bytes, files, repeated(found, least))?;
    }
    Ok(())
}
