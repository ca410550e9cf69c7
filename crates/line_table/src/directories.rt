//! The directories of a line table (DWARF 5, section 6.2.4).

ghost use Rattle.std.specs.Prelude.{◌≡◌, ◌+◌, ◌≤◌, length};
ghost use Rattle.std.specs.List.{filter};
ghost use Rattle.line_directives.specs.SourceFiles.{place_of};
ghost use Rattle.line_table.specs.Header as spec;

use asm_base::Bytes;
use line_directives::SourceFiles;

/// The directory of files that have none.
const DOT: &[u8] = b".";

/// The text of a directory: `.` where a file has none.
pub(crate) fn text_of(files: &SourceFiles, directory: Option<usize>) -> &[u8]
    ensures { result.now ≡ spec.text_of files.now directory }
{
    match directory {
        Some(number) => match files.directories().get(number) {
            Some(text) => text.as_slice(),
            None => &[],
        },
        None => DOT,
    }
}

/// Directory 0: that of file 0, else `.`.
pub(crate) fn first_directory(files: &SourceFiles) -> &[u8]
    ensures { result.now ≡ spec.first_directory files.now }
{
    match files.get(0) {
        Some(file) => text_of(files, file.directory),
        None => DOT,
    }
}

/// Whether a directory is not directory 0.
pub(crate) fn is_other(first: &[u8], directory: &[u8]) -> bool
    ensures { result ≡ spec.is_other first.now directory.now }
{
    directory != first
}

/// How many directories are not directory 0.
pub(crate) fn count_others(first: &[u8], directories: &[Bytes]) -> usize
    ensures count { result ≡ length (filter (spec.is_other first.now) directories.now) }
    ensures within { result ≤ length directories.now }
{
    let mut count = 0;
    for directory in directories {
        if is_other(first, directory.as_slice()) {
            count += 1;
        }
    }
    count
}

/// The place of a text among the directories that are not directory 0, or behind all.
fn place_among(first: &[u8], directories: &[Bytes], text: &[u8]) -> usize
    ensures place { result ≡ place_of text.now (filter (spec.is_other first.now) directories.now) }
    ensures within { result ≤ length directories.now }
{
    let mut place = 0;
    for other in directories {
        if is_other(first, other.as_slice()) {
            if other.as_slice() == text {
                return place;
            }
            place += 1;
        }
    }
    place
}

/// The number of a file's directory, which is 0 where it has none.
pub(crate) fn directory_number(files: &SourceFiles, directory: Option<usize>) -> usize
    ensures { result ≡ spec.directory_number files.now directory }
{
    if directory.is_none() {
        return 0;
    }
    let text = text_of(files, directory);
    let first = first_directory(files);
    if first == text {
        return 0;
    }
    1 + place_among(first, files.directories(), text)
}
