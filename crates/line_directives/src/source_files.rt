//! The source files of a line table, by their numbers.

ghost use Rattle.std.specs.Prelude.{◌≡◌, IfOk, OnOk};
ghost use Rattle.line_directives.specs.SourceFiles as spec;

use crate::numbered::make_room;
use asm_base::Bytes;
use std::alloc::{AllocError, Global};
use std::marker::Model;

/// A source file.
#[derive(Drop)]
pub struct SourceFile {
    /// The place of its directory among those that are seen, where it has one.
    pub directory: Option<usize>,
    /// Its name.
    pub name: Bytes,
}

impl SourceFile {
    ghost use Rattle.std.specs.Prelude.{◌≡◌};
    ghost use Rattle.line_directives.specs.SourceFiles.{same_file};

    /// Whether the file has this name and this directory.
    fn is_in(&self, directory: Option<usize>, name: &Bytes) -> bool
        ensures { result ≡ same_file self.now (record { directory = directory; name = name.now }) }
    {
        same_directory(self.directory, directory) && self.name.as_slice() == name.as_slice()
    }
}

/// Whether both are none, or the same directory.
fn same_directory(a: Option<usize>, b: Option<usize>) -> bool
    ensures { result ≡ spec.same_directory a b }
{
    match (a, b) {
        (None, None) => true,
        (Some(a), Some(b)) => a == b,
        _ => false,
    }
}

/// The place of a directory among those that are seen, or behind all.
fn place_of(directories: &[Bytes], directory: &[u8]) -> usize
    ensures { result ≡ spec.place_of directory.now directories.now }
{
    for (index, other) in directories.iter().enumerate() {
        if other.as_slice() == directory {
            return index;
        }
    }
    directories.len()
}

/// The place of a file's directory among those that are seen, where it is from here on.
fn see(directories: &mut Vec<Bytes>, directory: Option<Bytes>) -> Result<Option<usize>, AllocError>
    ensures place { IfOk result (λ place. place ≡ spec.place_in directory directories.old.items) }
    ensures seen { OnOk result (directories.new.items
        ≡ spec.with_directory_of directory directories.old.items) }
{
    let Some(directory) = directory else {
        return Ok(None);
    };
    let place = place_of(directories.as_slice(), directory.as_slice());
    if place == directories.len() {
        directories.push(directory)?;
    }
    Ok(Some(place))
}

/// The source files of a line table, by their numbers, and their directories in the order in which they are first seen.
#[derive(Drop)]
pub struct SourceFiles {
    by_number: Vec<Option<SourceFile>>,
    directories: Vec<Bytes>,
}

impl Model for SourceFiles {
    ghost use Rattle.line_directives.specs.SourceFiles.{FileTable};

    ghost Value = { FileTable };

    ghost view = { λ inside. record { by_number = inside.by_number.items; directories = inside.directories.items } };
}

impl SourceFiles {
    ghost use Rattle.std.specs.Prelude.{◌≡◌, OnOk, is_some};
    ghost use Rattle.std.specs.Option.{option_map};
    ghost use Rattle.line_directives.specs.SourceFiles as spec;

    /// No file.
    pub fn new(alloc: Global) -> SourceFiles
        ensures { result ≡ spec.no_files }
    {
        SourceFiles {
            by_number: Vec::new(alloc),
            directories: Vec::new(alloc),
        }
    }

    /// The file under a number.
    pub fn get(&self, number: u32) -> Option<&SourceFile>
        ensures { option_map (λ file. file.now) result ≡ spec.file_of number self.now }
    {
        match self.by_number.get(number as usize) {
            Some(Some(file)) => Some(file),
            _ => None,
        }
    }

    /// Whether a file is under this number.
    pub fn has(&self, number: u32) -> bool
        ensures { result ≡ is_some (spec.file_of number self.now) }
    {
        match self.get(number) {
            Some(_) => true,
            None => false,
        }
    }

    /// The files by their numbers.
    pub fn by_number(&self) -> &[Option<SourceFile>]
        ensures { result.now ≡ self.now.by_number }
    {
        self.by_number.as_slice()
    }

    /// The directories in the order in which they are first seen.
    pub fn directories(&self) -> &[Bytes]
        ensures { result.now ≡ self.now.directories }
    {
        self.directories.as_slice()
    }

    /// The place of a file's directory.
    fn place(&self, directory: &Option<Bytes>) -> Option<usize>
        ensures { result ≡ spec.place_in directory.now self.now.directories }
    {
        match directory {
            Some(directory) => Some(place_of(&self.directories, directory.as_slice())),
            None => None,
        }
    }

    /// Whether the file under this number is this one.
    pub(crate) fn is_given(
        &self,
        number: u32,
        directory: &Option<Bytes>,
        name: &Bytes,
    ) -> Option<bool>
        ensures { result ≡ spec.is_given number directory.now name.now self.now }
    {
        match self.get(number) {
            Some(file) => Some(file.is_in(self.place(directory), name)),
            None => None,
        }
    }

    /// Puts a file under a number that has none. Where memory is refused, it is only dropped.
    pub(crate) fn put(
        &mut self,
        number: u32,
        directory: Option<Bytes>,
        name: Bytes,
    ) -> Result<(), AllocError>
        ensures { OnOk result (self.new ≡ spec.with_file number directory name self.old) }
    {
        let place = see(&mut self.directories, directory)?;
        make_room(&mut self.by_number, number as usize + 1)?;
        self.by_number[number as usize] = Some(SourceFile {
            directory: place,
            name,
        });
        Ok(())
    }
}
