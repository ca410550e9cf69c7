//! The outside of files and standard streams. These tell nothing of contents: they are thin, and trusted.

ghost use Rattle.std.specs.Prelude.{◌≡◌, ◌≤◌, None, IfOk};
ghost use Rattle.asm_base.specs.Counts.{HasRisen};

use crate::messages::NoMemory;
use crate::outside::{Channel, Console, Failed, Inputs, Output, failure};
use std::alloc::Alloc;
use std::fs::{self, Files, OpenFile};
use std::io::{ErrorKind, Read, Write};
use std::os::unix::fs::MetadataExt;

/// Files by their paths, and standard input under the empty name.
#[derive(Drop)]
pub struct FileInputs<'a, R: Files + Input> {
    rt: &'a R,
    standard: R::Reader,
    /// Standard input is the started file.
    reads_standard: bool,
    file: Option<R::File>,
    faults: u64,
    missing: u64,
    taken: u64,
}

impl<'a, R: Files + Input> FileInputs<'a, R> {
    /// No file is started, so nothing is left to read.
    pub fn new(rt: &'a R) -> FileInputs<'a, R>
        ensures faults { result.faults ≡ 0 }
        ensures missing { result.missing ≡ 0 }
        ensures taken { result.taken ≡ 0 }
    {
        FileInputs {
            rt,
            standard: rt.reader(),
            reads_standard: false,
            file: None,
            faults: 0,
            missing: 0,
            taken: 0,
        }
    }
}

impl<'a, R: Files + Input> Inputs for FileInputs<'a, R> {
    ghost contents = { λ _. None };

    ghost rest = { λ _. None };

    ghost faults = { λ i. i.faults };

    ghost missing = { λ i. i.missing };

    ghost taken = { λ i. i.taken };

    ghost history = { λ _. None };

    fn start(&mut self, name: &str) -> Result<(), Failed> {
        if name.is_empty() {
            self.file = None;
            self.reads_standard = true;
            return Ok(());
        }
        match fs::open(self.rt, name) {
            Ok(file) => {
                self.file = Some(file);
                self.reads_standard = false;
                Ok(())
            }
            Err(error) => {
                if error.kind() == ErrorKind::NotFound {
                    self.missing = self.missing.saturating_add(1);
                }
                Err(failure(&mut self.faults))
            }
        }
    }

    fn read(&mut self, buffer: &mut [u8]) -> Result<usize, Failed> {
        let read = match self.file.take() {
            Some(mut file) => {
                let read = file.read(buffer);
                self.file = Some(file);
                read
            }
            None if self.reads_standard => self.standard.read(buffer),
            None => Ok(0),
        };
        match read {
            Ok(count) => {
                self.taken = self.taken.saturating_add(count as u64);
                Ok(count)
            }
            Err(_) => { Err(failure(&mut self.faults)) }
        }
    }
}

/// A file by its path. Where a write or `finish` fails, the regular file that was created is removed, as GNU as does.
/// What is removed is not proved.
#[derive(Drop)]
pub struct FileOutput<'a, R: Files + Alloc> {
    rt: &'a R,
    file: Option<R::File>,
    /// The name under which the file was created.
    name: String<R::A>,
    faults: u64,
}

impl<'a, R: Files + Alloc> FileOutput<'a, R> {
    /// Nothing is made. Room is taken for a name of so many bytes, so that `create` takes no memory for one.
    ///
    /// # Errors
    ///
    /// Memory for the name is refused.
    pub fn new(rt: &'a R, room: usize) -> Result<FileOutput<'a, R>, NoMemory>
        ensures { IfOk result (λ output. output.faults ≡ 0) }
    {
        Ok(FileOutput {
            rt,
            file: None,
            name: String::with_capacity(rt.alloc(), room)?,
            faults: 0,
        })
    }

    /// The name is the name of this very file, and the file is a regular one: no device, no pipe, and nothing behind a symbolic link.
    fn is_named(&self, file: &R::File) -> bool {
        match (
            file.metadata(),
            fs::symlink_metadata(self.rt, self.name.as_str()),
        ) {
            (Ok(open), Ok(named)) => {
                open.is_file()
                    && named.is_file()
                    && open.dev() == named.dev()
                    && open.ino() == named.ino()
            }
            _ => false,
        }
    }

    /// A call on the file failed. A removal that is refused changes no answer.
    fn give_up(&mut self, file: R::File) -> Failed
        ensures cause { HasRisen self.old.faults self.new.faults }
        ensures kept { self.old.faults ≤ self.new.faults }
    {
        if self.is_named(&file) {
            let _ = fs::remove_file(self.rt, self.name.as_str());
        }
        failure(&mut self.faults)
    }
}

impl<'a, R: Files + Alloc> Output for FileOutput<'a, R> {
    ghost made = { λ _. None };

    ghost faults = { λ o. o.faults };

    fn create(&mut self, name: &str) -> Result<(), Failed> {
        // Only a name that is longer than the room takes memory, and where that is refused, no file is created.
        self.name.clear();
        if self.name.push_str(name).is_err() {
            return Err(failure(&mut self.faults));
        }
        match fs::create(self.rt, name) {
            Ok(file) => {
                self.file = Some(file);
                Ok(())
            }
            Err(_) => { Err(failure(&mut self.faults)) }
        }
    }

    fn write(&mut self, piece: &[u8]) -> Result<usize, Failed> {
        match self.file.take() {
            Some(mut file) => match file.write(piece) {
                Ok(count) if count > 0 || piece.is_empty() => {
                    self.file = Some(file);
                    Ok(count)
                }
                _ => Err(self.give_up(file)),
            },
            None => Err(failure(&mut self.faults)),
        }
    }

    fn finish(&mut self) -> Result<(), Failed> {
        match self.file.take() {
            Some(mut file) => match file.flush() {
                Ok(()) => Ok(()),
                Err(_) => Err(self.give_up(file)),
            },
            None => Err(failure(&mut self.faults)),
        }
    }
}

/// Two streams, as standard output and standard error.
#[derive(Drop)]
pub struct StreamConsole<O: Write + Drop, E: Write + Drop> {
    out: O,
    err: E,
    faults: u64,
}

impl<O: Write + Drop, E: Write + Drop> StreamConsole<O, E> {
    /// A console of these two streams.
    pub fn new(out: O, err: E) -> StreamConsole<O, E>
        ensures { result.faults ≡ 0 }
    {
        StreamConsole {
            out,
            err,
            faults: 0,
        }
    }
}

impl<O: Write + Drop, E: Write + Drop> Console for StreamConsole<O, E> {
    ghost said = { λ _. None };

    ghost faults = { λ c. c.faults };

    fn say(&mut self, to: Channel, piece: &[u8]) -> Result<usize, Failed> {
        let written = match to {
            Channel::Out => self.out.write(piece),
            Channel::Err => self.err.write(piece),
        };
        match written {
            Ok(count) if count > 0 || piece.is_empty() => Ok(count),
            _ => { Err(failure(&mut self.faults)) }
        }
    }
}
