//! The outside in memory: an input that never fails, and an output and a console that fail only where memory is refused.

ghost use Rattle.std.specs.Prelude.{◌≡◌, [], None, Some, string_bytes};
ghost use Rattle.memory_outside.specs.Memory as named;

use asm_base::{Channel, Console, Failed, Inputs, Output, failure};
use std::alloc::Global;

/// A file of an input in memory.
#[derive(Clone, Copy)]
pub struct MemoryFile<'a> {
    pub name: &'a str,
    pub bytes: &'a [u8],
}

/// The bytes of the first file of this name, or none.
fn bytes_named<'a>(files: &'a [MemoryFile<'a>], name: &str) -> &'a [u8]
    ensures { result.now ≡ named.bytes_named files.now name.now }
{
    for file in files {
        if file.name == name {
            return file.bytes;
        }
    }
    &[]
}

/// An input of files in memory. It never fails, and a name that no file has is an empty file.
#[derive(Drop)]
pub struct MemoryInputs<'a> {
    files: &'a [MemoryFile<'a>],
    rest: &'a [u8],
    taken: u64,
}

impl<'a> MemoryInputs<'a> {
    /// No file is started, so nothing is left to read.
    pub fn new(files: &'a [MemoryFile<'a>]) -> MemoryInputs<'a>
        ensures files { result.files.now ≡ files.now }
        ensures rest { result.rest.now ≡ [] }
        ensures taken { result.taken ≡ 0 }
    {
        MemoryInputs {
            files,
            rest: &[],
            taken: 0,
        }
    }
}

impl<'a> Inputs for MemoryInputs<'a> {
    ghost use Rattle.memory_outside.specs.Memory.{contents_in};

    ghost contents = { λ m. Some (contents_in m.files.now) };

    ghost rest = { λ m. Some m.rest.now };

    ghost faults = { λ _. 0 };

    ghost missing = { λ _. 0 };

    ghost taken = { λ m. m.taken };

    // It keeps no list of what was started, which could want memory.
    ghost history = { λ _. None };

    fn start(&mut self, name: &str) -> Result<(), Failed> {
        self.rest = bytes_named(self.files, name);
        Ok(())
    }

    fn read(&mut self, buffer: &mut [u8]) -> Result<usize, Failed> {
        let count = buffer.len().min(self.rest.len());
        let (piece, rest) = self.rest.split_at(count);
        buffer[..count].copy_from_slice(piece);
        self.rest = rest;
        self.taken = self.taken.saturating_add(count as u64);
        Ok(count)
    }
}

/// How far the file of an output is.
#[derive(Clone, Copy, PartialEq, Eq, Debug)]
pub enum Stage {
    /// No file is made.
    Nothing,
    /// A file is made, and not finished.
    Begun,
    /// A file is made and finished.
    Finished,
}

/// An output that keeps its file in memory. A call fails only where memory is refused.
#[derive(Drop)]
pub struct MemoryOutput {
    alloc: Global,
    stage: Stage,
    name: String,
    bytes: Vec<u8>,
    pub(crate) faults: u64,
}

impl MemoryOutput {
    /// Nothing is made.
    pub fn new(alloc: Global) -> MemoryOutput
        ensures stage { result.stage ≡ Stage.Nothing }
        ensures faults { result.faults ≡ 0 }
    {
        MemoryOutput {
            alloc,
            stage: Stage::Nothing,
            name: String::new(alloc),
            bytes: Vec::new(alloc),
            faults: 0,
        }
    }

    /// How far the file is.
    pub fn stage(&self) -> Stage
        ensures { result ≡ self.now.stage }
    {
        self.stage
    }

    /// The name of the file, or nothing before it is made.
    pub fn name(&self) -> &str
        ensures { result.now ≡ string_bytes self.now.name }
    {
        self.name.as_str()
    }

    /// The bytes of the file so far.
    pub fn bytes(&self) -> &[u8]
        ensures { result.now ≡ self.now.bytes.items }
    {
        self.bytes.as_slice()
    }
}

impl Output for MemoryOutput {
    ghost use Rattle.memory_outside.specs.Memory.{made_at};

    ghost made = { λ o. Some (made_at o.stage (string_bytes o.name) o.bytes.items) };

    ghost faults = { λ o. o.faults };

    fn create(&mut self, name: &str) -> Result<(), Failed> {
        match String::from_str(self.alloc, name) {
            Ok(name) => {
                self.name = name;
                self.bytes = Vec::new(self.alloc);
                self.stage = Stage::Begun;
                Ok(())
            }
            Err(_) => { Err(failure(&mut self.faults)) }
        }
    }

    fn write(&mut self, piece: &[u8]) -> Result<usize, Failed> {
        if self.stage != Stage::Begun {
            return Ok(piece.len());
        }
        match self.bytes.extend_from_slice(piece) {
            Ok(()) => Ok(piece.len()),
            Err(_) => { Err(failure(&mut self.faults)) }
        }
    }

    fn finish(&mut self) -> Result<(), Failed> {
        if self.stage == Stage::Begun {
            self.stage = Stage::Finished;
        }
        Ok(())
    }
}

/// A console that keeps what is said. A call fails only where memory is refused.
#[derive(Drop)]
pub struct MemoryConsole {
    out: Vec<u8>,
    err: Vec<u8>,
    pub(crate) faults: u64,
}

impl MemoryConsole {
    /// Nothing is said.
    pub fn new(alloc: Global) -> MemoryConsole
        ensures out { result.out.items ≡ [] }
        ensures err { result.err.items ≡ [] }
        ensures faults { result.faults ≡ 0 }
    {
        MemoryConsole {
            out: Vec::new(alloc),
            err: Vec::new(alloc),
            faults: 0,
        }
    }

    /// What was said on the channel.
    pub fn said(&self, on: Channel) -> &[u8]
        ensures out { on ≡ Channel.Out → result.now ≡ self.now.out.items }
        ensures err { on ≡ Channel.Err → result.now ≡ self.now.err.items }
    {
        match on {
            Channel::Out => self.out.as_slice(),
            Channel::Err => self.err.as_slice(),
        }
    }
}

impl Console for MemoryConsole {
    ghost said = { λ c. Some (record { out = c.out.items; err = c.err.items }) };

    ghost faults = { λ c. c.faults };

    fn say(&mut self, to: Channel, piece: &[u8]) -> Result<usize, Failed> {
        let said = match to {
            Channel::Out => self.out.extend_from_slice(piece),
            Channel::Err => self.err.extend_from_slice(piece),
        };
        match said {
            Ok(()) => Ok(piece.len()),
            Err(_) => { Err(failure(&mut self.faults)) }
        }
    }
}
