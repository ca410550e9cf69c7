//! The outside in memory with failures: chosen calls fail, and a call reads, writes or says a few bytes at a time.

ghost use Rattle.std.specs.Prelude.{◌≡◌, ◌<◌, ◌≤◌, ◌+◌, ◌-◌, ◌^◌, [], max, min, option_map};
ghost use Rattle.memory_outside.specs.Faulty as named;
ghost use Rattle.memory_outside.specs.Faulty.{is_listed};

use crate::memory::{MemoryConsole, MemoryFile, MemoryOutput, Stage};
use asm_base::{Channel, Console, Failed, Inputs, Output, failure};
use std::alloc::Global;

/// The calls of an object: which fail, and how many bytes one takes.
#[derive(Clone, Copy, Debug)]
pub struct Calls<'a> {
    /// The numbers of the calls that fail. The first call has the number 0.
    failing: &'a [u64],
    /// The most bytes that a call takes; 0 counts as 1.
    largest: usize,
    /// How many calls were made.
    made: u64,
}

impl<'a> Calls<'a> {
    /// No call was made.
    pub fn new(failing: &'a [u64], largest: usize) -> Calls<'a>
        ensures failing { result.failing.now ≡ failing.now }
        ensures largest { result.largest ≡ largest }
        ensures made { result.made ≡ 0 }
    {
        Calls {
            failing,
            largest,
            made: 0,
        }
    }

    /// How many calls were made.
    pub fn made(&self) -> u64
        ensures { result ≡ self.now.made }
    {
        self.made
    }

    /// Whether the next call fails. It counts as made.
    fn next_fails(&mut self) -> bool
        ensures value { result ≡ is_listed self.old.made self.old.failing.now }
        ensures made { self.new.made ≡ min (self.old.made + 1) (2 ^ 64 - 1) }
        ensures failing { self.new.failing ≡ self.old.failing }
        ensures largest { self.new.largest ≡ self.old.largest }
    {
        let fails = self.failing.contains(&self.made);
        self.made = self.made.saturating_add(1);
        fails
    }

    /// How many of these bytes a call takes.
    fn piece(&self, bytes: usize) -> usize
        ensures within { result ≤ bytes }
        ensures progress { 0 < bytes → 0 < result }
        ensures largest { result ≤ max self.now.largest 1 }
    {
        bytes.min(self.largest.max(1))
    }
}

/// What a name has that no file of an input has.
#[derive(Clone, Copy, PartialEq, Eq, Debug)]
pub enum Unlisted {
    /// No contents: it can't be started.
    Missing,
    /// Empty contents.
    Empty,
}

/// The contents of a name.
fn contents_named<'a>(
    files: &'a [MemoryFile<'a>],
    unlisted: Unlisted,
    name: &str,
) -> Option<&'a [u8]>
    ensures { option_map (λ bytes. bytes.now) result
        ≡ named.contents_named files.now unlisted name.now }
{
    for file in files {
        if file.name == name {
            return Some(file.bytes);
        }
    }
    match unlisted {
        Unlisted::Missing => None,
        Unlisted::Empty => Some(&[]),
    }
}

/// What happened to the files of an input.
#[derive(Drop)]
enum Event {
    /// The file of this name was started.
    Starts(String),
    /// The file that was started last was read to its end.
    Ends,
}

/// An input of files in memory whose calls may fail. A call fails too where memory for its history is refused.
#[derive(Drop)]
pub struct FaultyInputs<'a> {
    alloc: Global,
    files: &'a [MemoryFile<'a>],
    unlisted: Unlisted,
    calls: Calls<'a>,
    rest: &'a [u8],
    history: Vec<Event>,
    faults: u64,
    missing: u64,
    taken: u64,
}

impl<'a> FaultyInputs<'a> {
    /// No file is started, so nothing is left to read.
    pub fn new(
        alloc: Global,
        files: &'a [MemoryFile<'a>],
        unlisted: Unlisted,
        calls: Calls<'a>,
    ) -> FaultyInputs<'a>
        ensures files { result.files.now ≡ files.now }
        ensures unlisted { result.unlisted ≡ unlisted }
        ensures calls { result.calls ≡ calls.entry }
        ensures rest { result.rest.now ≡ [] }
        ensures history { result.history.items ≡ [] }
        ensures faults { result.faults ≡ 0 }
        ensures missing { result.missing ≡ 0 }
        ensures taken { result.taken ≡ 0 }
    {
        FaultyInputs {
            alloc,
            files,
            unlisted,
            calls,
            rest: &[],
            history: Vec::new(alloc),
            faults: 0,
            missing: 0,
            taken: 0,
        }
    }

    /// How many calls were made.
    pub fn calls(&self) -> u64
        ensures { result ≡ self.now.calls.made }
    {
        self.calls.made()
    }
}

impl<'a> Inputs for FaultyInputs<'a> {
    ghost use Rattle.std.specs.Prelude.{Some, map};
    ghost use Rattle.memory_outside.specs.Faulty.{contents_named, event_of};

    ghost contents = { λ m. Some (contents_named m.files.now m.unlisted) };

    ghost rest = { λ m. Some m.rest.now };

    ghost faults = { λ m. m.faults };

    ghost missing = { λ m. m.missing };

    ghost taken = { λ m. m.taken };

    ghost history = { λ m. Some (map event_of m.history.items) };

    fn start(&mut self, name: &str) -> Result<(), Failed> {
        let fails = self.calls.next_fails();
        match contents_named(self.files, self.unlisted, name) {
            None => {
                self.missing = self.missing.saturating_add(1);
                Err(failure(&mut self.faults))
            }
            Some(bytes) => {
                if fails {
                    return Err(failure(&mut self.faults));
                }
                let Ok(owned) = String::from_str(self.alloc, name) else {
                    return Err(failure(&mut self.faults));
                };
                match self.history.push(Event::Starts(owned)) {
                    Ok(()) => {
                        self.rest = bytes;
                        Ok(())
                    }
                    Err(_) => Err(failure(&mut self.faults)),
                }
            }
        }
    }

    fn read(&mut self, buffer: &mut [u8]) -> Result<usize, Failed> {
        if self.calls.next_fails() {
            return Err(failure(&mut self.faults));
        }
        let count = self.calls.piece(buffer.len().min(self.rest.len()));
        if count == 0 && !buffer.is_empty() {
            return match self.history.push(Event::Ends) {
                Ok(()) => Ok(0),
                Err(_) => Err(failure(&mut self.faults)),
            };
        }
        let (piece, rest) = self.rest.split_at(count);
        buffer[..count].copy_from_slice(piece);
        self.rest = rest;
        self.taken = self.taken.saturating_add(count as u64);
        Ok(count)
    }
}

/// An output in memory whose calls may fail.
#[derive(Drop)]
pub struct FaultyOutput<'a> {
    inner: MemoryOutput,
    calls: Calls<'a>,
}

impl<'a> FaultyOutput<'a> {
    /// Nothing is made.
    pub fn new(alloc: Global, calls: Calls<'a>) -> FaultyOutput<'a>
        ensures stage { result.inner.stage ≡ Stage.Nothing }
        ensures calls { result.calls ≡ calls.entry }
        ensures faults { result.inner.faults ≡ 0 }
    {
        FaultyOutput {
            inner: MemoryOutput::new(alloc),
            calls,
        }
    }

    /// What is made so far.
    pub fn inner(&self) -> &MemoryOutput
        ensures { result.now ≡ self.now.inner }
    {
        &self.inner
    }

    /// How many calls were made.
    pub fn calls(&self) -> u64
        ensures { result ≡ self.now.calls.made }
    {
        self.calls.made()
    }
}

impl<'a> Output for FaultyOutput<'a> {
    ghost use Rattle.std.specs.Prelude.{Some, string_bytes};
    ghost use Rattle.memory_outside.specs.Memory.{made_at};

    ghost made = { λ o. Some (made_at o.inner.stage (string_bytes o.inner.name) o.inner.bytes.items) };

    ghost faults = { λ o. o.inner.faults };

    fn create(&mut self, name: &str) -> Result<(), Failed> {
        if self.calls.next_fails() {
            return Err(failure(&mut self.inner.faults));
        }
        self.inner.create(name)
    }

    fn write(&mut self, piece: &[u8]) -> Result<usize, Failed> {
        if self.calls.next_fails() {
            return Err(failure(&mut self.inner.faults));
        }
        let count = self.calls.piece(piece.len());
        self.inner.write(&piece[..count])
    }

    fn finish(&mut self) -> Result<(), Failed> {
        if self.calls.next_fails() {
            return Err(failure(&mut self.inner.faults));
        }
        self.inner.finish()
    }
}

/// A console in memory whose calls may fail.
#[derive(Drop)]
pub struct FaultyConsole<'a> {
    inner: MemoryConsole,
    calls: Calls<'a>,
}

impl<'a> FaultyConsole<'a> {
    /// Nothing is said.
    pub fn new(alloc: Global, calls: Calls<'a>) -> FaultyConsole<'a>
        ensures out { result.inner.out.items ≡ [] }
        ensures err { result.inner.err.items ≡ [] }
        ensures calls { result.calls ≡ calls.entry }
        ensures faults { result.inner.faults ≡ 0 }
    {
        FaultyConsole {
            inner: MemoryConsole::new(alloc),
            calls,
        }
    }

    /// What was said so far.
    pub fn inner(&self) -> &MemoryConsole
        ensures { result.now ≡ self.now.inner }
    {
        &self.inner
    }

    /// How many calls were made.
    pub fn calls(&self) -> u64
        ensures { result ≡ self.now.calls.made }
    {
        self.calls.made()
    }
}

impl<'a> Console for FaultyConsole<'a> {
    ghost use Rattle.std.specs.Prelude.{Some};

    ghost said = { λ c. Some (record { out = c.inner.out.items; err = c.inner.err.items }) };

    ghost faults = { λ c. c.inner.faults };

    fn say(&mut self, to: Channel, piece: &[u8]) -> Result<usize, Failed> {
        if self.calls.next_fails() {
            return Err(failure(&mut self.inner.faults));
        }
        let count = self.calls.piece(piece.len());
        self.inner.say(to, &piece[..count])
    }
}
