//! A run of the assembler over the outside in memory.

use asm_base::Status;
use asm_run::run;
use memory_outside::{Calls, FaultyConsole, FaultyInputs, FaultyOutput, MemoryFile, Unlisted};
use row_texts::{FailingCalls, Pieces, SourceFile};
use std::alloc::{AllocError, Global};

/// The numbers of the calls that fail, from 0.
#[derive(Clone, Copy)]
pub struct Failing<'a> {
    pub input: &'a [u64],
    pub output: &'a [u64],
    pub console: &'a [u64],
}

impl<'a> Failing<'a> {
    /// No call fails.
    pub fn none() -> Failing<'a> {
        Failing {
            input: &[],
            output: &[],
            console: &[],
        }
    }
}

/// What a run left.
#[derive(Drop)]
pub struct Ran<'a> {
    pub status: Status,
    pub input_calls: u64,
    pub output: FaultyOutput<'a>,
    pub console: FaultyConsole<'a>,
}

/// The files as an input in memory takes them.
pub fn memory_files<'a>(
    alloc: Global,
    files: &'a [SourceFile],
) -> Result<Vec<MemoryFile<'a>>, AllocError> {
    let mut all = Vec::new(alloc);
    for file in files {
        all.push(MemoryFile {
            name: file.name.as_str(),
            bytes: file.bytes.as_slice(),
        })?;
    }
    Ok(all)
}

/// The numbers of the row's calls that fail.
pub fn failing_calls(failing: &FailingCalls) -> Failing<'_> {
    Failing {
        input: failing.input.as_slice(),
        output: failing.output.as_slice(),
        console: failing.console.as_slice(),
    }
}

/// Runs the words over the files, where these calls fail and no call takes more than so many bytes.
pub fn run_row<'a>(
    alloc: Global,
    words: &Vec<String>,
    files: &[MemoryFile<'_>],
    failing: Failing<'a>,
    pieces: Pieces,
) -> Ran<'a> {
    let mut ins = FaultyInputs::new(
        alloc,
        files,
        Unlisted::Missing,
        Calls::new(failing.input, pieces.input),
    );
    let mut output = FaultyOutput::new(alloc, Calls::new(failing.output, pieces.output));
    let mut console = FaultyConsole::new(alloc, Calls::new(failing.console, pieces.console));
    let status = run(alloc, words, &mut ins, &mut output, &mut console);
    Ran {
        status,
        input_calls: ins.calls(),
        output,
        console,
    }
}
