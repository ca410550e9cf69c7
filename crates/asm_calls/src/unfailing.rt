//! Runs over an outside that never fails, and over a file without end.

ghost use Rattle.std.specs.Prelude.{◌≡◌, ◌⊎◌};

use asm_base::{Channel, Status};
use asm_run::run;
use memory_outside::{
    MemoryConsole, MemoryFile, MemoryInputs, MemoryOutput, NullConsole, NullOutput, RepeatInputs,
};
use row_texts::{write_count, write_line};
use std::alloc::{AllocError, Global};
use std::io::{self, Write};
use std::str;

/// The words of a command line, which single blanks part.
fn words_of(alloc: Global, text: &str) -> Result<Vec<String>, AllocError> {
    let mut words = Vec::new(alloc);
    for word in text.split(' ') {
        words.push(String::from_str(alloc, word)?)?;
    }
    Ok(words)
}

/// Runs the words over files in memory, an output and a console that never fail. So no failure of the outside is answered: beside what the
/// words stand for there is want of memory alone.
fn unfailing_status(alloc: Global, words: &Vec<String>, files: &[MemoryFile<'_>]) -> Status
    ensures { (result ≡ Status.Done) ⊎ (result ≡ Status.SourceFault) ⊎ (result ≡ Status.Usage)
        ⊎ (result ≡ Status.NoMemory) }
{
    let mut ins = MemoryInputs::new(files);
    run(alloc, words, &mut ins, &mut NullOutput, &mut NullConsole)
}

/// `unfailing WORDS`: its status, where `x.s` has an instruction and `bad.s` a fault. Every other name has an empty file.
pub fn write_unfailing(alloc: Global, text: &str, out: &mut Vec<u8>) -> io::Result<()> {
    let words = words_of(alloc, text)?;
    let files = [
        MemoryFile {
            name: "x.s",
            bytes: b"nop\n",
        },
        MemoryFile {
            name: "bad.s",
            bytes: b"foo\n",
        },
    ];
    let status = unfailing_status(alloc, &words, &files);
    writeln!(out, "{status:?}")
}

/// `endless BYTE`: what a run says of a file of this byte without end, and how much of it it reads.
pub fn write_endless(alloc: Global, text: &str, out: &mut Vec<u8>) -> io::Result<()> {
    let Ok(byte) = text.parse::<u8>() else {
        return write_line("no such call", out);
    };
    let words = words_of(alloc, "as x.s")?;
    let mut ins = RepeatInputs::new(byte);
    let mut obj = MemoryOutput::new(alloc);
    let mut con = MemoryConsole::new(alloc);
    let status = run(alloc, &words, &mut ins, &mut obj, &mut con);
    out.extend_from_slice(con.said(Channel::Err))?;
    let stage = obj.stage();
    writeln!(out, "{status:?}, {stage:?} made")?;
    write_count(ins.taken(), " bytes read", out)
}
