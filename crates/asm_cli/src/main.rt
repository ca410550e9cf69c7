//! The assembler as a program: its words, the real files and streams, and its exit status.
#![tactic(auto)]

use asm_base::{FileInputs, FileOutput, Status, StreamConsole};
use asm_run::run;
use std::alloc::AllocError;
use std::env;
use std::io::ErrorKind;
use std::process::ExitCode;

/// How many bytes the object's name has at most: it is in one of the words, or `a.out`.
fn longest_name(words: &Vec<String>) -> usize {
    let mut longest = 5;
    for word in words {
        longest = longest.max(word.len());
    }
    longest
}

fn main(rt: HostRuntime) -> ExitCode {
    // Words that are no text are no command, as no words are none.
    let words = match env::args(&rt) {
        Ok(words) => words.collect(rt.alloc()),
        Err(error) if error.kind() == ErrorKind::OutOfMemory => Err(AllocError),
        Err(_) => Ok(Vec::new(rt.alloc())),
    };
    let status = match words {
        Ok(words) => {
            let mut ins = FileInputs::new(&rt);
            let mut con = StreamConsole::new(rt.stdout(), rt.stderr());
            match FileOutput::new(&rt, longest_name(&words)) {
                Ok(mut obj) => run(rt.alloc(), &words, &mut ins, &mut obj, &mut con),
                Err(AllocError) => Status::NoMemory,
            }
        }
        Err(AllocError) => Status::NoMemory,
    };
    ExitCode::from(status.code())
}
