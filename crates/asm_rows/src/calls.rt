//! A row run again and again, each time with another call of the outside that fails, and once more one byte a call.

use crate::runs::{Failing, Ran, run_row};
use asm_base::{Channel, Status};
use memory_outside::{MemoryFile, Stage};
use row_texts::{Pieces, Row, write_line, write_text};
use std::alloc::Global;
use std::io::{self, Write};

/// An object of the outside.
#[derive(Clone, Copy)]
enum Outside {
    Input,
    Output,
    Console,
}

impl Outside {
    fn word(self) -> &'static str {
        match self {
            Outside::Input => "input",
            Outside::Output => "output",
            Outside::Console => "console",
        }
    }

    /// How often a run called it.
    fn calls_of(self, ran: &Ran<'_>) -> u64 {
        match self {
            Outside::Input => ran.input_calls,
            Outside::Output => ran.output.calls(),
            Outside::Console => ran.console.calls(),
        }
    }

    /// These calls of it fail, and no other.
    fn failing(self, calls: &[u64]) -> Failing<'_> {
        let (input, output, console): (&[u64], &[u64], &[u64]) = match self {
            Outside::Input => (calls, &[], &[]),
            Outside::Output => (&[], calls, &[]),
            Outside::Console => (&[], &[], calls),
        };
        Failing {
            input,
            output,
            console,
        }
    }

    /// The status that a failing call leads to.
    fn status_due(self) -> Status {
        match self {
            Outside::Input => Status::ReadFault,
            Outside::Output | Outside::Console => Status::WriteFault,
        }
    }

    /// Whether what was said is what is due.
    fn is_said_as_due(self, left: &Left) -> bool {
        match self {
            Outside::Input => left.says_nothing,
            Outside::Output => left.says_all,
            Outside::Console => left.says_front && !left.says_all,
        }
    }

    /// What is due to be made where this call of so many fails. The first call of an output creates the file, and the last one finishes it.
    fn made_due(self, call: u64, calls: u64) -> Made {
        match self {
            Outside::Input | Outside::Console => Made::Nothing,
            Outside::Output if call == 0 => Made::Nothing,
            Outside::Output if is_last(call, calls) => Made::Whole,
            Outside::Output => Made::Front,
        }
    }

    /// Whether the run left what is due, and made no call of this object behind the one that failed. So what is made or said is just what
    /// the calls before that one took.
    fn is_as_due(self, call: u64, calls: u64, left: &Left) -> bool {
        left.status == self.status_due()
            && is_last(call, left.calls)
            && self.is_said_as_due(left)
            && left.made == self.made_due(call, calls)
    }

    /// What a run with a failing call has to leave.
    fn due(self) -> &'static str {
        match self {
            Outside::Input => "answers ReadFault, nothing is said, nothing made",
            Outside::Console => "answers WriteFault, a front is said, nothing made",
            Outside::Output => {
                "answers WriteFault, all is said; a create leaves nothing, a write what those before it took, a finish the whole, not finished"
            }
        }
    }
}

/// Whether it is the last of so many calls. The first call has the number 0.
fn is_last(call: u64, calls: u64) -> bool {
    calls.checked_sub(call) == Some(1)
}

/// What is made of the object of the run without failures.
#[derive(Clone, Copy, PartialEq, Eq)]
enum Made {
    Nothing,
    /// A front that is not all and not finished.
    Front,
    /// All of it, not finished.
    Whole,
    Other,
}

/// What a run with a failing call left, beside what the run without failures says and makes.
#[derive(Clone, Copy)]
struct Left {
    status: Status,
    /// How often the object of the failing call was called.
    calls: u64,
    says_nothing: bool,
    says_front: bool,
    says_all: bool,
    made: Made,
}

impl Left {
    fn of(outside: Outside, ran: &Ran<'_>, clean: &Ran<'_>) -> Left {
        let out = ran.console.inner().said(Channel::Out);
        let err = ran.console.inner().said(Channel::Err);
        let all_out = clean.console.inner().said(Channel::Out);
        let all_err = clean.console.inner().said(Channel::Err);
        Left {
            status: ran.status,
            calls: outside.calls_of(ran),
            says_nothing: out.is_empty() && err.is_empty(),
            says_front: all_out.starts_with(out) && all_err.starts_with(err),
            says_all: out == all_out && err == all_err,
            made: made_of(ran, clean),
        }
    }

    fn said_word(self) -> &'static str {
        if self.says_nothing {
            "nothing is said"
        } else if self.says_all {
            "all is said"
        } else if self.says_front {
            "a front is said"
        } else {
            "something else is said"
        }
    }

    fn made_word(self) -> &'static str {
        match self.made {
            Made::Nothing => "nothing made",
            Made::Front => "a front is made and not finished",
            Made::Whole => "all is made and not finished",
            Made::Other => "something else is made",
        }
    }
}

/// What a run made of the object of the run without failures.
fn made_of(ran: &Ran<'_>, clean: &Ran<'_>) -> Made {
    let made = ran.output.inner();
    let whole = clean.output.inner();
    match made.stage() {
        Stage::Nothing => Made::Nothing,
        Stage::Begun if made.name() != whole.name() => Made::Other,
        Stage::Begun if made.bytes() == whole.bytes() => Made::Whole,
        Stage::Begun if whole.bytes().starts_with(made.bytes()) => Made::Front,
        _ => Made::Other,
    }
}

/// Lets each call of an object fail in turn, and writes what the runs left.
fn write_failing(
    alloc: Global,
    row: &Row,
    files: &[MemoryFile<'_>],
    clean: &Ran<'_>,
    outside: Outside,
    out: &mut Vec<u8>,
) -> io::Result<()> {
    let word = outside.word();
    let calls = outside.calls_of(clean);
    if calls == 0 {
        write_text(word, out)?;
        return write_line(": no calls", out);
    }
    for call in 0..calls {
        let numbers = [call];
        let failing = outside.failing(&numbers);
        let ran = run_row(alloc, &row.words, files, failing, row.pieces);
        let left = Left::of(outside, &ran, clean);
        if !outside.is_as_due(call, calls, &left) {
            let number = call + 1;
            let made_calls = left.calls;
            let status = left.status;
            let said = left.said_word();
            let made = left.made_word();
            return writeln!(
                out,
                "{word}: call {number} of {calls}, {made_calls} made, answers {status:?}, {said}, {made}"
            );
        }
    }
    let due = outside.due();
    write_text(word, out)?;
    write_text(": every failing call is the last one and ", out)?;
    write_line(due, out)
}

/// Whether two runs left the same.
fn is_same(one: &Ran<'_>, other: &Ran<'_>) -> bool {
    let said = one.console.inner();
    let other_said = other.console.inner();
    let made = one.output.inner();
    let other_made = other.output.inner();
    one.status == other.status
        && said.said(Channel::Out) == other_said.said(Channel::Out)
        && said.said(Channel::Err) == other_said.said(Channel::Err)
        && made.stage() == other_made.stage()
        && made.name() == other_made.name()
        && made.bytes() == other_made.bytes()
}

/// Runs the row with one byte a call, and writes whether that leaves the same as the run without failures.
fn write_bytewise(
    alloc: Global,
    row: &Row,
    files: &[MemoryFile<'_>],
    clean: &Ran<'_>,
    out: &mut Vec<u8>,
) -> io::Result<()> {
    let bytewise = run_row(alloc, &row.words, files, Failing::none(), Pieces::alike(1));
    write_line(
        if is_same(&bytewise, clean) {
            "one byte a call: the same is said and made"
        } else {
            "one byte a call: something else is said or made"
        },
        out,
    )
}

/// Lets each call of the outside that the run without failures made fail in turn, and writes what the runs left; and runs the row once more
/// with one byte a call.
pub fn write_every_call(
    alloc: Global,
    row: &Row,
    files: &[MemoryFile<'_>],
    clean: &Ran<'_>,
    out: &mut Vec<u8>,
) -> io::Result<()> {
    write_failing(alloc, row, files, clean, Outside::Input, out)?;
    write_failing(alloc, row, files, clean, Outside::Output, out)?;
    write_failing(alloc, row, files, clean, Outside::Console, out)?;
    write_bytewise(alloc, row, files, clean, out)
}
