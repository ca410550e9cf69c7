//! All that a run says on standard error: of its notes, and of its fault.

ghost use Rattle.std.specs.Prelude.{◌≡◌, ◌++◌, IfOk, OnOk, flat_map};
ghost use Rattle.asm_base.specs.Messages.{noted_line, remarks, refusal};

use crate::faults::Fault;
use crate::messages::{NoMemory, heading, message, warning};
use crate::notes::Noted;
use crate::positions::{Files, Pos};
use crate::texts::Bytes;
use std::alloc::Global;

/// Appends the line of each note, in order.
fn put_warnings(
    alloc: Global,
    text: &mut Vec<u8>,
    notes: &[Noted],
    files: &Files,
) -> Result<(), NoMemory>
    ensures { OnOk result
        (text.new.items ≡ text.old.items ++ flat_map (noted_line files.now) notes.now) }
{
    for noted in notes {
        let line = warning(alloc, &noted.note, &noted.pos, files)?;
        text.extend_from_slice(line.as_slice())?;
    }
    Ok(())
}

/// What a run that succeeds says of its notes: the head line and the line of each, or nothing where there is none.
pub fn remarks(alloc: Global, notes: &[Noted], files: &Files) -> Result<Bytes, NoMemory>
    ensures { IfOk result (λ text. text ≡ remarks files.now notes.now) }
{
    let mut text = Vec::new(alloc);
    if let Some(first) = notes.first() {
        let head = heading(alloc, &first.pos, files)?;
        text.extend_from_slice(head.as_slice())?;
        put_warnings(alloc, &mut text, notes, files)?;
    }
    Ok(Bytes::new(text))
}

/// What a run says that is refused for this fault: the head line of the first message, the line of each note before it, and its own.
pub fn refusal(
    alloc: Global,
    fault: &Fault,
    pos: &Pos,
    notes: &[Noted],
    files: &Files,
) -> Result<Bytes, NoMemory>
    ensures { IfOk result (λ text. text ≡ refusal files.now notes.now fault.now pos.now) }
{
    let first = match notes.first() {
        Some(noted) => noted.pos,
        None => *pos,
    };
    let head = heading(alloc, &first, files)?;
    let error = message(alloc, fault, pos, files)?;
    let mut text = Vec::from_slice(alloc, head.as_slice())?;
    put_warnings(alloc, &mut text, notes, files)?;
    text.extend_from_slice(error.as_slice())?;
    Ok(Bytes::new(text))
}
