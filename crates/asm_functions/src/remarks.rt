//! The note that directives of frame tables are ignored, where frame tables are worked out.

ghost use Rattle.std.specs.Prelude.{◌≡◌, ◌++◌, take, drop, OnOk, IfOk, false, Some};
ghost use Rattle.asm_functions.specs.FollowedSource.{with_remark};
ghost use Rattle.asm_functions.specs.Refusals.{IsRemarked};

use asm_base::{NoMemory, Note, Noted, Notes, Pos, Refusal, Text};
use asm_place::{BoxedFault, FaultAt};
use std::alloc::{AllocError, Global};

/// The first directive that was ignored.
#[derive(Clone, Copy)]
pub struct Ignored {
    /// Where its statement is.
    pub pos: Pos,
    /// How many notes stand before it.
    pub before: usize,
}

/// The same note.
fn copied(alloc: Global, noted: &Noted) -> Result<Noted, NoMemory>
    ensures { IfOk result (λ copy. copy ≡ noted.now) }
{
    let note = match &noted.note {
        Note::Written(text) => Note::Written(Text::new(Vec::from_slice(alloc, text.as_bytes())?)),
        Note::CfiIgnored => Note::CfiIgnored,
        Note::ValueTruncated => Note::ValueTruncated,
    };
    Ok(Noted {
        note,
        pos: noted.pos,
    })
}

/// Puts the same notes last.
fn add_copied(alloc: Global, all: &mut Notes, notes: &[Noted]) -> Result<(), NoMemory>
    ensures { OnOk result (all.new ≡ all.old ++ notes.now) }
{
    for noted in notes {
        all.add(copied(alloc, noted)?)?;
    }
    Ok(())
}

/// So many of the notes, or all.
#[tactic(auto, using(std::proofs::lemmas::List::take_all))]
fn first_notes(notes: &[Noted], count: usize) -> &[Noted]
    ensures { result.now ≡ take count notes.now }
{
    if count < notes.len() {
        &notes[..count]
    } else {
        notes
    }
}

/// The notes behind so many.
#[tactic(auto, using(std::proofs::lemmas::List::drop_all))]
fn last_notes(notes: &[Noted], count: usize) -> &[Noted]
    ensures { result.now ≡ drop count notes.now }
{
    if count < notes.len() {
        &notes[count..]
    } else {
        &[]
    }
}

/// The notes with the remark among them. They are copied, which a source that has it pays once.
fn with_note(alloc: Global, first: Ignored, notes: &[Noted]) -> Result<Notes, NoMemory>
    ensures { IfOk result (λ all. all ≡ with_remark false (Some first) notes.now) }
{
    let mut all = Notes::new(alloc);
    add_copied(alloc, &mut all, first_notes(notes, first.before))?;
    all.add(Noted {
        note: Note::CfiIgnored,
        pos: first.pos,
    })?;
    add_copied(alloc, &mut all, last_notes(notes, first.before))?;
    Ok(all)
}

/// The notes with the remark that directives were ignored, where any was, unless no warning is to
/// be made.
pub fn with_remark(
    alloc: Global,
    no_warn: bool,
    ignored: Option<Ignored>,
    notes: Notes,
) -> Result<Notes, NoMemory>
    ensures { IfOk result (λ all. all ≡ with_remark no_warn ignored notes) }
{
    match ignored {
        None => Ok(notes),
        Some(first) => {
            if no_warn {
                Ok(notes)
            } else {
                with_note(alloc, first, notes.as_slice())
            }
        }
    }
}

/// The refusal of a statement, with the remark among its notes.
#[inline(never)]
pub(crate) fn remarked(
    alloc: Global,
    no_warn: bool,
    ignored: Option<Ignored>,
    refusal: Refusal<BoxedFault>,
) -> Refusal<BoxedFault>
    ensures { IsRemarked no_warn ignored refusal result }
{
    let boxed = match refusal {
        Refusal::NoMemory => return Refusal::NoMemory,
        Refusal::Fault(boxed) => boxed,
    };
    let FaultAt { fault, pos, notes } = boxed.into_fault();
    match with_remark(alloc, no_warn, ignored, notes) {
        Ok(notes) => match BoxedFault::new(alloc, FaultAt { fault, pos, notes }) {
            Ok(boxed) => Refusal::Fault(boxed),
            Err(_) => Refusal::NoMemory,
        },
        Err(AllocError) => Refusal::NoMemory,
    }
}
