//! Which sections and symbols relocations name.

ghost use Rattle.std.specs.Prelude.{◌≡◌, length, map, IfOk, slice_set, true};
ghost use Rattle.elf_object.specs.Naming.{is_thread_kind, named_of};
ghost use Rattle.elf_object.specs.Marking.{Marks};
ghost use Rattle.elf_symbols.specs.Views.{named_view};
ghost use Rattle.elf_object.specs.Views.{relocations_in};

use crate::contents::HeldSection;
use crate::relocations::{Relocation, RelocationKind};
use elf_symbols::{Named, Target};
use std::alloc::{AllocError, Global};

/// Sets the mark at the index, if there is one.
fn mark(marks: &mut [bool], index: usize)
    ensures { marks.new ≡ slice_set marks.old index true }
{
    if index < marks.len() {
        marks[index] = true;
    }
}

/// Whether the relocation asks for the symbol's offset from the thread pointer.
fn is_thread_kind(kind: RelocationKind) -> bool
    ensures { result ≡ is_thread_kind kind }
{
    matches!(kind, RelocationKind::GotTpOff | RelocationKind::TpOff32)
}

/// Marks what these relocations name.
fn mark_all(named: &mut Named, relocations: &[Relocation])
    ensures { Marks (named_view named.old) (named_view named.new) relocations.now }
{
    for relocation in relocations {
        match relocation.target {
            Target::OfSection(number) => mark(&mut named.sections, number),
            Target::OfSymbol(index) => {
                mark(&mut named.symbols, index);
                if is_thread_kind(relocation.kind) {
                    mark(&mut named.thread_locals, index);
                }
            }
        }
    }
}

/// What the relocations of all sections name, of so many symbols.
#[tactic(auto, unfolding(crate::specs::Naming::named_of))]
pub(crate) fn named_by(
    alloc: Global,
    held: &[HeldSection],
    symbols: usize,
) -> Result<Named, AllocError>
    ensures { IfOk result (λ named. named_view named
        ≡ named_of (map relocations_in held.now) symbols) }
{
    let mut named = Named {
        sections: vec![in alloc; false; held.len()]?,
        symbols: vec![in alloc; false; symbols]?,
        thread_locals: vec![in alloc; false; symbols]?,
    };
    for section in held {
        mark_all(&mut named, &section.relocations);
    }
    Ok(named)
}
