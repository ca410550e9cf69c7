//! Expanding a source: each statement that its list comes to is placed, in order.

ghost use Rattle.std.specs.Prelude.{◌≡◌, ◌≤◌, ◌<◌, length, OnOk};
ghost use Rattle.std.specs.Io.KnownBytes.{IsAtEnd};
ghost use Rattle.asm_lines.specs.Statements.{statements_of};
ghost use Rattle.asm_macro.specs.Placing.{expansion};
ghost use Rattle.asm_macro.specs.Expanding.{IsExpansion, HasExpansionCause, CountsMisses, KeepsMissing, ReadsIncludes, StartsIncludes, TakesIncludes, TakesTooLarge};

use crate::faults::ExpandFault;
use crate::sources::expand_alone;
use asm_base::{Files, Inputs, Text};
use macro_words::KnowingPlacer;
use std::alloc::Global;
use std::marker::Brand;
use std::sync::ledger::Blank;

/// Places each statement that the list of a source comes to, in order (GNU as manual, ".macro", ".rept", ".irp", ".irpc",
/// ".if", ".include"). The source is the one file that was started; the files that it includes go behind it.
pub fn expand_source<P: KnowingPlacer, I: Inputs>(
    alloc: Global,
    text: Text,
    files: &mut Files,
    placer: &mut P,
    ins: &mut I,
) -> Result<(), ExpandFault<P::Fault>>
    requires { length files.old ≡ 1 }
    ensures outcome { IsExpansion
        (expansion P.placed P.told (I.contents ins.old) files.old placer.old (statements_of 0 text))
        (statements_of 0 text) result files.new placer.new }
    ensures cause { HasExpansionCause result (I.faults ins.old) (I.faults ins.new) }
    ensures missing { CountsMisses
        (expansion P.placed P.told (I.contents ins.old) files.old placer.old (statements_of 0 text))
        (I.missing ins.old) (I.missing ins.new) }
    ensures found { KeepsMissing result (I.missing ins.old) (I.missing ins.new) }
    ensures contents { I.contents ins.new ≡ I.contents ins.old }
    ensures history { ReadsIncludes result 1 files.new (I.history ins.old) (I.history ins.new) }
    ensures taken { TakesIncludes result files.new (I.taken ins.old) (I.taken ins.new) }
    ensures starts { StartsIncludes
        (expansion P.placed P.told (I.contents ins.old) files.old placer.old (statements_of 0 text))
        1 files.new (I.history ins.old) (I.history ins.new) (I.taken ins.old) (I.taken ins.new) }
    ensures too_large { TakesTooLarge result (I.taken ins.old) (I.taken ins.new) }
    ensures whole { IsAtEnd (I.rest ins.old) → OnOk result (IsAtEnd (I.rest ins.new)) }
    ensures started { 0 < length files.new }
{
    expand_alone::<P, I, Brand>(alloc, text, files, placer, ins, Blank::new(1))
}
