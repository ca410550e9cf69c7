//! What holds of the definitions.

ghost use Rattle.std.specs.Prelude.{◌≡◌, ℕ, ◌<◌, ◌≤◌, List, [], ◌∷◌, ◌++◌, All, IsSome, None, Ok, Err, is_some};
ghost use Rattle.std.specs.Option.{option_map};
ghost use Rattle.cfi_rows.specs.declared.rows.CfiOp.{CfiOp};
ghost use Rattle.cfi_entries.specs.Places as places;
ghost use Rattle.cfi_rows.specs.Rows.{common_row, start_rows};
ghost use Rattle.cfi_entries.specs.Written.{written};
ghost use Rattle.cfi_directives.specs.declared.faults.CfiCause.{CfiCause};
ghost use Rattle.cfi_directives.specs.declared.lines.CfiLine.{CfiLine};
ghost use Rattle.cfi_directives.specs.declared.lines.CfiLine.TheVariants.{Row};
ghost use Rattle.cfi_directives.specs.declared.lines.RowDirective.{RowDirective};
ghost use Rattle.cfi_directives.specs.declared.frames.Frame.{Frame as FrameValue};
ghost use Rattle.cfi_directives.specs.declared.frames.PlacedOp.{PlacedOp};
ghost use Rattle.asm_base.specs.declared.places.Place.{Place};
ghost use Rattle.asm_base.specs.declared.places.SectionPlace.{SectionPlace};
ghost use Rattle.cfi_directives.specs.Faults.{IsRefused};
ghost use Rattle.cfi_directives.specs.Meanings.{AreOf, IsOfRegister};
ghost use Rattle.cfi_directives.specs.Meant.{AreSplit, KeepsOrder, from_start, ops_up_to, row_meant, stop_of};
ghost use Rattle.cfi_directives.specs.Order.{AreInOrder, HasComeTo, IsInOrder, IsReached, LinesNeverFall, NeverFall, op_places};
ghost use Rattle.cfi_directives.specs.Procedures.{Procedures};
ghost use Rattle.cfi_directives.specs.Rows.{at_addresses, rows_after};
ghost use Rattle.cfi_directives.specs.Sound.{AreSound, IsSound};
ghost use Rattle.cfi_directives.specs.Taking.{PlacedLine, procedures_of, taken};
ghost use Rattle.cfi_directives.specs.WorkedDirectives.{WorkedDirectives};
ghost use Rattle.cfi_directives.specs.Writable.{is_writable};

/// `OutOfRange` comes exactly where no bytes are written for the instruction.
#[tactic(auto, using(crate::proofs::WritableLemmas::forms))]
pub fn forms_are_written()
    ensures { (op : CfiOp) → is_writable op ≡ is_some (written op) }
{}

/// Directives are taken just where they are those of procedures, one behind the other, and make these procedures: each
/// instruction is what its directive says in the row in force behind the instructions before it.
pub fn directives_mean_procedures()
    ensures taken { (lines : List PlacedLine) (procedures : Procedures)
        → AreOf lines procedures.closed procedures.begun → procedures_of lines ≡ Ok procedures }
    ensures meant { (lines : List PlacedLine) (procedures : Procedures)
        → procedures_of lines ≡ Ok procedures → AreOf lines procedures.closed procedures.begun }
{}

/// A directive is refused exactly where it has a cause, and for that cause: `OutOfRange` where no form holds its
/// instruction; `CfiOutsideProcedure` where no procedure is open; `UnbalancedCfiState` where a procedure begins within one,
/// where the open one is in another section, where 16 rows are remembered and one more would be, and where none is there to
/// be restored.
pub fn faults_of_directives()
    ensures comes { (line : CfiLine) (at : SectionPlace) (procedures : Procedures)
        (cause : CfiCause) → AreSound procedures → taken line at procedures ≡ Err cause
        → IsRefused line at procedures cause }
    ensures exact { (line : CfiLine) (at : SectionPlace) (procedures : Procedures)
        (cause : CfiCause) → AreSound procedures → IsRefused line at procedures cause
        → taken line at procedures ≡ Err cause }
{}

/// The procedures of a list of directives grow by its last one, so that what `take` makes in turn is what the whole list
/// means.
#[tactic(auto, using(crate::proofs::TurnLemmas::procedures_grow))]
pub fn directives_are_taken_in_turn()
    ensures { (lines : List PlacedLine) (placed : PlacedLine) (procedures : Procedures)
        → procedures_of lines ≡ Ok procedures
        → procedures_of (lines ++ placed ∷ []) ≡ taken placed.line placed.at procedures }
{}

/// A directive that names several registers is refused just where its first one is: behind a directive that was taken, one
/// of a register is taken at the same place.
#[tactic(auto, using(crate::proofs::TurnLemmas::register_taken))]
pub fn further_registers_are_taken()
    ensures { (first second : RowDirective) (at : SectionPlace) (procedures next : Procedures)
        → taken (Row first) at procedures ≡ Ok next → IsOfRegister second
        → (after : Procedures) × (taken (Row second) at next ≡ Ok after) }
{}

/// The instructions of each procedure have forms, and can be run from the row of the common entry: one directive more keeps
/// it so.
pub fn procedures_are_sound()
    ensures kept { (line : CfiLine) (at : SectionPlace) (procedures next : Procedures)
        → taken line at procedures ≡ Ok next → AreSound procedures → AreSound next }
    ensures all { (lines : List PlacedLine) (procedures : Procedures)
        → procedures_of lines ≡ Ok procedures → AreSound procedures }
{}

/// Whatever addresses places get, the rows behind instructions at these addresses are those behind the instructions of the
/// procedure.
#[tactic(auto, using(crate::proofs::AddressLemmas::addressed_rows))]
pub fn addresses_change_no_row()
    ensures { (address : Place → ℕ) (ops : List PlacedOp)
        → places.rows_after common_row (at_addresses address ops) (start_rows common_row)
        ≡ rows_after ops }
{}

/// The row that a procedure has so far from its beginning, whatever addresses places get. It has one everywhere before its
/// end. It is the row behind the instructions that stand up to there, if all others stand past it; so they do where places
/// never fall and addresses keep their order. And it is the row of the instructions at their distances from the beginning,
/// as the bytes of an entry give it.
pub fn rows_are_meant()
    ensures each { (address : SectionPlace → ℕ) (frame : FrameValue) (at : ℕ) → IsSound frame
        → at < from_start address frame (stop_of frame) → IsSome (row_meant address frame at) }
    ensures there { (address : SectionPlace → ℕ) (frame : FrameValue) (at : ℕ)
        (before past : List PlacedOp) → AreSplit address frame at before past
        → at < from_start address frame (stop_of frame)
        → row_meant address frame at ≡ option_map (λ rows. rows.row) (rows_after before) }
    ensures ended { (address : SectionPlace → ℕ) (frame : FrameValue) (at : ℕ)
        → from_start address frame (stop_of frame) ≤ at → row_meant address frame at ≡ None }
    ensures split { (address : SectionPlace → ℕ) (frame : FrameValue) (at : ℕ)
        → KeepsOrder address frame.section → NeverFall (op_places frame)
        → (past : List PlacedOp)
        × AreSplit address frame at (ops_up_to address frame at frame.ops) past }
    ensures addressed { (address : SectionPlace → ℕ) (frame : FrameValue) (at : ℕ)
        → IsSound frame → at < from_start address frame (stop_of frame)
        → row_meant address frame at ≡ places.row_after common_row at
        (at_addresses (from_start address frame) frame.ops) (start_rows common_row) }
{}

/// Where the places of directives never fall, those of each procedure that has ended don't, from its beginning over its
/// instructions to its end: one directive more keeps it so. It takes the open procedure to its own place, or ends it; one of
/// a personality or an LSDA, which has no place in a procedure, takes it not past its own.
pub fn places_never_fall()
    ensures kept { (line : CfiLine) (at : SectionPlace) (procedures next : Procedures)
        → taken line at procedures ≡ Ok next → AreInOrder procedures → IsReached procedures at
        → AreInOrder next }
    ensures reached { (line : CfiLine) (at : SectionPlace) (procedures next : Procedures)
        → taken line at procedures ≡ Ok next → HasComeTo line at procedures next }
    ensures all { (lines : List PlacedLine) (procedures : Procedures)
        → procedures_of lines ≡ Ok procedures → LinesNeverFall lines
        → All IsInOrder procedures.closed }
{}

/// Directives and what they mean, worked out by hand.
#[tactic(auto, using(crate::proofs::WorkedLines::worked))]
pub fn worked_directives()
    ensures { WorkedDirectives }
{}
