//! The end of a source: the frame table of its procedures, or of its functions, its line table, the layout of what was
//! placed with them, and its object, or the first fault of these.

ghost use Rattle.std.specs.Prelude.{◌≡◌, ◌<◌, All, IfOk, Ok, OnOk, length};
ghost use Rattle.source_ends.specs.Ending as spec;
ghost use Rattle.source_ends.specs.Fitting.{AnswersWithFrames, LayoutFits, TablesFit};
ghost use Rattle.source_ends.specs.Synthesis.{IsReady};
ghost use Rattle.asm_functions.specs.Following.{end_of};
ghost use Rattle.code_functions.specs.Recorded.{all_closed};
ghost use Rattle.elf_object.specs.Limits.{NumbersFit};
ghost use Rattle.asm_base.specs.Refusals.{GivesBy, Raises, Returns};
ghost use Rattle.asm_base.specs.declared.refusals.Refusal.TheVariants as refusal;
ghost use Rattle.cfi_directives.specs.Procedures.{frames_of};
ghost use Rattle.table_pieces.specs.Pieces.{tables_of};
ghost use Rattle.eh_frame.specs.Placing.{placed};
ghost use Rattle.line_table.specs.Placing as line_table;
ghost use Rattle.asm_place.specs.Sources.{fault_at};
ghost use Rattle.asm_relax.specs.declared.plan_states.PlanState.TheVariants.{Fresh, LaidOut};
ghost use Rattle.asm_relax.specs.Settling.{layout_of, settled_plan, IsLaidOut, Settles};
ghost use Rattle.layout_counts.specs.Counted.{near_jumps, rounds_of, text_bytes};
ghost use Rattle.elf_object.specs.Objects.{object_of};

use crate::synthesizing::{ItemFaultAt, synthesized};
use asm_base::{EndFault, Fault, Noted, Notes, Pos, Refusal, StatementFault, Steps};
use asm_frags::{FragCause, Laid, Sections};
use asm_place::FaultAt;
use asm_relax::{LayoutFault, Plan, Settled};
use asm_uses::SymbolUses;
use asm_values::Placed;
use cfi_directives::{Directives, Frames};
use code_functions::Functions;
use elf_object::{Object, ObjectCause, ObjectFault};
use layout_counts::{LayoutCounts, count_layout, rounds_are_counted};
use line_directives::Lines;
use std::alloc::Global;
use std::marker::Brand;
use std::sync::ledger::{Blank, Ledger};

/// A fault that is found at the end of a source, and its place.
#[derive(Clone, Copy, Drop)]
pub(crate) struct Ended {
    pub(crate) fault: EndFault,
    pub(crate) pos: Pos,
}

/// The first line of the source file.
const SOURCE_START: Pos = Pos { file: 0, line: 1 };

/// The fault of the layout.
fn layout_end(fault: LayoutFault) -> Ended
    ensures { result ≡ spec.layout_end fault }
{
    match fault {
        LayoutFault::SectionTooLarge { pos, .. } => Ended {
            fault: EndFault::SectionTooLarge,
            pos,
        },
        LayoutFault::OrgMovesBackwards { pos } => Ended {
            fault: EndFault::OrgMovesBackwards,
            pos,
        },
        LayoutFault::DistanceOutOfRange { pos, .. } => Ended {
            fault: EndFault::DistanceOutOfRange,
            pos,
        },
    }
}

/// The place where a symbol is first named.
fn named_at(named: &[Pos], index: usize) -> Pos
    ensures { result ≡ spec.named_at named.now index }
{
    named.get(index).copied().unwrap_or(SOURCE_START)
}

/// The place of the `.size` statement of a symbol.
fn sized_at(table: &SymbolUses, index: usize) -> Pos
    ensures { result ≡ spec.sized_at table.now.sized index }
{
    if index < 0x1_0000_0000 {
        table.sized(index as u32).unwrap_or(SOURCE_START)
    } else {
        SOURCE_START
    }
}

/// The fault of the object, at the first statement that names the symbol, at that of the field, or at the `.size` statement.
fn object_end(table: &SymbolUses, cause: ObjectCause) -> Ended
    ensures { result ≡ spec.object_end table.now cause }
{
    let (fault, pos) = match cause {
        ObjectCause::UndefinedLocalSymbol(index) => (
            EndFault::UndefinedLocalSymbol,
            named_at(table.named(), index),
        ),
        ObjectCause::NoRelocation(pos) => (EndFault::NoRelocation, pos),
        ObjectCause::SizeNotKnown(index) => (EndFault::NoRelocation, sized_at(table, index)),
    };
    Ended { fault, pos }
}

/// The refusal of the object, as one at the end of the source.
fn object_refusal(table: &SymbolUses, refusal: ObjectFault) -> Refusal<Ended>
    ensures { Raises (λ cause ended. ended ≡ spec.object_end table.now cause) refusal result }
{
    match refusal {
        ObjectFault::Fault(cause) => Refusal::Fault(object_end(table, cause)),
        ObjectFault::NoMemory => Refusal::NoMemory,
    }
}

/// The place of the first warning, where warnings are to refuse the run.
fn first_warning(fatal: bool, notes: &[Noted]) -> Option<Pos>
    ensures { result ≡ spec.first_warning fatal notes.now }
{
    if !fatal {
        return None;
    }
    match notes.first() {
        Some(noted) => Some(noted.pos),
        None => None,
    }
}

/// What is counted of a source with an object.
#[derive(Clone, Copy, PartialEq, Eq, Debug)]
pub struct Counts {
    /// The functions that were followed; none where frame tables are not worked out of them.
    pub functions: u64,
    /// The size of the first section, which is `.text`, in bytes.
    pub text_bytes: u64,
    /// The jumps that take more than two bytes.
    pub near_jumps: u64,
    /// The rounds of the layout: one more than those that raised levels.
    pub rounds: u64,
    /// The entries of the frame table for procedures or functions.
    pub frames: u64,
}

/// An object, the notes of its source, and what is counted of that.
#[derive(Drop)]
pub struct NotedObject {
    pub object: Object,
    pub notes: Notes,
    pub counts: Counts,
}

/// The object of a layout, or its first fault; warnings come last.
fn made_end(
    alloc: Global,
    fatal: bool,
    sections: Sections<Laid>,
    table: &SymbolUses,
    notes: &[Noted],
) -> Result<Object, Refusal<Ended>>
    ensures object { Returns result (spec.made_end fatal table.now notes.now
        (object_of table.now.symbols sections)) }
    ensures numbers { OnOk result (NumbersFit table.now.symbols sections) }
{
    match Object::new(alloc, sections, table.symbols()) {
        Ok(object) => match first_warning(fatal, notes) {
            Some(pos) => {
                let fault = EndFault::WarningsAreErrors;
                Err(Refusal::Fault(Ended { fault, pos }))
            }
            None => Ok(object),
        },
        Err(refusal) => Err(object_refusal(table, refusal)),
    }
}

/// Settles a plan, with a count of steps of its own.
fn settled<L: Ledger>(plan: &mut Plan, blank: Blank) -> Result<Settled, LayoutFault>
    requires name { blank.name ≡ L.name }
    requires parts { blank.parts ≡ L.parts }
    requires some { 0 < blank.parts }
    requires fresh { plan.old.state ≡ Fresh }
    ensures value { Settles plan.new.sections result
        (settled_plan plan.old.map plan.old.sections) }
    ensures layout { IfOk result (λ done.
        IsLaidOut plan.old.map plan.old.sections plan.new.sections done.rounds) }
    ensures laid { OnOk result (plan.new.state ≡ LaidOut) }
{
    let mut steps = Steps::<L>::new(blank);
    plan.settle(&mut steps)
}

/// An object, with what is counted of its layout.
#[derive(Drop)]
struct LaidObject {
    object: Object,
    counts: LayoutCounts,
    rounds: u64,
}

/// The object of the placed sections, or the first fault of layout and object.
fn placed_object(
    alloc: Global,
    fatal: bool,
    sections: Sections,
    table: &SymbolUses,
    notes: &[Noted],
) -> Result<LaidObject, Refusal<Ended>>
    ensures object { GivesBy (λ laid. laid.object) result (spec.laid_end fatal table.now notes.now
        (layout_of table.now.symbols sections)) }
    ensures text { IfOk result (λ laid. laid.counts.text_bytes
        ≡ text_bytes (spec.laid_of (layout_of table.now.symbols sections))) }
    ensures jumps { IfOk result (λ laid. laid.counts.near_jumps
        ≡ near_jumps (spec.laid_of (layout_of table.now.symbols sections))) }
    ensures rounds { IfOk result (λ laid. laid.rounds ≡ rounds_of table.now.symbols sections) }
    ensures numbers { OnOk result (LayoutFits table.now.symbols
        (layout_of table.now.symbols sections)) }
{
    rounds_are_counted();
    let mut plan = Plan::new(alloc, sections, table.symbols())?;
    let rounds = match settled::<Brand>(&mut plan, Blank::new(1)) {
        Ok(Settled { rounds }) => rounds,
        Err(fault) => return Err(Refusal::Fault(layout_end(fault))),
    };
    let laid = plan.laid();
    let Some(counts) = count_layout(&laid) else {
        return Err(Refusal::NoMemory);
    };
    match made_end(alloc, fatal, laid, table, notes) {
        Ok(object) => Ok(LaidObject {
            object,
            counts,
            rounds,
        }),
        Err(refusal) => Err(refusal),
    }
}

/// How many functions and frames a source has.
#[derive(Clone, Copy, Drop)]
struct FramedCounts {
    functions: u64,
    frames: u64,
}

/// A fault at the end of a source, behind its notes.
fn refused(fault: Fault, pos: Pos, notes: Notes) -> Refusal<FaultAt>
    ensures { result ≡ refusal.Fault (fault_at fault pos notes) }
{
    Refusal::Fault(FaultAt { fault, pos, notes })
}

/// The object of the placed sections, or the first fault of layout and object, with what is counted and the notes.
#[tactic(auto, unfolding(crate::specs::Ending::counts_of))]
fn noted_object(
    alloc: Global,
    fatal: bool,
    counted: FramedCounts,
    sections: Sections,
    table: &SymbolUses,
    notes: Notes,
) -> Result<NotedObject, Refusal<FaultAt>>
    ensures object { Returns result (spec.noted
        (spec.counts_of counted.functions counted.frames table.now.symbols sections) notes
        (spec.laid_end fatal table.now notes (layout_of table.now.symbols sections))) }
    ensures numbers { OnOk result (LayoutFits table.now.symbols
        (layout_of table.now.symbols sections)) }
{
    match placed_object(alloc, fatal, sections, table, notes.as_slice()) {
        Ok(
            LaidObject {
                object,
                counts,
                rounds,
            },
        ) => Ok(NotedObject {
            object,
            notes,
            counts: Counts {
                functions: counted.functions,
                text_bytes: counts.text_bytes,
                near_jumps: counts.near_jumps,
                rounds,
                frames: counted.frames,
            },
        }),
        Err(Refusal::Fault(ended)) => Err(refused(Fault::End(ended.fault), ended.pos, notes)),
        Err(Refusal::NoMemory) => Err(Refusal::NoMemory),
    }
}

/// The fault of a frame table, and of a line table.
fn table_fault(cause: FragCause) -> Fault
    ensures { result ≡ spec.table_fault cause }
{
    match cause {
        FragCause::BadSection => Fault::Statement(StatementFault::BadSection),
    }
}

/// The procedures, and where one begins that is not closed: it is the last.
fn procedures_of(procedures: Directives) -> (Frames, Option<Pos>)
    ensures frames { result.0 ≡ frames_of procedures }
    ensures unclosed { result.1 ≡ spec.unclosed procedures }
{
    let open = procedures.is_open();
    let frames = procedures.into_frames();
    let pos = if open { last_line(&frames) } else { None };
    (frames, pos)
}

/// The line of the last procedure.
fn last_line(frames: &Frames) -> Option<Pos>
    ensures { result ≡ spec.last_line frames.now }
{
    let all = frames.as_slice();
    match all.get(all.len().saturating_sub(1)) {
        Some(frame) => Some(frame.pos),
        None => None,
    }
}

/// The line of the first procedure.
fn first_line(frames: &Frames) -> Pos
    ensures { result ≡ spec.first_line frames.now }
{
    match frames.as_slice() {
        [] => SOURCE_START,
        [frame, ..] => frame.pos,
    }
}

/// The object of the placed sections with the line table, or the first fault of these.
fn lined_object(
    alloc: Global,
    fatal: bool,
    counted: FramedCounts,
    mut sections: Sections,
    mut table: SymbolUses,
    lines: Lines,
    notes: Notes,
) -> Result<NotedObject, Refusal<FaultAt>>
    ensures object { Returns result (spec.lined_end fatal counted.functions counted.frames table
        lines notes (line_table.placed lines (tables_of table.symbols sections))) }
    ensures numbers { OnOk result (TablesFit
        (line_table.placed lines (tables_of table.symbols sections))) }
{
    let first = lines.first().unwrap_or(SOURCE_START);
    // Its labels are named by no statement.
    let put = line_table::place(alloc, &lines, table.symbols_mut(), &mut sections);
    // Layout takes room of its own.
    drop(lines);
    match put {
        Ok(()) => noted_object(alloc, fatal, counted, sections, &table, notes),
        Err(Refusal::Fault(cause)) => Err(refused(table_fault(cause), first, notes)),
        Err(Refusal::NoMemory) => Err(Refusal::NoMemory),
    }
}

/// The object of the placed sections with the frame table of the procedures and the line table, or the first fault of these.
fn framed_object(
    alloc: Global,
    fatal: bool,
    functions: u64,
    mut sections: Sections,
    mut table: SymbolUses,
    frames: Frames,
    lines: Lines,
    notes: Notes,
) -> Result<NotedObject, Refusal<FaultAt>>
    ensures object { Returns result (spec.framed_end fatal functions table frames lines notes
        (placed frames (tables_of table.symbols sections))) }
    ensures numbers { OnOk result (TablesFit (spec.lines_behind lines
        (placed frames (tables_of table.symbols sections)))) }
{
    let first = first_line(&frames);
    let counted = FramedCounts {
        functions,
        frames: frames.as_slice().len() as u64,
    };
    // Its labels are named by no statement.
    let put = eh_frame::place(alloc, &frames, table.symbols_mut(), &mut sections);
    // Layout takes room of its own.
    drop(frames);
    match put {
        Ok(()) => lined_object(alloc, fatal, counted, sections, table, lines, notes),
        Err(Refusal::Fault(cause)) => Err(refused(table_fault(cause), first, notes)),
        Err(Refusal::NoMemory) => Err(Refusal::NoMemory),
    }
}

/// The object with the frame tables that are worked out of the functions, of which so many are counted, or the first fault at
/// the end: those of functions come before all others.
#[tactic(auto, using(crate::proofs::SynthesizedEnds::frames_made, crate::proofs::SynthesizedEnds::fault_made))]
pub fn synthesized_object(
    alloc: Global,
    fatal: bool,
    count: u64,
    parts: Placed,
    functions: Functions,
) -> Result<NotedObject, Refusal<FaultAt>>
    requires { All (IsReady parts.sections) functions }
    ensures { AnswersWithFrames fatal count parts.sections parts.table parts.lines
        (all_closed (end_of parts.sections) functions) parts.notes result }
{
    let Placed {
        sections,
        table,
        lines,
        notes,
        ..
    } = parts;
    match synthesized(alloc, functions, &sections, table.symbols()) {
        Ok(frames) => framed_object(alloc, fatal, count, sections, table, frames, lines, notes),
        Err(Refusal::Fault(ItemFaultAt { fault, pos })) => {
            Err(refused(Fault::Scfi(fault), pos, notes))
        }
        Err(Refusal::NoMemory) => Err(Refusal::NoMemory),
    }
}

/// What was placed with its object, or the first fault at the end behind the notes: that of a procedure that is not closed
/// comes before all others. So many functions are counted.
#[tactic(auto, unfolding(crate::specs::Ending::finished))]
pub fn finished(
    alloc: Global,
    fatal: bool,
    functions: u64,
    parts: Placed,
) -> Result<NotedObject, Refusal<FaultAt>>
    ensures object { Returns result (spec.finished fatal functions parts.sections parts.table
        parts.procedures parts.lines parts.notes) }
    ensures numbers { OnOk result (TablesFit (spec.with_tables parts.procedures parts.lines
        parts.table.symbols parts.sections)) }
{
    let Placed {
        sections,
        table,
        procedures,
        lines,
        notes,
    } = parts;
    let (frames, unclosed) = procedures_of(procedures);
    if let Some(pos) = unclosed {
        let fault = Fault::End(EndFault::UnclosedProcedure);
        return Err(refused(fault, pos, notes));
    }
    framed_object(
        alloc, fatal, functions, sections, table, frames, lines, notes,
    )
}
