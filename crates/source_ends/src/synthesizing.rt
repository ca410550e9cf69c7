//! From the functions of a source to their frame tables, or to the first fault of these.

ghost use Rattle.std.specs.Prelude.{◌≡◌, ◌<◌, All, IfOk, IfSome, length, slice_get};
ghost use Rattle.asm_functions.specs.Following.{end_of};
ghost use Rattle.assigned_forms.specs.Expanding.{AreExpansions};
ghost use Rattle.assigned_forms.specs.Linked.{linked_map};
ghost use Rattle.code_functions.specs.Recorded.{all_closed};
ghost use Rattle.flow_graph.specs.Nodes.{nodes_of};
ghost use Rattle.source_ends.specs.Synthesis as spec;
ghost use Rattle.source_ends.specs.Synthesis.{AnswersFrame, AnswersFrames, AnswersTable, IsReady};

use asm_base::{NoMemory, Place, Pos, Refusal, ScfiFault, Steps};
use asm_frags::Sections;
use asm_symbols::Symbols;
use asm_uses::spot_at;
use assigned_forms::{Expansions, linked_expansions};
use cfi_directives::{Frame, Frames, PlacedOp, PlacedOps};
use code_functions::{CodeItem, Function, Functions, SectionEnds};
use flow_graph::FinalForms;
use scfi_pass::{ItemFault, ItemOp, synthesize};
use std::alloc::Global;
use std::marker::Brand;
use std::sync::ledger::{Blank, Ledger};
use synthesis_laws::tables_are_of_items;

/// A fault of the synthesis of a frame table, and its place.
#[derive(Clone, Copy, Drop)]
pub(crate) struct ItemFaultAt {
    pub(crate) fault: ScfiFault,
    pub(crate) pos: Pos,
}

/// Where sections end.
#[derive(Clone, Copy)]
struct Ends<'a> {
    sections: &'a Sections,
}

impl<'a> SectionEnds for Ends<'a> {
    ghost use Rattle.asm_functions.specs.Following.{end_of};

    ghost ends = { λ inside. end_of inside.sections.now };

    fn end_of(&self, section: u32) -> Place {
        spot_at(self.sections, section).place.place
    }
}

/// The sections at the end of a source, and what the forms of its symbols come to.
#[derive(Clone, Copy)]
struct SourceForms<'a, 'b> {
    sections: &'a Sections,
    symbols: &'a Symbols,
    /// The expanded forms of all assigned symbols.
    expansions: &'a Expansions<'b>,
    /// The same, where weak aliases count as undefined.
    linked: &'a Expansions<'b>,
    ghost expanded: { AreExpansions symbols.now expansions.now },
    ghost left: { AreExpansions (linked_map symbols.now) linked.now },
}

/// An instruction of a frame table, at the place of its item.
#[tactic(auto, using(crate::proofs::FrameAnswers::place_at))]
fn placed_op(items: &[CodeItem], op: &ItemOp) -> PlacedOp
    requires { op.now.item < length items.now }
    ensures { result ≡ spec.placed_op items.now op.now }
{
    PlacedOp {
        place: items[op.item].place,
        op: op.op,
    }
}

/// The instructions of a frame table, at the places of their items.
#[tactic(auto, using(crate::proofs::FrameAnswers::one_within))]
fn placed_ops(alloc: Global, items: &[CodeItem], ops: &[ItemOp]) -> Result<PlacedOps, NoMemory>
    requires { All (λ op. op.item < length items.now) ops.now }
    ensures { IfOk result (λ placed. placed ≡ spec.placed_ops items.now ops.now) }
{
    let mut placed = PlacedOps::new(alloc);
    for op in ops {
        placed.add(placed_op(items, op))?;
    }
    Ok(placed)
}

/// A fault of a function, at the statement of its item.
#[tactic(auto, using(crate::proofs::FrameAnswers::statement_at))]
fn fault_at_item(items: &[CodeItem], item: usize, fault: ScfiFault) -> ItemFaultAt
    requires { item < length items.now }
    ensures { IfSome (slice_get items.now item) (λ found.
        result ≡ record { fault = fault; pos = found.pos }) }
{
    ItemFaultAt {
        fault,
        pos: items[item].pos,
    }
}

/// The instructions of the frame table of a function, with a count of steps of its own.
fn table_of<L: Ledger>(
    alloc: Global,
    function: &Function,
    forms: &FinalForms,
    blank: Blank,
) -> Result<PlacedOps, Refusal<ItemFaultAt>>
    requires name { blank.name ≡ L.name }
    requires parts { blank.parts ≡ L.parts }
    requires some { 0 < blank.parts }
    ensures { AnswersTable function.now.items.now
        (nodes_of forms.now.symbols.now function.now.section forms.now.fields.now
        function.now.items.now) result }
{
    tables_are_of_items();
    let mut steps = Steps::<L>::new(blank);
    match synthesize(alloc, function, forms, &mut steps) {
        Ok(ops) => Ok(placed_ops(alloc, function.items, ops.as_slice())?),
        Err(Refusal::Fault(ItemFault { item, fault })) => {
            Err(Refusal::Fault(fault_at_item(function.items, item, fault)))
        }
        Err(Refusal::NoMemory) => Err(Refusal::NoMemory),
    }
}

/// The frame of the function of this number, or its first fault.
#[tactic(auto, using(crate::proofs::FrameAnswers::section_there, crate::proofs::FrameAnswers::items_ready, crate::proofs::FrameAnswers::frame_answered, crate::proofs::FrameAnswers::fault_of_frame, crate::proofs::FrameAnswers::fields_are))]
fn frame_of(
    alloc: Global,
    functions: &Functions,
    number: usize,
    source: &SourceForms,
) -> Result<Frame, Refusal<ItemFaultAt>>
    requires there { number < length functions.now }
    requires ready { All (IsReady source.now.sections.now) functions.now }
    ensures { IfSome (slice_get functions.now number) (λ f.
        AnswersFrame source.now.symbols.now source.now.sections.now f result) }
{
    let extent = functions.extent(number);
    let function = functions.function(number);
    let forms = FinalForms {
        fields: source.sections.section(extent.section).fields(),
        symbols: source.symbols,
        expansions: source.expansions,
        linked: source.linked,
    };
    let ops = table_of::<Brand>(alloc, &function, &forms, Blank::new(1))?;
    Ok(Frame {
        pos: extent.pos,
        section: extent.section,
        start: extent.start,
        stop: extent.stop,
        personality: None,
        lsda: None,
        ops,
    })
}

/// The frames of all functions, in the order in which these begin, or the first fault.
#[tactic(auto, using(crate::proofs::FrameAnswers::frames_more, crate::proofs::FrameAnswers::frames_all, crate::proofs::FrameAnswers::fault_first))]
fn frames_of(
    alloc: Global,
    functions: &Functions,
    source: &SourceForms,
) -> Result<Frames, Refusal<ItemFaultAt>>
    requires { All (IsReady source.now.sections.now) functions.now }
    ensures { AnswersFrames source.now.symbols.now source.now.sections.now functions.now result }
{
    let mut frames = Frames::new(alloc);
    for number in 0..functions.len() {
        frames.add(frame_of(alloc, functions, number, source)?)?;
    }
    Ok(frames)
}

/// The frames that are worked out of the functions of a source, which end where their sections do, or
/// the first fault.
#[inline(never)]
pub(crate) fn synthesized(
    alloc: Global,
    mut functions: Functions,
    sections: &Sections,
    symbols: &Symbols,
) -> Result<Frames, Refusal<ItemFaultAt>>
    requires { All (IsReady sections.now) functions }
    ensures { AnswersFrames symbols.now sections.now
        (all_closed (end_of sections.now) functions) result }
{
    functions.end_all(&Ends { sections });
    let expansions = Expansions::new(alloc, symbols)?;
    let linked = linked_expansions(alloc, symbols)?;
    let source = SourceForms {
        sections,
        symbols,
        expansions: &expansions,
        linked: &linked,
    };
    frames_of(alloc, &functions, &source)
}
