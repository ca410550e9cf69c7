//! Directives of pointers: how each is written, and what it leads to (GNU as manual, "CFI directives").

ghost use Rattle.std.specs.Prelude.{◌≡◌, map};
ghost use Rattle.asm_base.specs.Refusals.{GivesBy, Gives, Returns};
ghost use Rattle.asm_base.specs.Tokens.{spelled};
ghost use Rattle.asm_operands.specs.OperandParts.{operands_left};
ghost use Rattle.asm_operands.specs.UpToThreeTrees.{trees_in};
ghost use Rattle.asm_values.specs.PlacedBy.{PlacesBy};
ghost use Rattle.asm_frames.specs.Placing.{place_pointer};
ghost use Rattle.asm_frames.specs.Pointers as spec;

use crate::taking::take_line;
use asm_base::{Pos, Token};
use asm_expr::{Expr, Linear};
use asm_operands::{
    Operands, PlaceCause, PlaceFault, UpToThree, constant_in, expression_of, no_more,
};
use asm_uses::{View, up_to_three_forms, uses_place};
use asm_values::Assembler;
use cfi_directives::{CfiLine, Pointer, PointerKind};
use cfi_rows::PointerEncoding;
use std::alloc::Global;

/// The number of the encoding that says that there is no pointer.
const OMITTED: u64 = 0xff;

/// An encoding, and at most one expression more.
#[tactic(auto, unfolding(crate::specs::Pointers::pointer_trees))]
fn pointer_trees(alloc: Global, operands: &mut Operands) -> Result<UpToThree<Expr>, PlaceFault>
    ensures { GivesBy trees_in result (spec.pointer_trees (operands_left operands.old)) }
{
    let Some(encoding) = operands.next() else {
        return Err(PlaceFault::Fault(PlaceCause::BadExpression));
    };
    let first = expression_of(alloc, encoding)?;
    let second = match operands.next() {
        Some(target) => Some(expression_of(alloc, target)?),
        None => None,
    };
    no_more(
        operands,
        UpToThree {
            first,
            second,
            third: None,
        },
    )
}

/// The encoding that a number says.
fn encoding_of(number: u64) -> Result<PointerEncoding, PlaceFault>
    ensures { Returns result (spec.encoding_of number) }
{
    PointerEncoding::of(number).ok_or(PlaceFault::Fault(PlaceCause::OutOfRange))
}

/// The pointer of this encoding.
fn pointer_of(number: u64, target: Option<Linear>) -> Result<Option<Pointer>, PlaceFault>
    ensures { Returns result (spec.pointer_of number target) }
{
    if number == OMITTED {
        return match target {
            None => Ok(None),
            Some(_) => Err(PlaceFault::Fault(PlaceCause::BadOperand)),
        };
    }
    let encoding = encoding_of(number)?;
    match target {
        None => Err(PlaceFault::Fault(PlaceCause::BadExpression)),
        Some(target) => Ok(Some(Pointer { encoding, target })),
    }
}

/// The pointer that the forms of the operands say: the number of an encoding, which has to be known, and what the pointer
/// leads to.
fn pointer_in(forms: UpToThree<Linear>) -> Result<Option<Pointer>, PlaceFault>
    ensures { Returns result (spec.pointer_in forms) }
{
    let UpToThree { first, second, .. } = forms;
    let number = constant_in(&first)?;
    pointer_of(number, second)
}

/// Whether a form that may be missing keeps the symbol of the place.
fn keeps_place(place: u32, form: &Option<Linear>) -> bool
    ensures { result ≡ spec.keeps_place place form.now }
{
    match form {
        None => false,
        Some(form) => uses_place(place, form),
    }
}

/// A directive of a pointer.
#[tactic(auto, unfolding(crate::specs::Placing::place_pointer))]
pub(crate) fn place_pointer(
    assembler: &mut Assembler,
    kind: PointerKind,
    pos: Pos,
    tokens: &[Token],
) -> Result<(), PlaceFault>
    ensures placed { PlacesBy (place_pointer kind pos (map spelled tokens.now))
        assembler.old assembler.new result }
    ensures kept { assembler.new.notes ≡ assembler.old.notes }
{
    let exprs = pointer_trees(assembler.alloc, &mut Operands::new(tokens))?;
    let naming = assembler.table.intern_up_to_three(pos, &exprs)?;
    let view = assembler.view();
    let forms = up_to_three_forms(assembler.alloc, view, &exprs)?;
    let View { spot, place, .. } = view;
    let keeps = keeps_place(place, &forms.second);
    let pointer = pointer_in(forms)?;
    assembler.table.end_naming(pos, naming, spot, keeps)?;
    take_line(assembler, CfiLine::Point(kind, pointer))
}
