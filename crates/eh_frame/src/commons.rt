//! CIEs, common information entries: one for the procedures whose pointers are written alike and that have one personality.

ghost use Rattle.std.specs.Prelude.{◌≡◌, ℕ, List, ◌∷◌, OnOk, IfOk, IfErr, IfSome};
ghost use Rattle.asm_base.specs.declared.refusals.Refusal.TheVariants.{NoMemory};
ghost use Rattle.table_pieces.specs.Ends as ends;
ghost use Rattle.table_pieces.specs.Pieces.{Piece, Takes, pieces_put, tables_of};
ghost use Rattle.eh_frame.specs.Commons as spec;

use asm_expr::{Linear, Term, copied_form, plus_times, symbol_form};
use asm_frags::{FieldSize, FragFault, Sections, own_place};
use asm_symbols::Symbols;
use cfi_directives::{Frame, Pointer};
use cfi_rows::{CommonForm, PointerEncoding, common_head, common_tail};
use std::alloc::Global;
use table_pieces::{SectionEnd, Table, put_field, put_plain};

/// How a pointer is written, where there is one.
fn encoding(pointer: &Option<Pointer>) -> Option<PointerEncoding>
    ensures { result ≡ spec.encoding_if pointer.now }
{
    match pointer {
        Some(pointer) => Some(pointer.encoding),
        None => None,
    }
}

/// What the CIE of a procedure says.
pub(crate) fn form_of(frame: &Frame) -> CommonForm
    ensures { result ≡ spec.form_of frame.now }
{
    CommonForm {
        personality: encoding(&frame.personality),
        lsda: encoding(&frame.lsda),
    }
}

/// Whether both are the same symbol, as often.
fn same_term(one: Term, other: Term) -> bool
    ensures { result ≡ spec.same_term one other }
{
    one.symbol == other.symbol && one.coefficient == other.coefficient
}

/// Whether both are the same terms in the same order.
#[tactic(auto, using(crate::proofs::CommonLemmas::terms_apart, crate::proofs::CommonLemmas::terms_more, crate::proofs::CommonLemmas::terms_not, crate::proofs::CommonLemmas::terms_all))]
fn same_terms(one: &[Term], other: &[Term]) -> bool
    ensures { result ≡ spec.same_terms one.now other.now }
{
    if one.len() != other.len() {
        return false;
    }
    for i in 0..one.len() {
        if !same_term(one[i], other[i]) {
            return false;
        }
    }
    true
}

/// Whether both are the same form.
fn same_form(one: &Linear, other: &Linear) -> bool
    ensures { result ≡ spec.same_form one.now other.now }
{
    one.constant() == other.constant() && same_terms(one.terms(), other.terms())
}

/// Whether both lead to the same, and are written alike.
fn same_pointer(one: &Option<Pointer>, other: &Option<Pointer>) -> bool
    ensures { result ≡ spec.same_pointer one.now other.now }
{
    match (one, other) {
        (None, None) => true,
        (Some(one), Some(other)) => {
            one.encoding == other.encoding && same_form(&one.target, &other.target)
        }
        _ => false,
    }
}

/// Whether both procedures have one CIE.
pub(crate) fn share_common(one: &Frame, other: &Frame) -> bool
    ensures { result ≡ spec.share_common one.now other.now }
{
    encoding(&one.lsda) == encoding(&other.lsda)
        && same_pointer(&one.personality, &other.personality)
}

/// How many bytes a pointer of this encoding has.
fn pointer_field(encoding: PointerEncoding) -> FieldSize
    ensures { result ≡ spec.pointer_field encoding }
{
    if encoding.is_wide() {
        FieldSize::Eight
    } else {
        FieldSize::Four
    }
}

/// The form of a pointer as it is written.
fn pointer_form(alloc: Global, pointer: &Pointer) -> Result<Linear, FragFault>
    ensures form { IfOk result (λ form. form ≡ spec.pointer_form pointer.now) }
    ensures memory { IfErr result (λ fault. fault ≡ NoMemory) }
{
    let target = copied_form(alloc, &pointer.target)?;
    if pointer.encoding.is_relative() {
        let own = symbol_form(alloc, own_place())?;
        Ok(plus_times(target, u64::MAX, &own)?)
    } else {
        Ok(target)
    }
}

/// Puts a pointer, where there is one.
pub(crate) fn put_pointer_if(
    alloc: Global,
    symbols: &Symbols,
    sections: &mut Sections,
    table: Table,
    pointer: &Option<Pointer>,
) -> Result<(), FragFault>
    requires { Takes table.section sections.old }
    ensures ok { (pieces : List Piece) → OnOk result (
        pieces_put table.section table.pos pieces (tables_of symbols.now sections.new)
        ≡ pieces_put table.section table.pos (spec.with_pointer pointer.now pieces)
        (tables_of symbols.now sections.old)) }
    ensures takes { OnOk result (Takes table.section sections.new) }
    ensures memory { IfErr result (λ fault. fault ≡ NoMemory) }
{
    match pointer {
        None => Ok(()),
        Some(pointer) => {
            let form = pointer_form(alloc, pointer)?;
            put_field(
                symbols,
                sections,
                table,
                pointer_field(pointer.encoding),
                form,
            )
        }
    }
}

/// The end behind a pointer, where there is one, if its numbers fit in 64 bits.
pub(crate) fn behind_pointer_if(end: SectionEnd, pointer: &Option<Pointer>) -> Option<SectionEnd>
    ensures { (pieces : List Piece) → IfSome result (λ behind.
        ends.behind_pieces pieces behind
        ≡ ends.behind_pieces (spec.with_pointer pointer.now pieces) end) }
{
    match pointer {
        None => Some(end),
        Some(pointer) => end.behind_plain(pointer_field(pointer.encoding).bytes() as u64),
    }
}

/// Puts what the CIE of a procedure begins with, up to the pointer to the personality.
pub(crate) fn put_common_head(
    symbols: &Symbols,
    sections: &mut Sections,
    table: Table,
    frame: &Frame,
) -> Result<(), FragFault>
    requires { Takes table.section sections.old }
    ensures ok { (pieces : List Piece) → OnOk result (
        pieces_put table.section table.pos pieces (tables_of symbols.now sections.new)
        ≡ pieces_put table.section table.pos (spec.head_piece frame.now ∷ pieces)
        (tables_of symbols.now sections.old)) }
    ensures takes { OnOk result (Takes table.section sections.new) }
    ensures memory { IfErr result (λ fault. fault ≡ NoMemory) }
{
    let head = common_head(form_of(frame));
    put_plain(symbols, sections, table, head.as_slice())
}

/// Puts the rest of the CIE of a procedure.
pub(crate) fn put_common_rest(
    alloc: Global,
    symbols: &Symbols,
    sections: &mut Sections,
    table: Table,
    frame: &Frame,
) -> Result<(), FragFault>
    requires { Takes table.section sections.old }
    ensures ok { OnOk result (tables_of symbols.now sections.new
        ≡ pieces_put table.section table.pos (spec.rest_pieces frame.now)
        (tables_of symbols.now sections.old)) }
    ensures takes { OnOk result (Takes table.section sections.new) }
    ensures memory { IfErr result (λ fault. fault ≡ NoMemory) }
{
    put_pointer_if(alloc, symbols, sections, table, &frame.personality)?;
    let tail = common_tail(form_of(frame));
    put_plain(symbols, sections, table, tail.as_slice())
}

/// The end behind that rest, if its numbers fit in 64 bits.
pub(crate) fn behind_common_rest(end: SectionEnd, frame: &Frame) -> Option<SectionEnd>
    ensures { IfSome result (λ behind.
        behind ≡ ends.behind_pieces (spec.rest_pieces frame.now) end) }
{
    let behind = behind_pointer_if(end, &frame.personality)?;
    behind.behind_plain(common_tail(form_of(frame)).len() as u64)
}

/// The end behind the CIE of a procedure, if its numbers fit in 64 bits.
pub(crate) fn behind_common(end: SectionEnd, frame: &Frame) -> Option<SectionEnd>
    ensures { IfSome result (λ behind.
        behind ≡ ends.behind_pieces (spec.common_pieces frame.now) end) }
{
    let behind = end.behind_plain(common_head(form_of(frame)).len() as u64)?;
    behind_common_rest(behind, frame)
}
