//! The row and the fields of the instruction that bytes begin with.

ghost use Rattle.std.specs.Prelude.{◌≡◌, IfSome, Some, option_map, slice_get, take, true};
ghost use Rattle.x86_table.specs.Fields.{fields_of};
ghost use Rattle.x86_table.specs.Rows.{the_rows};
ghost use Rattle.x86_decode.specs.Admitting.{admits};
ghost use Rattle.x86_decode.specs.Decoding as spec;
ghost use Rattle.x86_decode.specs.FieldReadings.{fields_in};
ghost use Rattle.x86_decode.specs.Fitting.{AreRead};
ghost use Rattle.x86_decode.specs.Heads as heads;
ghost use Rattle.x86_decode.specs.Slots.{IsInTable};
ghost use Rattle.x86_decode.specs.Views.{IsAdmitted, IsKnown, IsOfRow, shown_front, shown_head};

use crate::field_readings::parts_in;
use crate::fitting::parts_fit;
use crate::heads::{Head, behind, head_of, map_in};
use crate::laws::all_is_decoded;
use crate::rows::{TableRow, first_of, opcode_rows};
use x86_table::{Map, Parts, Row, bytes_of, fields_have_bytes, heads_tell_rows};

/// What bytes begin with: a row, its fields, and how many bytes these have.
#[derive(Clone, Copy)]
pub struct Front {
    /// The number of the row in the table.
    pub number: u16,
    pub row: &'static Row,
    pub parts: Parts,
    pub len: usize,
}

/// The bytes from the opcode on.
fn past_escapes(map: Map, bytes: &[u8]) -> &[u8]
    ensures { result.now ≡ heads.past_escapes map bytes.now }
{
    match map {
        Map::One => bytes,
        Map::Two => behind(bytes, Some(0)),
        Map::Three38 => behind(behind(bytes, Some(0)), Some(0)),
        Map::Three3A => behind(behind(bytes, Some(0)), Some(0)),
    }
}

/// At most so many bytes.
fn at_most(bytes: &[u8], count: usize) -> &[u8]
    ensures { result.now ≡ take count bytes.now }
{
    if count < bytes.len() {
        &bytes[..count]
    } else {
        bytes
    }
}

/// The instruction of the row and the parts, if these fit and the bytes begin with theirs.
#[tactic(auto, unfolding(x86_table::specs::Fits::fits))]
fn shown_if(bytes: &[u8], found: TableRow, parts: Parts) -> Option<Front>
    requires numbered { slice_get the_rows found.number ≡ Some found.row.now }
    requires there { IsInTable found.row.now }
    requires known { IsKnown (fields_of parts) }
    requires read { AreRead found.row.now (fields_of parts) }
    ensures front { option_map shown_front result ≡ spec.shown_if bytes.now found.row.now (fields_of parts) }
    ensures of_row { IfSome result (λ front. IsOfRow front) }
{
    fields_have_bytes();
    let TableRow { number, row } = found;
    if parts_fit(row, &parts) {
        let own = bytes_of(row, &parts);
        let len = own.len();
        if len <= 15 && own.as_slice() == at_most(bytes, len) {
            Some(Front {
                number,
                row,
                parts,
                len,
            })
        } else {
            None
        }
    } else {
        None
    }
}

/// The row that admits the head.
fn row_of(map: Map, head: &Head, opcode: u8, tail: &[u8]) -> Option<TableRow>
    ensures row { let test = admits map (shown_head head.now) opcode tail.now in
        option_map (λ found. found.row.now) result ≡ spec.first_row test the_rows }
    ensures admitted { IfSome result (λ found. IsAdmitted map (shown_head head.now) opcode tail.now found.row.now) }
    ensures numbered { IfSome result (λ found. slice_get the_rows found.number ≡ Some found.row.now) }
{
    heads_tell_rows();
    first_of(map, head, opcode, tail, opcode_rows(map, opcode))
}

/// The instruction of a row that admits the head.
fn front_by(
    map: Map,
    bytes: &[u8],
    head: &Head,
    opcode: u8,
    tail: &[u8],
    found: TableRow,
) -> Option<Front>
    requires admitted { IsAdmitted map (shown_head head.now) opcode tail.now found.row.now }
    requires numbered { slice_get the_rows found.number ≡ Some found.row.now }
    ensures front { let fields = fields_in found.row.now (shown_head head.now) opcode tail.now in
        option_map shown_front result ≡ spec.shown_if bytes.now found.row.now fields }
    ensures of_row { IfSome result (λ front. IsOfRow front) }
{
    let row = found.row;
    let above = opcode.saturating_sub(row.code);
    shown_if(bytes, found, parts_in(row, head, above, tail))
}

/// The instruction by the bytes from the opcode on.
fn front_behind(map: Map, bytes: &[u8], head: &Head, rest: &[u8]) -> Option<Front>
    ensures front { option_map shown_front result ≡ spec.by_opcode bytes.now (shown_head head.now) map rest.now }
    ensures of_row { IfSome result (λ front. IsOfRow front) }
{
    match rest {
        [] => None,
        [opcode, tail @ ..] => match row_of(map, head, *opcode, tail) {
            None => None,
            Some(found) => front_by(map, bytes, head, *opcode, tail, found),
        },
    }
}

/// The instruction by the head.
#[tactic(auto, unfolding(crate::specs::Decoding::decoded))]
fn decoded(bytes: &[u8]) -> Option<Front>
    ensures front { option_map shown_front result ≡ spec.decoded bytes.now }
    ensures of_row { IfSome result (λ front. IsOfRow front) }
{
    let head = head_of(bytes);
    let map = map_in(head.rest);
    front_behind(map, bytes, &head, past_escapes(map, head.rest))
}

/// The row and the fields of the instruction that the bytes begin with, and none exactly where they begin
/// with none.
pub fn front_of(bytes: &[u8]) -> Option<Front>
    ensures decodes { spec.Decodes bytes.now (option_map shown_front result) }
    ensures of_row { IfSome result (λ front. IsOfRow front) }
{
    all_is_decoded();
    decoded(bytes)
}
