//! The first of the rows with the shortest bytes.

ghost use Rattle.std.specs.Prelude.{◌≡◌, None};
ghost use Rattle.x86_insn.specs.Views.{displaced, view_of};
ghost use Rattle.x86_table.specs.Fields.{located};
ghost use Rattle.x86_parts.specs.Building.{place_at};
ghost use Rattle.x86_parts.specs.Codes.{named};
ghost use Rattle.x86_parts.specs.Keys.{least_length, Steps, Finds};

use crate::fitting::parts_fit;
use crate::lengths::{has_rex, length_of};
use crate::showing::shows;
use x86_insn::{Insn, Mnemonic, Values};
use x86_lookup::{keys, rows, rows_of_size};
use x86_parts::{Found, Laid, admits, built, is_reached, sorts_of};
use x86_table::Row;

/// Finds the row at an index, if it takes the instruction in fewer bytes than what was found. It is
/// not tried where the fewest bytes that it has are no fewer.
#[tactic(auto, using(crate::proofs::Length::length_is))]
fn find_by(
    found: &mut Option<Found>,
    row: &Row,
    least: u8,
    index: usize,
    name: Mnemonic,
    laid: &Laid,
    insn: &Insn,
    values: &Values,
)
    requires keyed { least ≡ least_length row.now }
    requires laid { let a = insn.now.address in located laid.now.displacement laid.now.place
        ≡ place_at a.base a.index (displaced a.base values.now.displacement) }
    ensures { Steps (named name (view_of insn.now values.now)) row.now index found.old found.new }
{
    if is_reached(found, least) {
        return;
    }
    let parts = built(row, laid, insn, values);
    if !parts_fit(row, &parts) {
        return;
    }
    let rex = has_rex(row, &parts);
    let length = length_of(least, row, rex, &parts);
    if 15 < length {
        return;
    }
    if is_reached(found, length) {
        return;
    }
    if shows(row, &parts, rex, length as u64, name, insn, values) {
        *found = Some(Found {
            row: index,
            length,
            parts,
        });
    }
}

/// Finds the first of the rows with the shortest bytes.
pub fn shortest(
    found: &mut Option<Found>,
    name: Mnemonic,
    laid: &Laid,
    insn: &Insn,
    values: &Values,
)
    requires blank { found.old ≡ None }
    requires laid { let a = insn.now.address in located laid.now.displacement laid.now.place
        ≡ place_at a.base a.index (displaced a.base values.now.displacement) }
    ensures { Finds (named name (view_of insn.now values.now)) found.new }
{
    let table = rows();
    let keys = keys();
    let range = rows_of_size(&name, insn.size);
    let sorts = sorts_of(insn, values);
    for i in range.start as usize..range.stop as usize {
        if admits(&keys[i], sorts, insn, values) {
            find_by(
                found,
                &table[i],
                keys[i].least_length,
                i,
                name,
                laid,
                insn,
                values,
            );
        }
    }
}
