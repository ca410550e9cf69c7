//! The rows of items: one list for all sections, with an end mark behind the items of each.

ghost use Rattle.std.specs.Prelude.{◌≡◌, ℕ, ◌+◌, ◌*◌, ◌<◌, ◌≤◌, ◌^◌, ◌++◌, ◌∷◌, [], All, IfOk, IfSome, OnOk, Some, ◌-◌, length, slice_get};
ghost use Rattle.std.specs.Option.{option_and_then};
ghost use Rattle.asm_levels.specs.declared.distances.Distance.TheVariants as distance;
ghost use Rattle.asm_levels.specs.declared.rows.RowSize.TheVariants as size;
ghost use Rattle.row_distances.specs.FormDistances.{NamesFew};
ghost use Rattle.item_bytes.specs.Levels.{near_size};
ghost use Rattle.item_bytes.specs.Jumps.{is_conditional};
ghost use Rattle.item_rows.specs.ItemRows as spec;
ghost use Rattle.item_rows.specs.RowViews.{told_rows};
ghost use Rattle.item_rows.specs.RowBounds.{SizeFits, IsRowSize, RowFits, AllFit};

use crate::links::{is_linked, is_linked_pair};
use asm_base::{NoMemory, Place, SectionPlace};
use asm_frags::{Field, Frag, Laid, Section, Sections, own_place};
use asm_levels::{Distance, PackedRow, Row, RowSize, few_rows_have_few_bytes};
use asm_symbols::Symbols;
use item_bytes::Condition;
use item_contents::{Align, Content, Fill, FragVisit, Growing, Growth, Org, visit};
use row_distances::{OwnPlace, RowView, RowsApart, distance_of, distances_are_values, rows_apart};
use row_plans::RowPlan;
use std::alloc::{AllocError, Global};

/// The most rows: so many have fewer than 2^62 bytes.
const MOST_ROWS: usize = (1 << 28) - 1;

/// What distances are told by: the symbols, the first row of each section, and how many rows there
/// are.
#[derive(Clone, Copy)]
struct RowsIn<'a> {
    symbols: &'a Symbols,
    starts: &'a [u32],
    count: u32,
}

/// The place of a field, which one of the symbols stands for.
fn own_of(field: &Field) -> OwnPlace
    ensures { result ≡ spec.own_of field.now }
{
    OwnPlace {
        symbol: own_place().index(),
        place: SectionPlace {
            section: field.section,
            place: Place {
                item: u64::from(field.item),
                offset: field.offset as u64,
            },
        },
    }
}

/// The distance to which the value of a field comes, if it does.
fn field_distance(alloc: Global, rows: RowsIn, field: &Field) -> Result<Option<Distance>, NoMemory>
    ensures { IfOk result (λ found. found ≡ spec.field_distance (told_rows rows.entry) field.now) }
{
    if field.role.is_distance() && is_linked(rows.symbols, field) {
        return Ok(None);
    }
    let view = RowView {
        symbols: rows.symbols,
        starts: rows.starts,
        own: own_of(field),
    };
    distance_of(alloc, view, rows.count, &field.form)
}

/// The distance of the field of this index, if it is there and comes to one.
fn held_distance(
    alloc: Global,
    rows: RowsIn,
    fields: &[Field],
    field: usize,
) -> Result<Option<Distance>, NoMemory>
    ensures distance { IfOk result (λ found. found ≡ option_and_then
        (spec.field_distance (told_rows rows.entry)) (slice_get fields.now field)) }
    ensures names { IfOk result (NamesFew rows.entry.count) }
{
    distances_are_values();
    match fields.get(field) {
        Some(field) => field_distance(alloc, rows, field),
        None => Ok(None),
    }
}

/// The size of a near jump, in bytes.
fn near_size(condition: Option<Condition>) -> u64
    ensures { result ≡ near_size (is_conditional condition) }
{
    match condition {
        None => 5,
        Some(_) => 6,
    }
}

/// What the size of an item depends on that grows with this distance; where there is none, a jump is
/// near, and a number has one byte.
fn grown_row(kind: Growth, distance: Option<Distance>) -> RowSize
    ensures { result ≡ spec.grown_row kind distance }
{
    match kind {
        Growth::Jump(condition) => match distance {
            None => RowSize::Fixed(near_size(condition)),
            Some(distance) => RowSize::Jump {
                conditional: condition.is_some(),
                distance,
            },
        },
        Growth::Leb128 { signed } => match distance {
            None => RowSize::Fixed(1),
            Some(distance) => RowSize::Leb128 { signed, distance },
        },
        Growth::Advance => match distance {
            None => RowSize::Fixed(0),
            Some(distance) => RowSize::Advance { distance },
        },
    }
}

/// Tells what the size of an item depends on, the row of which has this number, and which has this
/// index in its section.
#[derive(Drop)]
struct SizeInRow<'a> {
    alloc: Global,
    rows: RowsIn<'a>,
    fields: &'a [Field],
    number: u32,
    index: u32,
}

impl FragVisit for SizeInRow<'_> {
    type Out = Result<RowSize, NoMemory>;

    ghost run_gives = { λ before answer after. IfOk answer
        (IsRowSize before.rows.count before.number (size.Fixed 0)) };

    ghost fill_gives = { λ before held answer after. IfOk answer
        (IsRowSize before.rows.count before.number (size.Fixed (held.count * held.size))) };

    ghost align_gives = { λ before held answer after. IfOk answer
        (IsRowSize before.rows.count before.number (size.Align held.log held.most)) };

    ghost org_gives = { λ before held answer after. IfOk answer
        (IsRowSize before.rows.count before.number
        (size.Org (before.number - (before.index - held.from)) held.ahead held.behind)) };

    ghost growing_gives = { λ before held answer after. IfOk answer
        (IsRowSize before.rows.count before.number (spec.grown_row held.kind
        (option_and_then (spec.field_distance (told_rows before.rows))
        (slice_get before.fields.now held.field)))) };

    fn run(&mut self) -> Result<RowSize, NoMemory> {
        Ok(RowSize::Fixed(0))
    }

    fn fill(&mut self, held: &Fill) -> Result<RowSize, NoMemory> {
        Ok(RowSize::Fixed(held.count() * held.size()))
    }

    fn align(&mut self, held: &Align) -> Result<RowSize, NoMemory> {
        Ok(RowSize::Align {
            log: held.log(),
            most: held.most(),
        })
    }

    fn org(&mut self, held: &Org) -> Result<RowSize, NoMemory> {
        let between = self.index.saturating_sub(held.from());
        Ok(RowSize::Org {
            from: self.number.saturating_sub(between),
            ahead: held.ahead(),
            behind: held.behind(),
        })
    }

    fn growing(&mut self, held: Growing) -> Result<RowSize, NoMemory> {
        let distance = held_distance(self.alloc, self.rows, self.fields, held.field)?;
        Ok(grown_row(held.kind, distance))
    }
}

/// The rows that the distance of a field leads between, where its form is a symbol less another one: the short way for
/// jumps.
#[inline(always)]
fn field_apart(rows: RowsIn, field: &Field) -> Option<RowsApart>
    ensures { IfSome result (λ apart. spec.field_distance (told_rows rows.entry) field.now
        ≡ Some (distance.Between apart.number apart.ahead apart.behind)) }
{
    let [one, other] = field.form.terms() else {
        return None;
    };
    if is_linked_pair(rows.symbols, field, one, other) {
        return None;
    }
    let view = RowView {
        symbols: rows.symbols,
        starts: rows.starts,
        own: own_of(field),
    };
    rows_apart(view, rows.count, &field.form, one, other)
}

/// What the size of an item depends on that grows with the distance between two rows, where this is found in the
/// short way.
#[inline(always)]
fn size_apart(rows: RowsIn, fields: &[Field], held: Growing) -> Option<RowSize>
    ensures size { IfSome result (λ size. size ≡ spec.grown_row held.kind (option_and_then
        (spec.field_distance (told_rows rows.entry)) (slice_get fields.now held.field))) }
    ensures fits { IfSome result (λ size. (number : ℕ) → SizeFits rows.entry.count number size) }
{
    distances_are_values();
    let field = fields.get(held.field)?;
    let RowsApart {
        number,
        ahead,
        behind,
    } = field_apart(rows, field)?;
    let distance = Distance::Between {
        number,
        ahead,
        behind,
    };
    Some(grown_row(held.kind, Some(distance)))
}

/// The row of an item, which has this number, and this index in its section.
#[inline(never)]
fn row_of(
    alloc: Global,
    rows: RowsIn,
    fields: &[Field],
    number: u32,
    index: u32,
    item: &Frag<Laid>,
) -> Result<Row, NoMemory>
    requires { item.now.offset ≤ 2 ^ 33 }
    ensures row { IfOk result (λ row. row
        ≡ spec.row_of (told_rows rows.entry) fields.now number index item.now) }
    ensures fits { IfOk result (λ row. RowFits rows.entry.count number row) }
{
    let mut visitor = SizeInRow {
        alloc,
        rows,
        fields,
        number,
        index,
    };
    Ok(Row {
        offset: item.offset as u64,
        size: visit(&item.content, &mut visitor)?,
    })
}

/// Puts a row last. One that is too many is refused as want of memory.
#[inline(always)]
fn push_row(alloc: Global, made: &mut Vec<PackedRow>, count: u32, row: Row) -> Result<(), NoMemory>
    requires fit { AllFit count made.old.items }
    requires row { RowFits count (length made.old.items) row }
    ensures rows { OnOk result (made.new.items ≡ made.old.items ++ row ∷ []) }
    ensures fit { OnOk result (AllFit count made.new.items) }
{
    if made.len() >= MOST_ROWS {
        return Err(AllocError);
    }
    let row = PackedRow::new(alloc, row)?;
    if made.len() < made.capacity() {
        made.push_reserved(row);
        return Ok(());
    }
    Ok(made.push(row)?)
}

/// Puts the row of an item last, which has this index in its section.
#[inline(always)]
fn push_item(
    alloc: Global,
    made: &mut Vec<PackedRow>,
    rows: RowsIn,
    fields: &[Field],
    index: u32,
    item: &Frag<Laid>,
) -> Result<(), NoMemory>
    requires fit { AllFit rows.count made.old.items }
    requires offset { item.now.offset ≤ 2 ^ 33 }
    ensures rows { OnOk result (made.new.items ≡ made.old.items ++ spec.row_of
        (told_rows rows.entry) fields.now (length made.old.items) index item.now ∷ []) }
    ensures fit { OnOk result (AllFit rows.entry.count made.new.items) }
{
    if let Content::Growing(held) = &item.content {
        if let Some(size) = size_apart(rows, fields, *held) {
            let offset = item.offset as u64;
            return push_row(alloc, made, rows.count, Row { offset, size });
        }
    }
    let number = made.len() as u32;
    let row = row_of(alloc, rows, fields, number, index, item)?;
    push_row(alloc, made, rows.count, row)
}

/// Puts the rows of items last, the first of which has this index.
fn push_items(
    alloc: Global,
    made: &mut Vec<PackedRow>,
    rows: RowsIn,
    fields: &[Field],
    items: &[Frag<Laid>],
) -> Result<(), NoMemory>
    requires fit { AllFit rows.count made.old.items }
    requires few { length items.now ≤ 2 ^ 28 }
    requires offsets { All (λ item. item.offset ≤ 2 ^ 33) items.now }
    ensures rows { OnOk result (made.new.items ≡ made.old.items ++ spec.item_rows
        (told_rows rows.entry) fields.now (length made.old.items) 0 items.now) }
    ensures fit { OnOk result (AllFit rows.entry.count made.new.items) }
{
    for (index, item) in items.iter().enumerate() {
        push_item(alloc, made, rows, fields, index as u32, item)?;
    }
    Ok(())
}

/// Puts the rows of a section last.
fn push_section(
    alloc: Global,
    made: &mut Vec<PackedRow>,
    rows: RowsIn,
    section: &Section<Laid>,
) -> Result<(), NoMemory>
    requires fit { AllFit rows.count made.old.items }
    ensures rows { OnOk result (made.new.items ≡ made.old.items ++ spec.section_rows
        (told_rows rows.entry) (length made.old.items) section.now) }
    ensures fit { OnOk result (AllFit rows.entry.count made.new.items) }
{
    let bytes = section.bytes().len();
    push_items(alloc, made, rows, section.fields(), section.items())?;
    let end = Row {
        offset: bytes as u64,
        size: RowSize::End,
    };
    push_row(alloc, made, rows.count, end)
}

/// The first row of each section, and how many rows there are.
#[derive(Drop)]
struct Starts {
    first: Vec<u32>,
    count: u32,
}

/// The row behind those of a section, the first of which is this one.
fn rows_behind(first: u32, section: &Section<Laid>) -> Result<u32, NoMemory>
    ensures { IfOk result (λ next. next ≡ first + spec.row_count section.now) }
{
    let count = section.items().len() as u32 + 1;
    first.checked_add(count).ok_or(AllocError)
}

/// Where the rows of sections begin.
fn starts_of(alloc: Global, sections: &[Section<Laid>]) -> Result<Starts, NoMemory>
    ensures starts { IfOk result (λ made. made.first.items ≡ spec.starts_from 0 sections.now) }
    ensures count { IfOk result (λ made. made.count ≡ spec.all_rows sections.now) }
{
    let mut first = Vec::with_capacity(alloc, sections.len())?;
    let mut count = 0u32;
    for section in sections {
        first.push(count)?;
        count = rows_behind(count, section)?;
    }
    Ok(Starts { first, count })
}

/// The rows of sections.
fn all_rows(
    alloc: Global,
    rows: RowsIn,
    sections: &[Section<Laid>],
) -> Result<Vec<PackedRow>, NoMemory>
    ensures rows { IfOk result (λ made. made.items
        ≡ spec.rows_from (told_rows rows.entry) 0 sections.now) }
    ensures fit { IfOk result (λ made. AllFit rows.entry.count made.items) }
{
    let mut made = Vec::with_capacity(alloc, rows.count as usize)?;
    for section in sections {
        push_section(alloc, &mut made, rows, section)?;
    }
    Ok(made)
}

/// The rows of all sections.
#[tactic(auto, unfolding(crate::specs::ItemRows::rows_of))]
fn rows_of(
    alloc: Global,
    symbols: &Symbols,
    sections: &[Section<Laid>],
) -> Result<Vec<PackedRow>, NoMemory>
    ensures rows { IfOk result (λ rows. rows.items ≡ spec.rows_of symbols.now sections.now) }
    ensures fit { IfOk result (λ rows. AllFit (spec.all_rows sections.now) rows.items) }
{
    let Starts { first, count } = starts_of(alloc, sections)?;
    let rows = RowsIn {
        symbols,
        starts: &first,
        count,
    };
    all_rows(alloc, rows, sections)
}

/// A plan of the rows of all sections.
pub fn plan_of(
    alloc: Global,
    symbols: &Symbols,
    sections: &Sections<Laid>,
) -> Result<RowPlan, NoMemory>
    ensures rows { IfOk result (λ plan. plan.rows ≡ spec.rows_of symbols.now sections.now) }
    ensures few { IfOk result (λ plan. length plan.rows < 2 ^ 32) }
    ensures levels { IfOk result (λ plan. All (λ level. level ≡ 0) plan.levels) }
{
    few_rows_have_few_bytes();
    let rows = rows_of(alloc, symbols, sections.as_slice())?;
    RowPlan::new(alloc, rows)
}
