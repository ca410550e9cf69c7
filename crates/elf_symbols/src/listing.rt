//! The symbols of the table in their order (gABI, chapter 4, "Symbol Table").

ghost use Rattle.std.specs.Prelude.{◌≡◌, ◌++◌, [], ◌∷◌, true, false, length, map, option_map, IfOk, OnOk};
ghost use Rattle.assigned_forms.specs.Expanding.{AreExpansions};
ghost use Rattle.asm_frags.specs.Groups.{groups_of};
ghost use Rattle.elf_symbols.specs.Numbers.{first_other, numbers_of};
ghost use Rattle.elf_symbols.specs.SymbolTable as spec;
ghost use Rattle.elf_symbols.specs.Views.{symbol_view, named_view, numbers_view};

use crate::entries::{
    TableSymbol, file_entry, is_local_entry, listed, section_entry, signature_entry,
};
use crate::numbers::{
    Numbers, Standing, group_numbers, is_signature_listed, section_numbers, symbol_numbers,
};
use crate::symbol_values::Placement;
use crate::targets::Named;
use asm_base::NoMemory;
use asm_expr::Name;
use asm_symbols::Symbol;
use assigned_forms::Expansions;
use std::alloc::{AllocError, Global};

/// Puts the entry of a symbol last in its part of the table, if it stands there.
#[tactic(auto, unfolding(crate::specs::SymbolTable::part))]
fn put_listed<'a>(
    one: Option<TableSymbol<'a>>,
    locals: &mut Vec<TableSymbol<'a>>,
    others: &mut Vec<TableSymbol<'a>>,
) -> Result<Standing, AllocError>
    ensures locals { let all = option_map symbol_view one.entry ∷ [] in OnOk result
        (spec.PutsPart true all (map symbol_view locals.old.items) (map symbol_view locals.new.items)) }
    ensures others { let all = option_map symbol_view one.entry ∷ [] in OnOk result
        (spec.PutsPart false all (map symbol_view others.old.items) (map symbol_view others.new.items)) }
    ensures standing { IfOk result (λ standing. standing
        ≡ spec.standing_of (option_map symbol_view one.entry)) }
{
    let Some(entry) = one else {
        return Ok(Standing::Absent);
    };
    if is_local_entry(&entry) {
        locals.push(entry)?;
        Ok(Standing::Local)
    } else {
        others.push(entry)?;
        Ok(Standing::Other)
    }
}

/// Appends the entries of these symbols, each if it stands in the table, to those of its part; the
/// marks tell which of them relocations name, and which as thread-local.
fn put_symbols<'a>(
    alloc: Global,
    at: Placement,
    expansions: &Expansions,
    marks: &[bool],
    threads: &[bool],
    symbols: &'a [Symbol],
    locals: &mut Vec<TableSymbol<'a>>,
    others: &mut Vec<TableSymbol<'a>>,
) -> Result<Vec<Standing>, NoMemory>
    requires expanded { AreExpansions at.symbols.now expansions.now }
    requires marks { length marks.now ≡ length symbols.now }
    requires threads { length threads.now ≡ length symbols.now }
    ensures locals { let all = spec.listed_by at.entry.symbols.now at.entry.sections.now marks.now
        threads.now symbols.now in OnOk result (spec.PutsPart true all
        (map symbol_view locals.old.items) (map symbol_view locals.new.items)) }
    ensures others { let all = spec.listed_by at.entry.symbols.now at.entry.sections.now marks.now
        threads.now symbols.now in OnOk result (spec.PutsPart false all
        (map symbol_view others.old.items) (map symbol_view others.new.items)) }
    ensures standings { let all = spec.listed_by at.entry.symbols.now at.entry.sections.now marks.now
        threads.now symbols.now in IfOk result (λ made. made.items ≡ map spec.standing_of all) }
{
    let mut standings = Vec::with_capacity(alloc, symbols.len())?;
    for (index, symbol) in symbols.iter().enumerate() {
        let one = listed(alloc, at, expansions, marks[index], threads[index], symbol)?;
        standings.push(put_listed(one, locals, others)?)?;
    }
    Ok(standings)
}

/// Appends the entries of files' names.
fn put_files<'a>(out: &mut Vec<TableSymbol<'a>>, files: &'a [Name]) -> Result<(), AllocError>
    ensures { OnOk result (map symbol_view out.new.items
        ≡ map symbol_view out.old.items ++ map spec.file_entry files.now) }
{
    for name in files {
        out.push(file_entry(name))?;
    }
    Ok(())
}

/// Appends the entries of the sections that are marked.
fn put_sections(out: &mut Vec<TableSymbol>, marks: &[bool]) -> Result<(), AllocError>
    ensures { OnOk result (map symbol_view out.new.items
        ≡ map symbol_view out.old.items ++ spec.section_entries 0 marks.now) }
{
    for (number, mark) in marks.iter().enumerate() {
        if *mark {
            out.push(section_entry(number))?;
        }
    }
    Ok(())
}

/// Appends the entry of the signature of the group of this index, if its symbol has none of its own.
fn put_signature<'a>(
    at: Placement<'a>,
    standings: &[Standing],
    index: u32,
    signature: &'a [u8],
    out: &mut Vec<TableSymbol<'a>>,
) -> Result<(), AllocError>
    ensures { OnOk result (map symbol_view out.new.items ≡ map symbol_view out.old.items
        ++ spec.signature_if at.entry.symbols.now standings.now index signature.now) }
{
    if !is_signature_listed(at.symbols, standings, signature) {
        out.push(signature_entry(index, signature))?;
    }
    Ok(())
}

/// Appends the entries of signatures of groups whose symbols, which stand so, have none of their own.
fn put_signatures<'a>(
    at: Placement<'a>,
    standings: &[Standing],
    out: &mut Vec<TableSymbol<'a>>,
) -> Result<(), AllocError>
    ensures { OnOk result (map symbol_view out.new.items ≡ map symbol_view out.old.items
        ++ spec.signature_entries at.entry.symbols.now standings.now 0
        (groups_of at.entry.sections.now)) }
{
    for index in 0..at.sections.group_count() {
        let (signature, _) = at.sections.group(index);
        put_signature(at, standings, index as u32, signature, out)?;
    }
    Ok(())
}

/// The symbols of the table behind the null symbol, the number of the first that is not local, and the numbers by which relocations name them.
#[derive(Drop)]
pub struct Listing<'a> {
    pub symbols: Vec<TableSymbol<'a>>,
    pub first_other: usize,
    pub numbers: Numbers,
}

/// The symbols of the table; the marks tell what relocations name.
#[tactic(auto, unfolding(crate::specs::SymbolTable::table_of))]
pub fn list_symbols<'a>(
    alloc: Global,
    at: Placement<'a>,
    expansions: &Expansions,
    named: &Named,
) -> Result<Listing<'a>, NoMemory>
    requires expanded { AreExpansions at.symbols.now expansions.now }
    requires marks { length named.now.symbols.items ≡ length at.symbols.now.symbols }
    requires threads { length named.now.thread_locals.items ≡ length at.symbols.now.symbols }
    ensures symbols { IfOk result (λ l. map symbol_view l.symbols.items
        ≡ spec.table_of at.entry.symbols.now at.entry.sections.now (named_view named.now)) }
    ensures first_other { IfOk result (λ l. l.first_other
        ≡ first_other at.entry.symbols.now at.entry.sections.now (named_view named.now)) }
    ensures numbers { IfOk result (λ l. numbers_view l.numbers
        ≡ numbers_of at.entry.symbols.now at.entry.sections.now (named_view named.now)) }
{
    let own = at.symbols.as_slice();
    let mut symbols = Vec::with_capacity(alloc, own.len().saturating_add(named.sections.len()))?;
    let mut others = Vec::with_capacity(alloc, own.len())?;
    put_files(&mut symbols, at.symbols.files())?;
    let first_section = 1 + symbols.len();
    put_sections(&mut symbols, &named.sections)?;
    let first_local = 1 + symbols.len();
    let standings = put_symbols(
        alloc,
        at,
        expansions,
        &named.symbols,
        &named.thread_locals,
        own,
        &mut symbols,
        &mut others,
    )?;
    let first_signature = 1 + symbols.len();
    put_signatures(at, &standings, &mut symbols)?;
    let first_other = 1 + symbols.len();
    symbols.extend_from_slice(&others)?;
    let own_numbers = symbol_numbers(alloc, first_local, first_other, &standings)?;
    let groups = group_numbers(alloc, at, &standings, &own_numbers, first_signature)?;
    let numbers = Numbers {
        sections: section_numbers(alloc, first_section, &named.sections)?,
        symbols: own_numbers,
        groups,
    };
    Ok(Listing {
        symbols,
        first_other,
        numbers,
    })
}
