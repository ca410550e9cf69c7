//! A line of a function: its items, with a space between two.

ghost use Rattle.std.specs.Prelude.{◌≡◌, ◌<◌};
ghost use Rattle.code_functions.specs.InOrder.{AreInOrder};

use crate::making::{placed, read_items};
use crate::shown::{write_fault, write_item, write_ops};
use crate::targets::SECTION;
use asm_base::{Refusal, Steps};
use asm_symbols::Symbols;
use assigned_forms::{Expansions, linked_expansions};
use code_functions::{CodeItem, Function};
use flow_graph::{FinalForms, Graph};
use row_texts::write_line;
use scfi_pass::synthesize;
use stack_depths::depths;
use stack_facts::facts;
use std::alloc::Global;
use std::io;
use std::marker::Brand;
use std::sync::ledger::{Blank, Ledger};

/// Writes what is known and stands at each item.
fn write_items<L: Ledger>(
    alloc: Global,
    function: &Function,
    forms: &FinalForms,
    steps: &mut Steps<L>,
    out: &mut Vec<u8>,
) -> io::Result<()> {
    let graph = Graph::build(alloc, function, forms)?;
    let known = depths(alloc, &graph, function.items, &mut *steps)?;
    let standing = facts(alloc, &graph, function.items, &known, steps)?;
    for item in 0..function.items.len() {
        write_item(&graph, &known, &standing, item, &mut *out)?;
    }
    Ok(())
}

/// Writes the frame table of a function, or its first fault.
fn write_table<L: Ledger>(
    alloc: Global,
    function: &Function,
    forms: &FinalForms,
    steps: &mut Steps<L>,
    out: &mut Vec<u8>,
) -> io::Result<()> {
    match synthesize(alloc, function, forms, steps) {
        Ok(ops) => write_ops(&ops, out),
        Err(Refusal::Fault(found)) => write_fault(found.item, found.fault, out),
        Err(Refusal::NoMemory) => write_line("out of memory", out),
    }
}

/// Writes both, with a count of steps of their own.
fn write_both<L: Ledger>(
    alloc: Global,
    function: &Function,
    forms: &FinalForms,
    blank: Blank,
    out: &mut Vec<u8>,
) -> io::Result<()>
    requires name { blank.name ≡ L.name }
    requires parts { blank.parts ≡ L.parts }
    requires some { 0 < blank.parts }
{
    let mut steps = Steps::<L>::new(blank);
    write_items(alloc, function, forms, &mut steps, &mut *out)?;
    write_table(alloc, function, forms, &mut steps, out)
}

/// The function of these items.
fn function_of<'a>(items: &'a [CodeItem]) -> Option<Function<'a>>
    requires { AreInOrder items.now }
{
    if items.len() > u32::MAX as usize {
        return None;
    }
    Some(Function {
        section: SECTION,
        items,
    })
}

/// Writes what is made of the items of a line.
fn write_made(alloc: Global, line: &str, out: &mut Vec<u8>) -> io::Result<()> {
    let mut symbols = Symbols::new(alloc);
    let mut fields = Vec::new(alloc);
    let Some(unplaced) = read_items(alloc, line, &mut symbols, &mut fields) else {
        return write_line("no such item", out);
    };
    let items = placed(alloc, &unplaced)?;
    let expansions = Expansions::new(alloc, &symbols)?;
    let linked = linked_expansions(alloc, &symbols)?;
    let forms = FinalForms {
        fields: &fields,
        symbols: &symbols,
        expansions: &expansions,
        linked: &linked,
    };
    match function_of(&items) {
        Some(function) => write_both::<Brand>(alloc, &function, &forms, Blank::new(1), out),
        None => write_line("too many items", out),
    }
}

/// Writes what is made of a function. A line that begins with `#` is written as it stands.
pub fn write_function(alloc: Global, line: &str, out: &mut Vec<u8>) -> io::Result<()> {
    if line.starts_with("#") {
        return write_line(line, out);
    }
    if line.is_empty() {
        return Ok(());
    }
    write_made(alloc, line, out)
}
