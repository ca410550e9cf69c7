//! What is known and stands at an item, and the instructions of a frame table, as text.

ghost use Rattle.std.specs.Prelude.{◌<◌, length};

use asm_base::{SavedRegister, ScfiFault};
use cfi_entries::op_bytes;
use flow_graph::{Graph, Node};
use row_texts::{write_code, write_line, write_number, write_text};
use scfi_pass::ItemOp;
use stack_depths::DepthTable;
use stack_facts::FactTable;
use std::io;

/// The name of one of the seven registers.
fn name(register: u8) -> &'static str {
    match register {
        0 => "rsp",
        1 => "rbx",
        2 => "rbp",
        3 => "r12",
        4 => "r13",
        5 => "r14",
        _ => "r15",
    }
}

fn saved_name(register: SavedRegister) -> &'static str {
    match register {
        SavedRegister::Rbx => "rbx",
        SavedRegister::Rbp => "rbp",
        SavedRegister::R12 => "r12",
        SavedRegister::R13 => "r13",
        SavedRegister::R14 => "r14",
        SavedRegister::R15 => "r15",
    }
}

/// A distance, with its sign.
fn write_signed(distance: u64, out: &mut Vec<u8>) -> io::Result<()> {
    let distance = distance.cast_signed();
    write_text(if distance < 0 { "-" } else { "+" }, &mut *out)?;
    write_number(distance.unsigned_abs(), out)
}

/// A register behind a sign, and its distance.
fn write_distance(register: u8, distance: u64, out: &mut Vec<u8>) -> io::Result<()> {
    write_text(" ", &mut *out)?;
    write_text(name(register), &mut *out)?;
    write_signed(distance, out)
}

/// A register, and its slot.
fn write_slot(register: u8, distance: u64, out: &mut Vec<u8>) -> io::Result<()> {
    write_text(" ", &mut *out)?;
    write_text(name(register), &mut *out)?;
    write_text("@", &mut *out)?;
    write_signed(distance, out)
}

/// A register that does not have its entry value.
fn write_changed(register: u8, out: &mut Vec<u8>) -> io::Result<()> {
    write_text(" -", &mut *out)?;
    write_text(name(register), out)
}

/// Numbers, with a space before each.
fn write_numbers(numbers: &[usize], out: &mut Vec<u8>) -> io::Result<()> {
    for number in numbers {
        write_text(" ", &mut *out)?;
        write_number(*number as u64, &mut *out)?;
    }
    Ok(())
}

/// The items to which control may go from an item.
fn write_successors(graph: &Graph, item: usize, out: &mut Vec<u8>) -> io::Result<()>
    requires { item < length graph.now }
{
    let successors = graph.succ(item);
    write_numbers(successors.as_slice(), out)
}

/// That an item may leave the function.
fn write_exit(node: Node, out: &mut Vec<u8>) -> io::Result<()> {
    if node.exits {
        write_text(" exit", out)?;
    }
    Ok(())
}

fn write_distances(table: &DepthTable, item: usize, out: &mut Vec<u8>) -> io::Result<()> {
    for register in 0..7u8 {
        if let Some(distance) = table.distance(item, register) {
            write_distance(register, distance, &mut *out)?;
        }
    }
    Ok(())
}

/// The registers that do not have their entry values, behind a minus sign, and the highest slots of registers.
fn write_facts(table: &FactTable, item: usize, out: &mut Vec<u8>) -> io::Result<()> {
    for register in 1..7u8 {
        if !table.has_entry(item, register) {
            write_changed(register, &mut *out)?;
        }
        if let Some(distance) = table.slot_of(item, register) {
            write_slot(register, distance, &mut *out)?;
        }
    }
    Ok(())
}

/// An item: where control goes from it, its distances, and its facts; or that no walk leads there.
pub fn write_item(
    graph: &Graph,
    depths: &DepthTable,
    facts: &FactTable,
    item: usize,
    out: &mut Vec<u8>,
) -> io::Result<()> {
    if item >= graph.len() {
        return Ok(());
    }
    write_number(item as u64, &mut *out)?;
    write_text(":", &mut *out)?;
    write_successors(graph, item, &mut *out)?;
    write_exit(graph.node(item), &mut *out)?;
    if !depths.is_reached(item) {
        return write_line("; no walk", out);
    }
    write_text(";", &mut *out)?;
    write_distances(depths, item, &mut *out)?;
    write_text(";", &mut *out)?;
    write_facts(facts, item, &mut *out)?;
    write_line("", out)
}

/// The bytes of an instruction behind the number of its item.
fn write_op(told: ItemOp, out: &mut Vec<u8>) -> io::Result<()> {
    write_text(" ", &mut *out)?;
    write_number(told.item as u64, &mut *out)?;
    write_text("=", &mut *out)?;
    match op_bytes(told.op) {
        Some(bytes) => write_code(bytes.as_slice(), out),
        None => write_text("none", out),
    }
}

/// The bytes of the instructions, with the number of its item before each.
pub fn write_ops(ops: &[ItemOp], out: &mut Vec<u8>) -> io::Result<()> {
    write_text("table:", &mut *out)?;
    for told in ops {
        write_op(*told, &mut *out)?;
    }
    write_line("", out)
}

/// The words for a fault.
fn words(fault: ScfiFault) -> &'static str {
    match fault {
        ScfiFault::FrameLost => "frame lost",
        ScfiFault::RegisterLost(_) => "register lost",
        ScfiFault::ReturnAddressOverwritten => "return address overwritten",
        ScfiFault::StackNotRestored(_) => "stack not restored",
        ScfiFault::RegisterNotRestored(_) => "register not restored",
        ScfiFault::UntraceableJump => "untraceable jump",
        ScfiFault::CallIntoFunction => "call into the function",
        ScfiFault::NotInstructions => "not instructions",
        ScfiFault::RunsPastEnd => "runs past its end",
        ScfiFault::UnsupportedStackUse => "unsupported use of the stack",
        ScfiFault::OffsetTooLarge => "offset too large",
    }
}

/// What is said of a fault behind its words.
fn write_more(fault: ScfiFault, out: &mut Vec<u8>) -> io::Result<()> {
    match fault {
        ScfiFault::RegisterLost(register) | ScfiFault::RegisterNotRestored(register) => {
            write_text(" ", &mut *out)?;
            write_text(saved_name(register), out)
        }
        ScfiFault::StackNotRestored(Some(distance)) => {
            write_text(" ", &mut *out)?;
            write_signed(distance.cast_unsigned(), out)
        }
        _ => Ok(()),
    }
}

/// A fault and its item.
pub fn write_fault(item: usize, fault: ScfiFault, out: &mut Vec<u8>) -> io::Result<()> {
    write_text("fault at ", &mut *out)?;
    write_number(item as u64, &mut *out)?;
    write_text(": ", &mut *out)?;
    write_text(words(fault), &mut *out)?;
    write_more(fault, &mut *out)?;
    write_line("", out)
}
