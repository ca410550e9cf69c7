//! What directives make of procedures.

use asm_base::{Place, Pos, SectionPlace};
use cfi_directives::{CfiLine, Directives, DwarfRegister, Frame, Frames, PlacedOps, RowDirective};
use cfi_entries::op_bytes;
use cfi_rows::CfiOp;
use row_texts::{
    write_count, write_displayed, write_line, write_number, write_spaced_code, write_text,
};
use std::alloc::Global;
use std::io;

/// The line of all directives.
const POS: Pos = Pos { file: 0, line: 1 };

/// A register and an offset, with a comma between.
fn register_and_offset(text: &str) -> Option<(DwarfRegister, i64)> {
    let (register, offset) = text.split_once(',')?;
    let register = DwarfRegister::new(register.parse::<u64>().ok()?)?;
    Some((register, offset.parse::<i64>().ok()?))
}

/// A directive of a row by its word, and what stands behind the sign `=`.
fn row_directive(word: &str, text: &str) -> Option<RowDirective> {
    match word {
        "def_cfa_offset" => Some(RowDirective::DefCfaOffset(text.parse::<i64>().ok()?)),
        "adjust_cfa_offset" => Some(RowDirective::AdjustCfaOffset(text.parse::<i64>().ok()?)),
        "offset" => {
            let (register, offset) = register_and_offset(text)?;
            Some(RowDirective::Offset(register, offset))
        }
        "rel_offset" => {
            let (register, offset) = register_and_offset(text)?;
            Some(RowDirective::RelOffset(register, offset))
        }
        "remember_state" => Some(RowDirective::RememberState),
        "restore_state" => Some(RowDirective::RestoreState),
        _ => None,
    }
}

/// The directive that a word of the input says.
fn directive(text: &str) -> Option<CfiLine> {
    match text {
        "startproc" => Some(CfiLine::StartProc(POS)),
        "endproc" => Some(CfiLine::EndProc),
        _ => {
            let (word, operands) = text.split_once('=').unwrap_or((text, ""));
            Some(CfiLine::Row(row_directive(word, operands)?))
        }
    }
}

/// The bytes of an instruction.
fn write_op(op: CfiOp, out: &mut Vec<u8>) -> io::Result<()> {
    match op_bytes(op) {
        Some(bytes) => {
            write_spaced_code(bytes.as_slice(), &mut *out)?;
            write_line("", out)
        }
        None => write_line(" no bytes", out),
    }
}

/// Each procedure: its section, whether it ended, and its instructions.
fn write_frames(frames: &Frames, out: &mut Vec<u8>) -> io::Result<()> {
    for frame in frames.as_slice() {
        let section = frame.section;
        write_text("section ", &mut *out)?;
        let state = if frame.stop.is_some() {
            ", ended"
        } else {
            ", open"
        };
        write_count(u64::from(section), state, &mut *out)?;
        for placed in frame.ops.as_slice() {
            write_number(placed.place.offset, &mut *out)?;
            write_text(":", &mut *out)?;
            write_op(placed.op, &mut *out)?;
        }
    }
    Ok(())
}

/// A procedure that is put into an empty list.
fn write_added(alloc: Global, out: &mut Vec<u8>) -> io::Result<()> {
    let start = Place { item: 0, offset: 3 };
    let mut frames = Frames::new(alloc);
    let added = frames.add(Frame {
        pos: POS,
        section: 2,
        start,
        stop: None,
        personality: None,
        lsda: None,
        ops: PlacedOps::new(alloc),
    });
    match added {
        Ok(()) => write_frames(&frames, out),
        Err(_) => write_line("out of memory", out),
    }
}

/// `cfi WORD..`: directives, each one byte behind the one before it in section 1; and a procedure that is put into an empty list.
pub fn write_directives(alloc: Global, text: &str, out: &mut Vec<u8>) -> io::Result<()> {
    let mut directives = Directives::new(alloc);
    let mut offset = 0;
    for word in text.split(' ') {
        let at = SectionPlace {
            section: 1,
            place: Place { item: 0, offset },
        };
        match directive(word) {
            None => write_line("no such directive", &mut *out)?,
            Some(line) => match directives.take(line, at) {
                Ok(()) => {}
                Err(fault) => write_displayed(&fault, &mut *out)?,
            },
        }
        offset = offset.saturating_add(1);
    }
    write_frames(&directives.into_frames(), &mut *out)?;
    write_added(alloc, out)
}
