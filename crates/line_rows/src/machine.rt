//! The line machine: what an operation makes of the registers, and the row that it appends.

ghost use Rattle.std.specs.Prelude.{◌≡◌, ◌+◌, ◌^◌, ◌≤◌, OnSome};
ghost use Rattle.line_rows.specs.Machine as spec;

use crate::rows::{Line, LineOp, LineRow};

/// The state of the machine.
#[derive(Clone, Copy)]
pub struct Machine {
    pub address: u128,
    /// The address of the sequence's first row, where there is one.
    pub first: Option<u128>,
    /// The other registers.
    pub row: LineRow,
}

/// The registers where a sequence begins.
pub fn start() -> Machine
    ensures { result ≡ spec.start }
{
    Machine {
        address: 0,
        first: None,
        row: LineRow {
            file: 1,
            line: 1,
            column: 0,
            is_stmt: true,
            isa: 0,
            discriminator: 0,
            basic_block: false,
            prologue_end: false,
            epilogue_begin: false,
        },
    }
}

impl Machine {
    ghost use Rattle.std.specs.Prelude.{◌≡◌};
    ghost use Rattle.line_rows.specs.Machine as spec;

    /// How far the address is from the sequence's first one.
    fn distance(&self) -> Option<u64>
        ensures { result ≡ spec.distance self.now }
    {
        let first = match self.first {
            Some(first) => first,
            None => self.address,
        };
        if first <= self.address && self.address - first < 1 << 64 {
            Some((self.address - first) as u64)
        } else {
            None
        }
    }

    /// Appends a row.
    fn append(&mut self) -> Option<Option<Line>>
        ensures { spec.Steps (spec.appended self.old) result self.new }
    {
        let place = self.distance()?;
        let line = (place, Some(self.row));
        if self.first.is_none() {
            self.first = Some(self.address);
        }
        self.row.discriminator = 0;
        self.row.basic_block = false;
        self.row.prologue_end = false;
        self.row.epilogue_begin = false;
        Some(Some(line))
    }
}

/// A register's value, where it may be one.
fn register(value: u64) -> Option<u32>
    ensures { result ≡ spec.register value }
{
    if value < 1 << 32 {
        Some(value as u32)
    } else {
        None
    }
}

/// The line behind a step.
fn line_after(line: u32, step: i64) -> Option<u32>
    ensures { result ≡ spec.line_after line step }
{
    let line = line as i128 + step as i128;
    if 0 <= line && line < 1 << 32 {
        Some(line as u32)
    } else {
        None
    }
}

/// Runs an operation: the row that it appends, or None where the table is none.
pub fn step(machine: &mut Machine, op: LineOp) -> Option<Option<Line>>
    requires { machine.old.address + 2 ^ 64 ≤ 2 ^ 128 }
    ensures value { spec.Steps (spec.step op machine.old) result machine.new }
    ensures near { OnSome result (machine.new.address ≤ machine.old.address + 2 ^ 64) }
{
    match op {
        LineOp::Copy => return machine.append(),
        LineOp::AdvancePc(distance) => machine.address += distance as u128,
        LineOp::AdvanceLine(distance) => machine.row.line = line_after(machine.row.line, distance)?,
        LineOp::SetFile(file) => machine.row.file = register(file)?,
        LineOp::SetColumn(column) => machine.row.column = register(column)?,
        LineOp::NegateStmt => machine.row.is_stmt = !machine.row.is_stmt,
        LineOp::SetBasicBlock => machine.row.basic_block = true,
        LineOp::SetPrologueEnd => machine.row.prologue_end = true,
        LineOp::SetEpilogueBegin => machine.row.epilogue_begin = true,
        LineOp::SetIsa(isa) => machine.row.isa = register(isa)?,
        LineOp::Special(distance, advance) => {
            machine.row.line = line_after(machine.row.line, distance)?;
            machine.address += advance as u128;
            return machine.append();
        }
        LineOp::EndSequence => {
            let place = machine.distance()?;
            *machine = start();
            return Some(Some((place, None)));
        }
        LineOp::SetAddress(address) => machine.address = address as u128,
        LineOp::SetDiscriminator(value) => machine.row.discriminator = register(value)?,
        LineOp::Skipped => {}
    }
    Some(None)
}
