//! What settling a layout answers.

ghost use Rattle.std.specs.Prelude.{◌≡◌, ◌<◌, OnOk};
ghost use Rattle.asm_relax.specs.declared.plan_states.PlanState.TheVariants.{Fresh, LaidOut};

use asm_base::{Pos, Steps};
use asm_expr::{Linear, constant_form};
use asm_frags::{FieldRole, FieldSize, Frag, FragCause, FragFault, Sections};
use asm_relax::{LayoutFault, Plan, Settled};
use asm_symbols::Symbols;
use item_contents::{Content, Fill};
use row_texts::{write_count, write_displayed};
use std::alloc::Global;
use std::io::{self, Write};
use std::marker::Brand;
use std::sync::ledger::{Blank, Ledger};

/// Puts a field of line 1 into `.text`.
fn push_field(sections: &mut Sections, size: FieldSize, form: Linear) -> Result<(), FragFault> {
    if sections.is_empty() {
        return Err(FragFault::Fault(FragCause::BadSection));
    }
    sections.push_field(0, Pos { file: 0, line: 1 }, size, FieldRole::data(), form)
}

/// Puts zeros of this line into `.bss`.
fn push_zeros(sections: &mut Sections, line: u32, count: u64) -> Result<(), FragFault> {
    if sections.len() < 3 {
        return Err(FragFault::Fault(FragCause::BadSection));
    }
    let zeros = Content::Fill(Fill::new(count.min(1 << 30), 1, 0));
    sections.push(2, Frag::new(Pos { file: 0, line }, zeros))
}

/// A field of this size and value on line 1, and in another section so many bytes above 2^30 on lines 2 and 3.
fn sections(alloc: Global, size: FieldSize, value: u64, more: u64) -> Result<Sections, FragFault> {
    let mut sections = Sections::new(alloc)?;
    push_field(&mut sections, size, constant_form(alloc, value))?;
    push_zeros(&mut sections, 2, 1 << 30)?;
    push_zeros(&mut sections, 3, more)?;
    Ok(sections)
}

/// Settles a plan, with a count of steps of its own.
pub fn settled_plan<L: Ledger>(plan: &mut Plan, blank: Blank) -> Result<Settled, LayoutFault>
    requires name { blank.name ≡ L.name }
    requires parts { blank.parts ≡ L.parts }
    requires some { 0 < blank.parts }
    requires fresh { plan.old.state ≡ Fresh }
    ensures laid { OnOk result (plan.new.state ≡ LaidOut) }
{
    let mut steps = Steps::<L>::new(blank);
    plan.settle(&mut steps)
}

/// What settling the sections answers.
fn settled(alloc: Global, sections: Sections) -> Result<Result<Settled, LayoutFault>, FragFault> {
    let symbols = Symbols::new(alloc);
    let mut plan = Plan::new(alloc, sections, &symbols)?;
    Ok(settled_plan::<Brand>(&mut plan, Blank::new(1)))
}

/// The layout's rounds, or its fault with what it tells and its line.
pub fn write_settled(settled: Result<Settled, LayoutFault>, out: &mut Vec<u8>) -> io::Result<()> {
    match settled {
        Ok(settled) => write_count(settled.rounds, " rounds", out),
        Err(fault) => {
            let line = fault.pos().line;
            let told = match fault {
                LayoutFault::SectionTooLarge { size, .. } => size,
                LayoutFault::OrgMovesBackwards { .. } => 0,
                LayoutFault::DistanceOutOfRange { distance, .. } => distance,
            };
            writeln!(out, "{fault}: {told}, line {line}")
        }
    }
}

/// `layout BYTES VALUE MORE`: of a field of so many bytes with a value, and a section of 2^30 bytes and so many more.
pub fn write_layout(
    alloc: Global,
    size: FieldSize,
    value: u64,
    more: u64,
    out: &mut Vec<u8>,
) -> io::Result<()> {
    let laid = match sections(alloc, size, value, more) {
        Ok(sections) => settled(alloc, sections),
        Err(fault) => Err(fault),
    };
    match laid {
        Ok(settled) => write_settled(settled, out),
        Err(fault) => write_displayed(&fault, out),
    }
}
