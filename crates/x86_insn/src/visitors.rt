//! Visitors of operands: their kind, the registers and the field that they use, and their names.

ghost use Rattle.std.specs.Prelude.{◌≡◌, Ok};
ghost use Rattle.asm_base.specs.Refusals.{GivesBy};
ghost use Rattle.x86_insn.specs.Operands.{register, immediate, memory, target};
ghost use Rattle.x86_insn.specs.Visiting.{Answers, base_is, index_is, names_in, kind_of, uses_register, field_of, names_of_operand};

use crate::amounts::{Amount, Value};
use crate::insns::{Base, Index};
use crate::operands::{Memory, OperandFold};
use crate::registers::{Class, Reg};
use asm_expr::{ExprFault, Spelling, Written, names_of};
use std::alloc::Global;

/// What kind an operand is of.
#[derive(Clone, Copy)]
pub enum Kind {
    Register(Class),
    Immediate,
    Memory,
    Target,
}

/// Answers the kind of an operand.
#[derive(Clone, Copy)]
pub struct KindOf;

impl OperandFold for KindOf {
    type Out = Kind;

    ghost register_gives = { λ before reg answer after.
        Answers before answer after (kind_of (register reg)) };

    ghost immediate_gives = { λ before held answer after.
        Answers before answer after (kind_of (immediate held)) };

    ghost memory_gives = { λ before place answer after.
        Answers before answer after (kind_of (memory place.address place.displacement.now)) };

    ghost target_gives = { λ before held answer after.
        Answers before answer after (kind_of (target held)) };

    fn register(&mut self, reg: &Reg) -> Kind {
        Kind::Register(reg.class)
    }

    fn immediate(&mut self, _value: &Value) -> Kind {
        Kind::Immediate
    }

    fn memory(&mut self, _memory: &Memory) -> Kind {
        Kind::Memory
    }

    fn target(&mut self, _value: &Value) -> Kind {
        Kind::Target
    }
}

/// Answers whether an operand names a general-purpose register, a part of it, or an address by it.
#[derive(Clone, Copy)]
pub struct UsesRegister {
    /// The register's number: 0 to 15.
    pub number: u8,
}

/// Whether the base is the register of this number.
fn base_is(number: u8, base: Base) -> bool
    ensures { result ≡ base_is number base }
{
    match base {
        Base::Of(own) => own == number,
        _ => false,
    }
}

/// Whether the index is the register of this number.
fn index_is(number: u8, index: Index) -> bool
    ensures { result ≡ index_is number index }
{
    match index {
        Index::By(own, _) => own == number,
        Index::Absent => false,
    }
}

impl OperandFold for UsesRegister {
    type Out = bool;

    ghost register_gives = { λ before reg answer after.
        Answers before answer after (uses_register before.number (register reg)) };

    ghost immediate_gives = { λ before held answer after.
        Answers before answer after (uses_register before.number (immediate held)) };

    ghost memory_gives = { λ before place answer after.
        Answers before answer after
        (uses_register before.number (memory place.address place.displacement.now)) };

    ghost target_gives = { λ before held answer after.
        Answers before answer after (uses_register before.number (target held)) };

    fn register(&mut self, reg: &Reg) -> bool {
        reg.is_part_of(self.number)
    }

    fn immediate(&mut self, _value: &Value) -> bool {
        false
    }

    fn memory(&mut self, memory: &Memory) -> bool {
        base_is(self.number, memory.address.base) || index_is(self.number, memory.address.index)
    }

    fn target(&mut self, _value: &Value) -> bool {
        false
    }
}

/// The field of an instruction that holds a value.
#[derive(Clone, Copy)]
pub enum Field {
    Immediate,
    Displacement,
}

/// Answers the field that holds the value of an operand, if it has one.
#[derive(Clone, Copy)]
pub struct FieldOf;

impl OperandFold for FieldOf {
    type Out = Option<Field>;

    ghost register_gives = { λ before reg answer after.
        Answers before answer after (field_of (register reg)) };

    ghost immediate_gives = { λ before held answer after.
        Answers before answer after (field_of (immediate held)) };

    ghost memory_gives = { λ before place answer after.
        Answers before answer after (field_of (memory place.address place.displacement.now)) };

    ghost target_gives = { λ before held answer after.
        Answers before answer after (field_of (target held)) };

    fn register(&mut self, _reg: &Reg) -> Option<Field> {
        None
    }

    fn immediate(&mut self, _value: &Value) -> Option<Field> {
        Some(Field::Immediate)
    }

    fn memory(&mut self, _memory: &Memory) -> Option<Field> {
        Some(Field::Displacement)
    }

    fn target(&mut self, _value: &Value) -> Option<Field> {
        Some(Field::Displacement)
    }
}

/// Gathers the names in the value of an operand, from left to right.
#[derive(Clone, Copy)]
pub struct NamesOf {
    pub alloc: Global,
}

/// The names in a value, from left to right.
fn names_in(alloc: Global, value: &Value) -> Result<Vec<Written>, ExprFault>
    ensures { GivesBy (λ names. names.items) result (Ok (names_in value.now)) }
{
    match &value.amount {
        Amount::Number(_) => Ok(Vec::new(alloc)),
        Amount::Name(bytes, _) => {
            let mut names = Vec::new(alloc);
            names.push(Written::Plain(Spelling::new(alloc, bytes)?))?;
            Ok(names)
        }
        Amount::Tree(expr) => names_of(alloc, expr),
    }
}

impl OperandFold for NamesOf {
    type Out = Result<Vec<Written>, ExprFault>;

    ghost register_gives = { λ before reg answer after.
        GivesBy (λ names. names.items) answer (Ok (names_of_operand (register reg))) };

    ghost immediate_gives = { λ before held answer after.
        GivesBy (λ names. names.items) answer (Ok (names_of_operand (immediate held))) };

    ghost memory_gives = { λ before place answer after.
        GivesBy (λ names. names.items) answer
        (Ok (names_of_operand (memory place.address place.displacement.now))) };

    ghost target_gives = { λ before held answer after.
        GivesBy (λ names. names.items) answer (Ok (names_of_operand (target held))) };

    fn register(&mut self, _reg: &Reg) -> Result<Vec<Written>, ExprFault> {
        Ok(Vec::new(self.alloc))
    }

    fn immediate(&mut self, value: &Value) -> Result<Vec<Written>, ExprFault> {
        names_in(self.alloc, value)
    }

    fn memory(&mut self, memory: &Memory) -> Result<Vec<Written>, ExprFault> {
        names_in(self.alloc, memory.displacement)
    }

    fn target(&mut self, value: &Value) -> Result<Vec<Written>, ExprFault> {
        names_in(self.alloc, value)
    }
}
