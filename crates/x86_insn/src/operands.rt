//! Operands, and the one way over an operand, for every visitor.

ghost use Rattle.std.specs.Prelude.{◌≡◌};
ghost use Rattle.x86_insn.specs.declared.registers.Reg.{Reg};
ghost use Rattle.x86_insn.specs.declared.amounts.Value.{Value};
ghost use Rattle.x86_insn.specs.declared.operands.Memory.{Memory};
ghost use Rattle.x86_insn.specs.OperandFolds.{FoldsOperand};
ghost use Rattle.x86_insn.specs.Operands.{operand_at, seen};

use crate::amounts::Value;
use crate::insns::{Address, Insn, Slot};
use crate::registers::Reg;

/// An operand in memory.
#[derive(Clone, Copy)]
pub struct Memory<'i, 'a> {
    pub address: Address,
    pub displacement: &'i Value<'a>,
}

/// An operand of an instruction. Its values stay where they are.
#[derive(Clone, Copy)]
pub enum Operand<'i, 'a> {
    Register(Reg),
    Immediate(&'i Value<'a>),
    Memory(Memory<'i, 'a>),
    /// The target of a direct branch.
    Target(&'i Value<'a>),
}

impl<'a> Insn<'a> {
    /// The operand that the slot shows, if it shows one.
    pub fn operand(&self, slot: Slot) -> Option<Operand<'_, 'a>>
        ensures { seen result ≡ operand_at self.now slot }
    {
        match slot {
            Slot::Absent => None,
            Slot::Register(reg) => Some(Operand::Register(reg)),
            Slot::Immediate => Some(Operand::Immediate(&self.immediate)),
            Slot::Memory => Some(Operand::Memory(Memory {
                address: self.address,
                displacement: &self.displacement,
            })),
            Slot::Target => Some(Operand::Target(&self.displacement)),
        }
    }
}

/// A visitor of operands: an answer for each kind.
pub trait OperandFold {
    /// The answer for an operand.
    type Out;

    /// The visitor before, the register, the answer, and the visitor after.
    ghost register_gives: { Self → Reg → Self.Out → Self → Type 0 };

    /// The visitor before, the value, the answer, and the visitor after.
    ghost immediate_gives: { Self → Value → Self.Out → Self → Type 0 };

    /// The visitor before, the operand, the answer, and the visitor after.
    ghost memory_gives: { Self → Memory → Self.Out → Self → Type 0 };

    /// The visitor before, the value, the answer, and the visitor after.
    ghost target_gives: { Self → Value → Self.Out → Self → Type 0 };

    /// The answer for a register.
    fn register(&mut self, reg: &Reg) -> Self::Out
        ensures { register_gives self.old reg.now result self.new };

    /// The answer for an immediate.
    fn immediate(&mut self, value: &Value) -> Self::Out
        ensures { immediate_gives self.old value.now result self.new };

    /// The answer for an operand in memory.
    fn memory(&mut self, memory: &Memory) -> Self::Out
        ensures { memory_gives self.old memory.now result self.new };

    /// The answer for the target of a direct branch.
    fn target(&mut self, value: &Value) -> Self::Out
        ensures { target_gives self.old value.now result self.new };
}

/// The visitor's answer for the operand.
pub fn fold_operand<V: OperandFold>(operand: &Operand, visitor: &mut V) -> V::Out
    ensures { FoldsOperand V.register_gives V.immediate_gives V.memory_gives V.target_gives
        operand.now visitor.old result visitor.new }
{
    match operand {
        Operand::Register(reg) => visitor.register(reg),
        Operand::Immediate(value) => visitor.immediate(value),
        Operand::Memory(memory) => visitor.memory(memory),
        Operand::Target(value) => visitor.target(value),
    }
}
