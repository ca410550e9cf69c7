//! The registers (Intel SDM, volume 1, sections 3.4.1 and 10.2.2).

ghost use Rattle.std.specs.Prelude.{◌≡◌};
ghost use Rattle.x86_insn.specs.Registers.{is_part_of};

/// The registers that share a width and a way of being encoded.
#[derive(Clone, Copy)]
pub enum Class {
    /// 8 bits: al to dil, and r8b to r15b.
    Byte,
    /// 8 bits: ah, ch, dh and bh, whose numbers are 4 to 7.
    High,
    /// 16 bits.
    Word,
    /// 32 bits.
    Long,
    /// 64 bits.
    Quad,
    /// 128 bits: xmm0 to xmm15.
    Xmm,
}

/// A register, by its number in the encoding: 0 to 15.
#[derive(Clone, Copy)]
pub struct Reg {
    pub class: Class,
    pub number: u8,
}

impl Reg {
    /// Whether the register is the general-purpose register of this number, or a part of it.
    pub fn is_part_of(self, number: u8) -> bool
        ensures { result ≡ is_part_of number self }
    {
        match self.class {
            Class::Byte | Class::Word | Class::Long | Class::Quad => self.number == number,
            Class::High => self.number >= 4 && self.number - 4 == number,
            Class::Xmm => false,
        }
    }
}
