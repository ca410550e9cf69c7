//! What an item of a function does.

use crate::registers::NONE;

/// How an item uses the stack, and where control goes from it.
#[derive(Clone, Copy, PartialEq, Eq)]
pub enum Role {
    /// It writes registers, and stores nowhere or at an address that is not followed.
    Other,
    /// `register` gets what `base` holds and `amount`.
    Move,
    /// 8 bytes are pushed: `register`, or others.
    Push,
    /// 8 bytes are popped into `register`, or elsewhere.
    Pop,
    /// 8 bytes are popped to `amount` from `base`, where rsp counts as it is then.
    PopMemory,
    /// The stack pointer is popped.
    PopStack,
    /// A push of another size than 8 bytes, counted as one of 8 bytes.
    PushWord,
    /// A pop of another size than 8 bytes, counted as one of 8 bytes.
    PopWord,
    /// `size` bytes are stored at `amount` from `base`: `register` whole, or others.
    Store,
    /// `register` gets the 8 bytes at `amount` from `base`.
    Load,
    /// rsp gets what rbp holds and 8, and rbp the 8 bytes there.
    Leave,
    /// A call of a target.
    Call,
    /// A call of what a register or memory holds.
    CallThrough,
    /// A direct jump.
    Jump,
    /// A direct jump that may go on.
    Branch,
    /// A jump to what a register or memory holds.
    JumpThrough,
    Return,
    /// A return that takes bytes off the stack.
    ReturnPopping,
    /// Control goes nowhere from it.
    Stop,
    /// No-operations.
    Padding,
    /// No instruction.
    Data,
}

/// What an item does. Registers have their numbers among the seven, `NONE` for others.
#[derive(Clone, Copy, PartialEq, Eq)]
pub struct Effect {
    pub role: Role,
    /// The registers of the seven that it writes in another way than its role says, one bit for
    /// each, the lowest for rsp.
    pub written: u8,
    pub register: u8,
    pub base: u8,
    pub size: u8,
    pub amount: u64,
}

impl Effect {
    ghost use Rattle.std.specs.Prelude.{◌≡◌};
    ghost use Rattle.insn_effects.specs.Followed.{writing};

    /// An item of this role that writes these registers.
    pub fn writing(role: Role, written: u8) -> Effect
        ensures { result ≡ writing role written }
    {
        Effect {
            role,
            written,
            register: NONE,
            base: NONE,
            size: 0,
            amount: 0,
        }
    }

    /// An item of this role alone.
    pub fn plain(role: Role) -> Effect
        ensures { result ≡ writing role 0 }
    {
        Effect::writing(role, 0)
    }
}
