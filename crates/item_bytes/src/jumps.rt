//! Jumps, in their short and their near form.

ghost use Rattle.std.specs.Prelude.{◌≡◌, ◌<◌, ◌^◌, ℕ, Bool, Option, Some, All, length, true, false, if◌then◌else◌};
ghost use Rattle.item_bytes.specs.Levels.{jump_size};
ghost use Rattle.item_bytes.specs.Levels.{IsSignedWithin};
ghost use Rattle.item_bytes.specs.Jumps as spec;
ghost use Rattle.item_bytes.specs.declared.jumps.Condition.{Condition as TheCondition};

use crate::low_bytes::{low_byte, push_four};
use arrayvec::ArrayVec;

/// When a conditional jump is taken (Intel SDM, volume 2, appendix B, "Condition test field"), by its number.
#[derive(Clone, Copy, PartialEq, Eq)]
pub enum Condition {
    /// `O`
    Overflow,
    /// `NO`
    NoOverflow,
    /// `B`, `NAE`
    Below,
    /// `NB`, `AE`
    AboveOrEqual,
    /// `E`, `Z`
    Equal,
    /// `NE`, `NZ`
    NotEqual,
    /// `BE`, `NA`
    BelowOrEqual,
    /// `NBE`, `A`
    Above,
    /// `S`
    Sign,
    /// `NS`
    NoSign,
    /// `P`, `PE`
    Parity,
    /// `NP`, `PO`
    NoParity,
    /// `L`, `NGE`
    Less,
    /// `NL`, `GE`
    GreaterOrEqual,
    /// `LE`, `NG`
    LessOrEqual,
    /// `NLE`, `G`
    Greater,
}

impl Condition {
    /// The number of the condition, from 0 to 15.
    pub fn number(self) -> u8
        ensures number { result ≡ spec.number_of self }
        ensures four_bits { result < 2 ^ 4 }
    {
        match self {
            Condition::Overflow => 0,
            Condition::NoOverflow => 1,
            Condition::Below => 2,
            Condition::AboveOrEqual => 3,
            Condition::Equal => 4,
            Condition::NotEqual => 5,
            Condition::BelowOrEqual => 6,
            Condition::Above => 7,
            Condition::Sign => 8,
            Condition::NoSign => 9,
            Condition::Parity => 10,
            Condition::NoParity => 11,
            Condition::Less => 12,
            Condition::GreaterOrEqual => 13,
            Condition::LessOrEqual => 14,
            Condition::Greater => 15,
        }
    }
}

/// The conditions, by their numbers.
pub static CONDITIONS: [Condition; 16] = [
    Condition::Overflow,
    Condition::NoOverflow,
    Condition::Below,
    Condition::AboveOrEqual,
    Condition::Equal,
    Condition::NotEqual,
    Condition::BelowOrEqual,
    Condition::Above,
    Condition::Sign,
    Condition::NoSign,
    Condition::Parity,
    Condition::NoParity,
    Condition::Less,
    Condition::GreaterOrEqual,
    Condition::LessOrEqual,
    Condition::Greater,
];

/// The conditions, as a slice.
#[tactic(auto, unfolding(crate::specs::Jumps::the_conditions))]
fn conditions() -> &'static [Condition]
    ensures { result.now ≡ spec.the_conditions }
{
    &CONDITIONS
}

/// The condition of this number, if it is below 16.
pub fn condition_of(number: u8) -> Option<Condition>
    ensures { result ≡ spec.condition_of number }
{
    match conditions().get(number as usize) {
        Some(condition) => Some(*condition),
        None => None,
    }
}

/// A jump of an opcode of one byte and a distance of one byte.
fn short_jump(condition: Option<Condition>, distance: u64) -> ArrayVec<u8, 6>
    ensures { result.items ≡ spec.short_jump condition distance }
{
    let mut bytes = ArrayVec::new();
    match condition {
        None => bytes.push(0xeb),
        Some(condition) => bytes.push(0x70 + condition.number()),
    }
    bytes.push(low_byte(distance));
    bytes
}

/// A jump of an opcode of one byte, or of two with a condition, and a distance of four bytes.
fn near_jump(condition: Option<Condition>, distance: u64) -> ArrayVec<u8, 6>
    ensures { result.items ≡ spec.near_jump condition distance }
{
    let mut bytes = ArrayVec::new();
    match condition {
        None => bytes.push(0xe9),
        Some(condition) => {
            bytes.push(0x0f);
            bytes.push(0x80 + condition.number());
        }
    }
    push_four(&mut bytes, distance);
    bytes
}

/// A jump over a distance from its own end (Intel SDM, volume 2, `JMP` and `Jcc`).
#[tactic(auto, unfolding(crate::specs::Jumps::jump_bytes))]
pub fn jump(condition: Option<Condition>, near: bool, distance: u64) -> ArrayVec<u8, 6>
    ensures { result.items ≡ spec.jump_bytes condition near distance }
{
    if near {
        near_jump(condition, distance)
    } else {
        short_jump(condition, distance)
    }
}

/// Each condition is the one of its number.
#[tactic(auto, using(crate::proofs::ConditionLemmas::numbered))]
pub fn conditions_have_numbers()
    ensures { (condition : TheCondition)
        → spec.condition_of (spec.number_of condition) ≡ Some condition }
{}

/// A jump has the size of its level, and its last byte or four give the distance back that they hold.
#[tactic(auto, unfolding(crate::specs::Jumps::jump_bytes, crate::specs::Jumps::jump_distance))]
pub fn jump_reads_back()
    ensures size { (condition : Option TheCondition) (near : Bool) (distance : ℕ)
        → length (spec.jump_bytes condition near distance)
        ≡ jump_size (spec.is_conditional condition) (if near then 1 else 0) }
    ensures short { (condition : Option TheCondition) (distance : ℕ) → distance < 2 ^ 64
        → IsSignedWithin (2 ^ 7) distance
        → spec.jump_distance false (spec.jump_bytes condition false distance) ≡ distance }
    ensures near { (condition : Option TheCondition) (distance : ℕ) → distance < 2 ^ 64
        → IsSignedWithin (2 ^ 31) distance
        → spec.jump_distance true (spec.jump_bytes condition true distance) ≡ distance }
    ensures bytes { (condition : Option TheCondition) (near : Bool) (distance : ℕ)
        → All (λ byte. byte < 2 ^ 8) (spec.jump_bytes condition near distance) }
{}
