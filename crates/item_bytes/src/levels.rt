//! The levels of what grows with its value, and what each holds.

ghost use Rattle.std.specs.Prelude.{◌≡◌, ◌↔◌, ◌+◌, ◌-◌, ◌*◌, ◌^◌, ◌<◌, ◌≤◌, ℕ, length};
ghost use Rattle.item_bytes.specs.Levels.{jump_level, unsigned_level, signed_level, advance_level, IsSignedWithin, AdvanceHolds};
ghost use Rattle.item_bytes.specs.Levels as spec;

/// Where an unsigned number takes another group of 7 bits.
static UNSIGNED_LIMITS: [u64; 9] = [
    1 << 7,
    1 << 14,
    1 << 21,
    1 << 28,
    1 << 35,
    1 << 42,
    1 << 49,
    1 << 56,
    1 << 63,
];

/// Where a signed number takes another group of 7 bits: the highest bit of the last one is its sign.
static SIGNED_LIMITS: [u64; 9] = [
    1 << 6,
    1 << 13,
    1 << 20,
    1 << 27,
    1 << 34,
    1 << 41,
    1 << 48,
    1 << 55,
    1 << 62,
];

/// How many of at most nine limits the value has reached.
fn limits_reached(value: u64, limits: &[u64]) -> u8
    requires { length limits.now ≤ 9 }
    ensures value { result ≡ spec.limits_reached value limits.now }
    ensures within { result ≤ 9 }
{
    for (index, limit) in limits.iter().enumerate() {
        if value < *limit {
            return index as u8;
        }
    }
    limits.len() as u8
}

#[tactic(auto, unfolding(crate::specs::Levels::unsigned_level))]
fn unsigned_level(value: u64) -> u8
    ensures value { result ≡ spec.unsigned_level value }
    ensures within { result ≤ 9 }
{
    limits_reached(value, &UNSIGNED_LIMITS)
}

/// The bits that are not the sign, all of them turned where the number is negative.
fn without_sign(value: u64) -> u64
    ensures { result ≡ spec.without_sign value }
{
    if value < 1 << 63 {
        value
    } else {
        u64::MAX - value
    }
}

#[tactic(auto, unfolding(crate::specs::Levels::signed_level))]
fn signed_level(value: u64) -> u8
    ensures value { result ≡ spec.signed_level value }
    ensures within { result ≤ 9 }
{
    limits_reached(without_sign(value), &SIGNED_LIMITS)
}

/// How many groups of seven bits a number takes besides the first, from 0 to 9 (DWARF 5, section 7.6).
#[inline(never)]
pub fn leb128_level(signed: bool, value: u64) -> u8
    ensures value { result ≡ spec.leb128_level signed value }
    ensures within { result ≤ 9 }
{
    if signed {
        signed_level(value)
    } else {
        unsigned_level(value)
    }
}

/// The least level of a jump whose form holds the distance: 0 is the short form.
#[tactic(auto, unfolding(crate::specs::Levels::jump_level))]
#[inline(always)]
pub fn jump_level(distance: u64) -> u8
    ensures { result ≡ spec.jump_level distance }
{
    if distance.wrapping_add(1 << 7) < 1 << 8 {
        0
    } else {
        1
    }
}

/// The least level of an advance that holds the distance (DWARF 5, section 6.4.2.1).
#[tactic(auto, unfolding(crate::specs::Levels::advance_level))]
#[inline(always)]
pub fn advance_level(distance: u64) -> u8
    ensures { result ≡ spec.advance_level distance }
{
    if distance == 0 {
        0
    } else if distance < 1 << 6 {
        1
    } else if distance < 1 << 8 {
        2
    } else if distance < 1 << 16 {
        3
    } else {
        4
    }
}

/// The short form of a jump holds exactly the distances from -2^7 to 2^7 - 1, and the near form is the only other one.
pub fn short_jumps_hold_a_signed_byte()
    ensures short { (distance : ℕ) → distance < 2 ^ 64
        → (jump_level distance ≡ 0) ↔ IsSignedWithin (2 ^ 7) distance }
    ensures near { (distance : ℕ) → jump_level distance ≤ 1 }
{}

/// So many groups of 7 bits besides the first hold exactly the unsigned numbers below 2^(7 (level + 1)), and the
/// signed ones from -2^(7 (level + 1) - 1) to 2^(7 (level + 1) - 1) - 1. Ten groups hold each number modulo 2^64.
pub fn groups_hold_their_number()
    ensures unsigned { (value level : ℕ) → value < 2 ^ 64
        → (unsigned_level value ≤ level) ↔ (value < 2 ^ (7 * (level + 1))) }
    ensures signed { (value level : ℕ) → value < 2 ^ 64
        → (signed_level value ≤ level) ↔ IsSignedWithin (2 ^ (7 * (level + 1) - 1)) value }
    ensures most_unsigned { (value : ℕ) → unsigned_level value ≤ 9 }
    ensures most_signed { (value : ℕ) → signed_level value ≤ 9 }
{}

/// An advance of no byte holds exactly the distance 0, one of 1 byte those below 2^6, of 2 bytes those
/// below 2^8, of 3 bytes those below 2^16, and of 5 bytes those below 2^32. The last one is taken where none holds it.
pub fn advances_hold_their_distance()
    ensures holds { (distance level : ℕ) → distance < 2 ^ 32
        → (advance_level distance ≤ level) ↔ AdvanceHolds level distance }
    ensures beyond { (distance : ℕ) → 2 ^ 32 ≤ distance → advance_level distance ≡ 4 }
{}
