//! The registers in the brackets of memory, and the address that they make.

ghost use Rattle.std.specs.Prelude.{◌≡◌, ◌<◌, ◌≤◌, length, map, slice_get, option_map, Some, IfSome, IsSome};
ghost use Rattle.asm_base.specs.Tokens.{spelled};
ghost use Rattle.att_operands.specs.Addresses.{register_by, base_by, index_by, takes_index, scale_by};
ghost use Rattle.intel_sums.specs.declared.parts.Part.TheVariants.{Plain};
ghost use Rattle.intel_sums.specs.Parts.{part_ends, scaled_part, named_part, times_part, part_by, part_in, with_part, is_rsp, based, indexed, both_by, both, one_address, two_address, address_of};

use asm_base::Token;
use att_operands::{NamedRegister, base_by, index_by, mark_at, register_by, scale_by, takes_index};
use x86_insn::{Address, Base, Class, Index, Segment};

/// A register in the brackets of memory.
#[derive(Clone, Copy)]
pub enum Part {
    /// A register alone.
    Plain(NamedRegister),
    /// A register times a scale, by its binary logarithm.
    Scaled(NamedRegister, u8),
}

/// The registers in the brackets of memory, in the order in which they are written.
#[derive(Clone, Copy)]
pub enum Parts {
    Nothing,
    One(Part),
    Two(Part, Part),
    /// More than an address can have.
    More,
}

/// A part, and how many tokens it has.
#[derive(Clone, Copy)]
pub(crate) struct FoundPart {
    pub part: Part,
    pub length: usize,
}

/// Whether a part of a sum ends at this place.
#[inline(always)]
#[tactic(auto, unfolding(crate::specs::Parts::part_ends))]
fn part_ends(text: &[Token], at: usize) -> bool
    ensures { result ≡ part_ends (slice_get (map spelled text.now) at) }
{
    if at < text.len() {
        let mark = mark_at(text, at);
        mark == b'+' || mark == b'-'
    } else {
        true
    }
}

/// The register with its scale, behind which a part has to end.
#[inline(always)]
fn scaled_part(text: &[Token], named: NamedRegister, scale: Option<u8>) -> Option<FoundPart>
    ensures { result ≡ scaled_part named (slice_get (map spelled text.now) 3) scale }
{
    match scale {
        Some(scale) => if part_ends(text, 3) {
            Some(FoundPart {
                part: Part::Scaled(named, scale),
                length: 3,
            })
        } else {
            None
        },
        None => None,
    }
}

/// The part that begins with this register.
#[inline(always)]
fn named_part(text: &[Token], named: NamedRegister) -> Option<FoundPart>
    ensures { result ≡ named_part (map spelled text.now) named }
{
    if part_ends(text, 1) {
        return Some(FoundPart {
            part: Part::Plain(named),
            length: 1,
        });
    }
    if mark_at(text, 1) == b'*' {
        scaled_part(text, named, scale_by(text, 2))
    } else {
        None
    }
}

/// The part that begins with a scale.
#[inline(always)]
fn times_part(text: &[Token]) -> Option<FoundPart>
    ensures { let named = register_by (slice_get (map spelled text.now) 2) in
        result ≡ times_part (map spelled text.now) named }
{
    match register_by(text, 2) {
        Some(named) => scaled_part(text, named, scale_by(text, 0)),
        None => None,
    }
}

/// The register in front of the tokens, or the register and its scale, if they are a part of a sum.
#[tactic(auto, unfolding(crate::specs::Parts::part_in))]
pub(crate) fn part_in(text: &[Token]) -> Option<FoundPart>
    ensures { result ≡ part_in (map spelled text.now) }
{
    match register_by(text, 0) {
        Some(named) => named_part(text, named),
        None => if mark_at(text, 1) == b'*' {
            times_part(text)
        } else {
            None
        },
    }
}

/// A part more.
#[inline(always)]
pub(crate) fn with_part(parts: Parts, part: Part) -> Parts
    ensures { result ≡ with_part parts part }
{
    match parts {
        Parts::Nothing => Parts::One(part),
        Parts::One(first) => Parts::Two(first, part),
        Parts::Two(_, _) => Parts::More,
        Parts::More => Parts::More,
    }
}

/// Whether this is rsp.
#[inline(always)]
fn is_rsp(named: NamedRegister) -> bool
    ensures { result ≡ is_rsp named }
{
    match named {
        NamedRegister::Plain(reg) => match reg.class {
            Class::Quad => reg.number == 4,
            _ => false,
        },
        _ => false,
    }
}

/// The address with this base and no index.
#[inline(always)]
fn based(segment: Option<Segment>, base: Option<Base>) -> Option<Address>
    ensures { result ≡ based segment base }
{
    match base {
        Some(base) => Some(Address {
            segment,
            base,
            index: Index::Absent,
        }),
        None => None,
    }
}

/// The address with this index and scale.
#[inline(always)]
fn indexed(segment: Option<Segment>, base: Base, index: Option<u8>, scale: u8) -> Option<Address>
    ensures { result ≡ indexed segment base index scale }
{
    match index {
        Some(number) => if takes_index(base) {
            Some(Address {
                segment,
                base,
                index: Index::By(number, scale),
            })
        } else {
            None
        },
        None => None,
    }
}

/// The address with this base, and an index and its scale.
#[inline(always)]
fn both(
    segment: Option<Segment>,
    base: NamedRegister,
    index: NamedRegister,
    scale: u8,
) -> Option<Address>
    ensures { result ≡ both segment base index scale }
{
    match base_by(Some(base)) {
        Some(base) => indexed(segment, base, index_by(Some(index)), scale),
        None => None,
    }
}

/// The address of one part.
#[inline(always)]
fn one_address(segment: Option<Segment>, part: Part) -> Option<Address>
    ensures { result ≡ one_address segment part }
{
    match part {
        Part::Plain(named) => based(segment, base_by(Some(named))),
        Part::Scaled(named, scale) => indexed(segment, Base::Absent, index_by(Some(named)), scale),
    }
}

/// The address of two registers without a scale: the first is the base, but rsp always is.
#[inline(always)]
fn plain_address(
    segment: Option<Segment>,
    first: NamedRegister,
    second: NamedRegister,
) -> Option<Address>
    ensures { result ≡ two_address segment (Plain first) (Plain second) }
{
    if is_rsp(second) {
        both(segment, second, first, 0)
    } else {
        both(segment, first, second, 0)
    }
}

/// The address of two parts.
#[inline(always)]
fn two_address(segment: Option<Segment>, first: Part, second: Part) -> Option<Address>
    ensures { result ≡ two_address segment first second }
{
    match first {
        Part::Plain(first) => match second {
            Part::Plain(second) => plain_address(segment, first, second),
            Part::Scaled(second, scale) => both(segment, first, second, scale),
        },
        Part::Scaled(first, scale) => match second {
            Part::Plain(second) => both(segment, second, first, scale),
            Part::Scaled(_, _) => None,
        },
    }
}

/// The address that the parts make, if they make one.
#[tactic(auto, unfolding(crate::specs::Parts::address_of))]
pub fn address_of(segment: Option<Segment>, parts: Parts) -> Option<Address>
    ensures { result ≡ address_of segment parts }
{
    match parts {
        Parts::Nothing => Some(Address {
            segment,
            base: Base::Absent,
            index: Index::Absent,
        }),
        Parts::One(part) => one_address(segment, part),
        Parts::Two(first, second) => two_address(segment, first, second),
        Parts::More => None,
    }
}
