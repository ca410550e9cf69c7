//! Whether parts fit a row.

ghost use Rattle.std.specs.Prelude.{◌≡◌, ◌≤◌};
ghost use Rattle.x86_table.specs.Fields.{located, fields_of};
ghost use Rattle.x86_table.specs.Fits.{long_fits, displacement_fits, index_fits, sib_fits, mode_fits, some_place_fits, is_memory, rm_fits, is_nowhere, place_fits, reg_fits, low_fits, immediate_fits, is_middle_place, wants_rex, rex_fits, is_no_segment, segment_fits, takes_none, may_rep, may_repe, may_repne, may_lock, may_notrack, prefix_fits, fields_fit};

use x86_insn::{Index, Prefix, Segment};
use x86_parts::{is_byte, is_middle, is_signed_8, is_signed_32};
use x86_table::{Immediate, Parts, Pattern, Place, Repeat, Rm, Row, Shape, Width, Words, rex_bits};

/// Whether 32 bits hold the number.
fn long_fits(held: Option<u64>) -> bool
    ensures { result ≡ long_fits held }
{
    match held {
        None => true,
        Some(value) => is_signed_32(value),
    }
}

/// Whether a displacement of this width holds the number.
fn displacement_fits(width: Width, held: Option<u64>) -> bool
    ensures { result ≡ displacement_fits width held }
{
    match width {
        Width::Absent => match held {
            None => false,
            Some(value) => value == 0,
        },
        Width::Byte => match held {
            None => false,
            Some(value) => is_signed_8(value),
        },
        Width::Long => long_fits(held),
    }
}

/// Whether the index can be encoded.
fn index_fits(index: Index) -> bool
    ensures { result ≡ index_fits index }
{
    match index {
        Index::Absent => true,
        Index::By(number, scale) => number < 16 && (number != 4 && scale < 4),
    }
}

/// Whether an address can do without the SIB byte, if it does.
fn sib_fits(has_sib: bool, index: Index, base: u8) -> bool
    ensures { result ≡ sib_fits has_sib index base }
{
    if has_sib {
        true
    } else {
        match index {
            Index::Absent => base % 8 != 4,
            Index::By(_, _) => false,
        }
    }
}

/// Whether an address can do without a displacement, if it does.
fn mode_fits(width: Width, base: u8) -> bool
    ensures { result ≡ mode_fits width base }
{
    match width {
        Width::Absent => base % 8 != 5,
        Width::Byte => true,
        Width::Long => true,
    }
}

/// Whether ModRM and SIB can name the place.
fn some_place_fits(place: Place, moved: Option<u64>) -> bool
    ensures { result ≡ some_place_fits (located moved place) }
{
    match place {
        Place::Absent => false,
        Place::Direct(number) => number < 16,
        Place::Rip => long_fits(moved),
        Place::Bare(index) => index_fits(index) && long_fits(moved),
        Place::Based(base, index, has_sib, width) => {
            base < 16
                && (index_fits(index)
                    && (sib_fits(has_sib, index, base)
                        && (mode_fits(width, base) && displacement_fits(width, moved))))
        }
    }
}

/// Whether the place is in memory.
fn is_memory(place: Place, moved: Option<u64>) -> bool
    ensures { result ≡ is_memory (located moved place) }
{
    match place {
        Place::Absent => false,
        Place::Direct(_) => false,
        Place::Rip => true,
        Place::Bare(_) => true,
        Place::Based(_, _, _, _) => true,
    }
}

/// Whether the row takes what ModRM.rm names.
fn rm_fits(rm: Rm, place: Place, moved: Option<u64>) -> bool
    ensures { result ≡ rm_fits rm (located moved place) }
{
    match rm {
        Rm::Any => true,
        Rm::Memory => is_memory(place, moved),
        Rm::Register => !is_memory(place, moved),
    }
}

/// Whether there is no place.
fn is_nowhere(place: Place, moved: Option<u64>) -> bool
    ensures { result ≡ is_nowhere (located moved place) }
{
    match place {
        Place::Absent => true,
        Place::Direct(_) => false,
        Place::Rip => false,
        Place::Bare(_) => false,
        Place::Based(_, _, _, _) => false,
    }
}

/// Whether the row takes the place.
fn place_fits(shape: Shape, place: Place, moved: Option<u64>) -> bool
    ensures { result ≡ place_fits shape (located moved place) }
{
    match shape {
        Shape::Plain => is_nowhere(place, moved),
        Shape::Low => is_nowhere(place, moved),
        Shape::LowNotFirst => is_nowhere(place, moved),
        Shape::Fixed(_) => is_nowhere(place, moved),
        Shape::Digit(_, rm) => some_place_fits(place, moved) && rm_fits(rm, place, moved),
        Shape::Slash(rm) => some_place_fits(place, moved) && rm_fits(rm, place, moved),
    }
}

/// Whether the row takes the number in ModRM.reg.
fn reg_fits(shape: Shape, reg: u8) -> bool
    ensures { result ≡ reg_fits shape reg }
{
    match shape {
        Shape::Plain => reg == 0,
        Shape::Low => reg == 0,
        Shape::LowNotFirst => reg == 0,
        Shape::Fixed(_) => reg == 0,
        Shape::Digit(digit, _) => reg == digit && digit < 8,
        Shape::Slash(_) => reg < 16,
    }
}

/// Whether the row takes the register in the opcode.
fn low_fits(shape: Shape, low: u8) -> bool
    ensures { result ≡ low_fits shape low }
{
    match shape {
        Shape::Plain => low == 0,
        Shape::Low => low < 16,
        Shape::LowNotFirst => low < 16 && low != 0,
        Shape::Fixed(_) => low == 0,
        Shape::Digit(_, _) => low == 0,
        Shape::Slash(_) => low == 0,
    }
}

/// Whether an immediate of this kind holds the number.
fn value_fits(immediate: Immediate, value: u64) -> bool
    ensures { result ≡ immediate_fits immediate (Some value) }
{
    match immediate {
        Immediate::Absent => value == 0,
        Immediate::Byte => value < 256,
        Immediate::Count => value < 256,
        Immediate::Sext16 => value < 128 || 0xFF80 <= value && value < 0x1_0000,
        Immediate::Sext32 => value < 128 || 0xFFFF_FF80 <= value && value < 0x1_0000_0000,
        Immediate::Sext64 => is_signed_8(value),
        Immediate::Word => value < 0x1_0000,
        Immediate::Long => value < 0x1_0000_0000,
        Immediate::LongSext => is_signed_32(value),
        Immediate::Quad => true,
        Immediate::Rel8 => is_signed_8(value),
        Immediate::Short => is_signed_8(value),
        Immediate::Rel32 => is_signed_32(value),
    }
}

/// Whether an immediate of this kind holds a number that is not known now.
fn unknown_fits(immediate: Immediate) -> bool
    ensures { result ≡ immediate_fits immediate None }
{
    match immediate {
        Immediate::Absent => false,
        Immediate::Byte => true,
        Immediate::Count => false,
        Immediate::Sext16 => false,
        Immediate::Sext32 => false,
        Immediate::Sext64 => false,
        Immediate::Word => true,
        Immediate::Long => true,
        Immediate::LongSext => true,
        Immediate::Quad => true,
        Immediate::Rel8 => true,
        Immediate::Short => false,
        Immediate::Rel32 => true,
    }
}

/// Whether the row takes the immediate.
fn immediate_fits(immediate: Immediate, held: Option<u64>) -> bool
    ensures { result ≡ immediate_fits immediate held }
{
    match held {
        Some(value) => value_fits(immediate, value),
        None => unknown_fits(immediate),
    }
}

/// Whether the place is a register with such a number.
fn is_middle_place(place: Place, moved: Option<u64>) -> bool
    ensures { result ≡ is_middle_place (located moved place) }
{
    match place {
        Place::Absent => false,
        Place::Direct(number) => is_middle(number),
        Place::Rip => false,
        Place::Bare(_) => false,
        Place::Based(_, _, _, _) => false,
    }
}

/// Whether REX makes spl, bpl, sil or dil of the operand.
fn wants_rex(parts: &Parts, pattern: Pattern) -> bool
    ensures { result ≡ wants_rex (fields_of parts.now) pattern }
{
    match pattern {
        Pattern::RegMem(class, _) => {
            is_byte(class) && is_middle_place(parts.place, parts.displacement)
        }
        Pattern::Reg(class) => is_byte(class) && is_middle(parts.reg),
        Pattern::Low(class) => is_byte(class) && is_middle(parts.low),
        Pattern::Absent => false,
        Pattern::Accumulator(_) => false,
        Pattern::Cl => false,
        Pattern::One => false,
        Pattern::Immediate => false,
        Pattern::Target => false,
    }
}

/// Whether REX may stand without any of its bits, if it does.
fn rex_fits(row: &Row, parts: &Parts) -> bool
    ensures { result ≡ rex_fits row.now (fields_of parts.now) }
{
    !parts.bare_rex
        || (rex_bits(row, parts) == 0
            && (wants_rex(parts, row.first)
                || (wants_rex(parts, row.second) || wants_rex(parts, row.third))))
}

/// Whether there is no segment.
fn is_no_segment(segment: Option<Segment>) -> bool
    ensures { result ≡ is_no_segment segment }
{
    match segment {
        None => true,
        Some(_) => false,
    }
}

/// Whether the segment may stand with the place.
fn segment_fits(segment: Option<Segment>, place: Place, moved: Option<u64>) -> bool
    ensures { result ≡ segment_fits segment (located moved place) }
{
    match segment {
        None => true,
        Some(_) => is_memory(place, moved),
    }
}

/// Whether the row takes the prefix word.
fn prefix_fits(row: &Row, parts: &Parts) -> bool
    ensures { let place = located parts.now.displacement parts.now.place in
        result ≡ prefix_fits row.now.lead.repeat row.now.words parts.now.prefix parts.now.segment place }
{
    match parts.prefix {
        Prefix::Absent => true,
        Prefix::Lock => {
            matches!(row.words, Words::Lock) && is_memory(parts.place, parts.displacement)
        }
        Prefix::Rep => {
            matches!(row.words, Words::Rep) && matches!(row.lead.repeat, Repeat::Absent)
        }
        Prefix::Repe => {
            matches!(row.words, Words::Repe) && matches!(row.lead.repeat, Repeat::Absent)
        }
        Prefix::Repne => {
            matches!(row.words, Words::Repe) && matches!(row.lead.repeat, Repeat::Absent)
        }
        Prefix::Notrack => matches!(row.words, Words::Notrack) && is_no_segment(parts.segment),
    }
}

/// Whether each of the parts is one that the row gives a meaning (Intel SDM, volume 2, chapter 2).
#[tactic(auto, unfolding(x86_table::specs::Fits::fields_fit))]
pub fn parts_fit(row: &Row, parts: &Parts) -> bool
    ensures { result ≡ fields_fit row.now (fields_of parts.now) }
{
    prefix_fits(row, parts)
        && (segment_fits(parts.segment, parts.place, parts.displacement)
            && (reg_fits(row.shape, parts.reg)
                && (low_fits(row.shape, parts.low)
                    && (place_fits(row.shape, parts.place, parts.displacement)
                        && (immediate_fits(row.immediate, parts.immediate)
                            && rex_fits(row, parts))))))
}
