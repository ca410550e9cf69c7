//! Whether fields that were read from bytes fit their row.

ghost use Rattle.std.specs.Prelude.{◌≡◌, ◌&&◌};
ghost use Rattle.x86_table.specs.Fields.{fields_of, located};
ghost use Rattle.x86_table.specs.Fits as spec;
ghost use Rattle.x86_decode.specs.Fitting.{AreRead};

use x86_insn::{Class, Prefix, Segment};
use x86_table::{Parts, Pattern, Place, Repeat, Row, Shape, Words, rex_bits};

/// Whether the place is in memory.
fn is_memory(place: Place, moved: Option<u64>) -> bool
    ensures { result ≡ spec.is_memory (located moved place) }
{
    match place {
        Place::Absent => false,
        Place::Direct(_) => false,
        Place::Rip => true,
        Place::Bare(_) => true,
        Place::Based(_, _, _, _) => true,
    }
}

/// Whether the row takes the number in ModRM.reg.
fn reg_fits(shape: Shape, reg: u8) -> bool
    ensures { result ≡ spec.reg_fits shape reg }
{
    match shape {
        Shape::Plain => reg == 0,
        Shape::Low => reg == 0,
        Shape::LowNotFirst => reg == 0,
        Shape::Fixed(_) => reg == 0,
        Shape::Digit(digit, _) => reg == digit && digit < 8,
        Shape::Slash(_) => reg < 16,
    }
}

/// Whether the register is spl, bpl, sil or dil with REX.
fn is_split(class: Class, number: u8) -> bool
    ensures { result ≡ (spec.is_byte class && spec.is_middle number) }
{
    match class {
        Class::Byte => 4 <= number && number < 8,
        Class::High => false,
        Class::Word => false,
        Class::Long => false,
        Class::Quad => false,
        Class::Xmm => false,
    }
}

/// Whether the place is such a register.
fn is_split_place(class: Class, place: Place, moved: Option<u64>) -> bool
    ensures { result ≡ (spec.is_byte class && spec.is_middle_place (located moved place)) }
{
    match place {
        Place::Absent => false,
        Place::Direct(number) => is_split(class, number),
        Place::Rip => false,
        Place::Bare(_) => false,
        Place::Based(_, _, _, _) => false,
    }
}

/// Whether REX makes spl, bpl, sil or dil of the operand.
fn wants_rex(parts: &Parts, pattern: Pattern) -> bool
    ensures { result ≡ spec.wants_rex (fields_of parts.now) pattern }
{
    match pattern {
        Pattern::RegMem(class, _) => is_split_place(class, parts.place, parts.displacement),
        Pattern::Reg(class) => is_split(class, parts.reg),
        Pattern::Low(class) => is_split(class, parts.low),
        Pattern::Absent => false,
        Pattern::Accumulator(_) => false,
        Pattern::Cl => false,
        Pattern::One => false,
        Pattern::Immediate => false,
        Pattern::Target => false,
    }
}

/// Whether REX may stand without any of its bits, if it does.
fn rex_fits(row: &Row, parts: &Parts) -> bool
    ensures { result ≡ spec.rex_fits row.now (fields_of parts.now) }
{
    !parts.bare_rex
        || (rex_bits(row, parts) == 0
            && (wants_rex(parts, row.first)
                || (wants_rex(parts, row.second) || wants_rex(parts, row.third))))
}

/// Whether there is no segment.
fn is_no_segment(segment: Option<Segment>) -> bool
    ensures { result ≡ spec.is_no_segment segment }
{
    match segment {
        None => true,
        Some(_) => false,
    }
}

/// Whether the segment may stand with the place.
fn segment_fits(segment: Option<Segment>, place: Place, moved: Option<u64>) -> bool
    ensures { result ≡ spec.segment_fits segment (located moved place) }
{
    match segment {
        None => true,
        Some(_) => is_memory(place, moved),
    }
}

/// Whether the row takes the prefix word.
fn prefix_fits(row: &Row, parts: &Parts) -> bool
    ensures { let place = located parts.now.displacement parts.now.place in let lead = row.now.lead in
        result ≡ spec.prefix_fits lead.repeat row.now.words parts.now.prefix parts.now.segment place }
{
    match parts.prefix {
        Prefix::Absent => true,
        Prefix::Lock => {
            matches!(row.words, Words::Lock) && is_memory(parts.place, parts.displacement)
        }
        Prefix::Rep => {
            matches!(row.words, Words::Rep) && matches!(row.lead.repeat, Repeat::Absent)
        }
        Prefix::Repe => {
            matches!(row.words, Words::Repe) && matches!(row.lead.repeat, Repeat::Absent)
        }
        Prefix::Repne => {
            matches!(row.words, Words::Repe) && matches!(row.lead.repeat, Repeat::Absent)
        }
        Prefix::Notrack => matches!(row.words, Words::Notrack) && is_no_segment(parts.segment),
    }
}

/// Whether the row gives each of the parts a meaning (Intel SDM, volume 2, chapter 2). Of parts that were
/// read from bytes with a head that the row admits, the register in the opcode, the place and the immediate
/// always fit.
#[tactic(auto, using(crate::proofs::ReadFields::what_is_left))]
pub(crate) fn parts_fit(row: &Row, parts: &Parts) -> bool
    requires { AreRead row.now (fields_of parts.now) }
    ensures { result ≡ spec.fields_fit row.now (fields_of parts.now) }
{
    prefix_fits(row, parts)
        && (segment_fits(parts.segment, parts.place, parts.displacement)
            && (reg_fits(row.shape, parts.reg) && rex_fits(row, parts)))
}
