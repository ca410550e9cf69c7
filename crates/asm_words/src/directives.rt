//! The directives, as one table with its look-up by name.

ghost use Rattle.std.specs.Prelude.{◌≡◌, find, option_map, IsTrue};
ghost use Rattle.std.specs.List.{list_all};
ghost use Rattle.std.specs.Str.{bytes_eq};
ghost use Rattle.asm_words.specs.Directives as spec;
ghost use Rattle.asm_words.specs.Slots.{row_in};

use crate::slots::slot;
use asm_frags::FieldSize;
use asm_symbols::{Binding, SymbolAttribute, Visibility};

/// A section that is there from the beginning.
#[derive(Clone, Copy)]
pub enum InitialSection {
    Text,
    Data,
    Bss,
}

/// What an alignment is said by.
#[derive(Clone, Copy)]
pub enum AlignedBy {
    /// The exponent of a power of two.
    Exponent,
    /// A number of bytes, which is a power of two.
    Bytes,
}

/// The syntax of instructions (GNU as manual, "AT&T Syntax versus Intel Syntax").
#[derive(Clone, Copy, PartialEq, Eq, Debug)]
pub enum Syntax {
    Att,
    Intel,
}

/// A directive of procedures and their frame tables (GNU as manual, "CFI directives").
#[derive(Clone, Copy)]
pub enum FrameDirective {
    StartProc,
    EndProc,
    /// Which sections frame tables go into.
    Sections,
    DefCfa,
    DefCfaRegister,
    DefCfaOffset,
    AdjustCfaOffset,
    Offset,
    RelOffset,
    ValOffset,
    Register,
    RememberState,
    RestoreState,
    Restore,
    Undefined,
    SameValue,
    /// The routine that unwinds through the procedure.
    Personality,
    /// The data for that routine.
    Lsda,
}

/// What a directive does; several names may have one.
#[derive(Clone, Copy)]
pub enum Directive {
    /// Data of this size.
    Data(FieldSize),
    /// Strings, with a zero byte behind each or without.
    Strings { ended: bool },
    /// Numbers in groups of seven bits, signed or not.
    Leb128 { signed: bool },
    Zero,
    Skip,
    Fill,
    /// Padding up to a multiple of a power of two.
    Align(AlignedBy),
    /// Bytes up to a place.
    Org,
    /// Items go into this section.
    Enter(InitialSection),
    Section,
    PushSection,
    PopSection,
    Previous,
    Say(SymbolAttribute),
    Type,
    Size,
    /// An assignment, to a symbol that was nothing before or to any.
    Assign { once: bool },
    Comm,
    Lcomm,
    Ident,
    /// The name of the source, or a file of the line table with its number.
    File,
    /// A row of the line table.
    Loc,
    /// A fault, which says its text or has none.
    Error { said: bool },
    /// A warning with its text.
    Warning,
    /// Instructions are in this syntax from here on.
    Syntax(Syntax),
    /// Instructions are those of 64 bits, as they always are.
    Code64,
    /// What a procedure's frame table says.
    Frame(FrameDirective),
}

/// A name of a directive.
#[derive(Clone, Copy)]
pub struct DirectiveRow {
    /// The name as the GNU as manual spells it, filled up with spaces.
    pub name: [u8; 24],
    /// How many bytes of `name` are the name.
    pub length: usize,
    pub directive: Directive,
}

/// Rows, a line each.
macro_rules! directives {
    ($($name:literal $length:literal $directive:expr;)*) => {
        [$(DirectiveRow {
            name: *$name,
            length: $length,
            directive: $directive,
        }),*]
    };
}

/// The names of the GNU as manual, chapter 7, "Assembler Directives".
#[rattlefmt::skip]
pub static DIRECTIVES: [DirectiveRow; 71] = directives! {
    b".byte                   " 5  Directive::Data(FieldSize::One);
    b".long                   " 5  Directive::Data(FieldSize::Four);
    b".quad                   " 5  Directive::Data(FieldSize::Eight);
    b".short                  " 6  Directive::Data(FieldSize::Two);
    b".value                  " 6  Directive::Data(FieldSize::Two);
    b".word                   " 5  Directive::Data(FieldSize::Two);
    b".int                    " 4  Directive::Data(FieldSize::Four);
    b".2byte                  " 6  Directive::Data(FieldSize::Two);
    b".4byte                  " 6  Directive::Data(FieldSize::Four);
    b".8byte                  " 6  Directive::Data(FieldSize::Eight);
    b".ascii                  " 6  Directive::Strings { ended: false };
    b".asciz                  " 6  Directive::Strings { ended: true };
    b".string                 " 7  Directive::Strings { ended: true };
    b".uleb128                " 8  Directive::Leb128 { signed: false };
    b".sleb128                " 8  Directive::Leb128 { signed: true };
    b".zero                   " 5  Directive::Zero;
    b".skip                   " 5  Directive::Skip;
    b".space                  " 6  Directive::Skip;
    b".fill                   " 5  Directive::Fill;
    b".p2align                " 8  Directive::Align(AlignedBy::Exponent);
    b".align                  " 6  Directive::Align(AlignedBy::Bytes);
    b".balign                 " 7  Directive::Align(AlignedBy::Bytes);
    b".org                    " 4  Directive::Org;
    b".text                   " 5  Directive::Enter(InitialSection::Text);
    b".data                   " 5  Directive::Enter(InitialSection::Data);
    b".bss                    " 4  Directive::Enter(InitialSection::Bss);
    b".section                " 8  Directive::Section;
    b".pushsection            " 12 Directive::PushSection;
    b".popsection             " 11 Directive::PopSection;
    b".previous               " 9  Directive::Previous;
    b".globl                  " 6  Directive::Say(SymbolAttribute::Bind(Binding::Global));
    b".global                 " 7  Directive::Say(SymbolAttribute::Bind(Binding::Global));
    b".weak                   " 5  Directive::Say(SymbolAttribute::Bind(Binding::Weak));
    b".local                  " 6  Directive::Say(SymbolAttribute::Bind(Binding::Local));
    b".hidden                 " 7  Directive::Say(SymbolAttribute::See(Visibility::Hidden));
    b".protected              " 10 Directive::Say(SymbolAttribute::See(Visibility::Protected));
    b".internal               " 9  Directive::Say(SymbolAttribute::See(Visibility::Internal));
    b".type                   " 5  Directive::Type;
    b".size                   " 5  Directive::Size;
    b".set                    " 4  Directive::Assign { once: false };
    b".equ                    " 4  Directive::Assign { once: false };
    b".equiv                  " 6  Directive::Assign { once: true };
    b".comm                   " 5  Directive::Comm;
    b".lcomm                  " 6  Directive::Lcomm;
    b".ident                  " 6  Directive::Ident;
    b".file                   " 5  Directive::File;
    b".err                    " 4  Directive::Error { said: false };
    b".error                  " 6  Directive::Error { said: true };
    b".warning                " 8  Directive::Warning;
    b".intel_syntax           " 13 Directive::Syntax(Syntax::Intel);
    b".att_syntax             " 11 Directive::Syntax(Syntax::Att);
    b".code64                 " 7  Directive::Code64;
    b".cfi_startproc          " 14 Directive::Frame(FrameDirective::StartProc);
    b".cfi_endproc            " 12 Directive::Frame(FrameDirective::EndProc);
    b".cfi_sections           " 13 Directive::Frame(FrameDirective::Sections);
    b".cfi_def_cfa            " 12 Directive::Frame(FrameDirective::DefCfa);
    b".cfi_def_cfa_register   " 21 Directive::Frame(FrameDirective::DefCfaRegister);
    b".cfi_def_cfa_offset     " 19 Directive::Frame(FrameDirective::DefCfaOffset);
    b".cfi_adjust_cfa_offset  " 22 Directive::Frame(FrameDirective::AdjustCfaOffset);
    b".cfi_offset             " 11 Directive::Frame(FrameDirective::Offset);
    b".cfi_rel_offset         " 15 Directive::Frame(FrameDirective::RelOffset);
    b".cfi_val_offset         " 15 Directive::Frame(FrameDirective::ValOffset);
    b".cfi_register           " 13 Directive::Frame(FrameDirective::Register);
    b".cfi_remember_state     " 19 Directive::Frame(FrameDirective::RememberState);
    b".cfi_restore_state      " 18 Directive::Frame(FrameDirective::RestoreState);
    b".cfi_restore            " 12 Directive::Frame(FrameDirective::Restore);
    b".cfi_undefined          " 14 Directive::Frame(FrameDirective::Undefined);
    b".cfi_same_value         " 15 Directive::Frame(FrameDirective::SameValue);
    b".loc                    " 4  Directive::Loc;
    b".cfi_personality        " 16 Directive::Frame(FrameDirective::Personality);
    b".cfi_lsda               " 9  Directive::Frame(FrameDirective::Lsda);
};

/// The number of the row of each slot, or 255 where no name has the slot.
#[rattlefmt::skip]
pub static DIRECTIVE_SLOTS: [u8; 256] = [
     14, 255, 255, 255, 255,  67, 255, 255, 255, 255,  45,  31, 255, 255, 255,   7,
    255,  42,  51, 255, 255, 255,  16,  19, 255, 255, 255, 255, 255, 255,   0,  32,
     57, 255, 255, 255, 255, 255, 255, 255, 255, 255,  22, 255, 255, 255,  58, 255,
    255,  39,  66,   3,  49, 255, 255,  30, 255, 255, 255, 255, 255,  35,  60, 255,
    255, 255, 255, 255,  37,  59, 255, 255,  26, 255, 255, 255,   2, 255, 255, 255,
    255, 255, 255, 255,  48, 255, 255, 255, 255, 255, 255,  65, 255, 255, 255, 255,
    255,  64,  63,  20, 255, 255, 255, 255, 255,  46, 255,  47,  15, 255, 255, 255,
    255,   9, 255, 255, 255, 255,  13, 255,  24, 255, 255,  18, 255, 255,  28, 255,
     10, 255, 255, 255, 255,   8, 255,  41, 255,  38,  17, 255, 255, 255,  21, 255,
    255,  69, 255, 255, 255, 255, 255, 255, 255, 255,  36, 255, 255, 255, 255, 255,
     53,  27,  34, 255, 255,  43, 255, 255, 255, 255,  12, 255, 255, 255,   5, 255,
    255, 255, 255, 255, 255, 255, 255,  11,  29,  55, 255,   4, 255, 255,  40, 255,
    255, 255, 255,  54,  52, 255, 255, 255, 255, 255, 255, 255, 255, 255, 255, 255,
    255, 255, 255, 255, 255, 255, 255, 255, 255, 255,  61, 255, 255,  68,  33, 255,
    255, 255,  56,   6, 255,  44, 255, 255, 255, 255, 255,  50, 255,  23,  70, 255,
    255, 255, 255, 255, 255, 255, 255, 255, 255, 255,   1, 255,  62, 255, 255,  25,
];

/// The table.
#[tactic(auto, unfolding(crate::specs::Directives::the_directives))]
fn directives() -> &'static [DirectiveRow]
    ensures { result.now ≡ spec.the_directives }
{
    &DIRECTIVES
}

/// Whether the bytes are equal. Most names have four to eight, of which the first four and the last
/// four are looked at.
#[inline(always)]
#[tactic(auto, using(crate::proofs::SameBytes::ends_say))]
fn are_same(one: &[u8], other: &[u8]) -> bool
    ensures { result ≡ bytes_eq one.now other.now }
{
    if one.len() != other.len() || 8 < one.len() {
        return one == other;
    }
    match (one.first_chunk::<4>(), other.first_chunk::<4>()) {
        (Some(front), Some(here)) => match (one.last_chunk::<4>(), other.last_chunk::<4>()) {
            (Some(back), Some(there)) => front == here && back == there,
            _ => one == other,
        },
        _ => one == other,
    }
}

/// Whether the row has the name: what stands before the spaces.
#[tactic(auto, using(std::proofs::lemmas::List::take_min))]
fn is_directive(name: &[u8], row: &DirectiveRow) -> bool
    ensures { result ≡ spec.is_directive name.now row.now }
{
    let padded = row.name.as_slice();
    are_same(&padded[..row.length.min(padded.len())], name)
}

/// The number of the row that the slot of the name leads to, or 255.
#[tactic(auto, unfolding(crate::specs::Directives::the_directive_slots))]
fn directive_number(name: &[u8]) -> usize
    ensures { result ≡ row_in spec.the_directive_slots name.now }
{
    DIRECTIVE_SLOTS[slot(name)] as usize
}

/// The row that the slot of the name leads to, if it has the name.
fn directive_row(name: &[u8]) -> Option<&'static DirectiveRow>
    ensures { option_map (λ row. row.now) result
        ≡ find (spec.is_directive name.now) spec.the_directives }
{
    match directives().get(directive_number(name)) {
        Some(row) => {
            if is_directive(name, row) {
                Some(row)
            } else {
                None
            }
        }
        None => None,
    }
}

/// The directive of the name.
#[inline(always)]
#[tactic(auto, unfolding(crate::specs::Directives::directive_of))]
pub fn directive_of(name: &[u8]) -> Option<Directive>
    ensures { result ≡ spec.directive_of name.now }
{
    match directive_row(name) {
        Some(row) => Some(row.directive),
        None => None,
    }
}

/// Each row's name ends where the spaces after it begin.
pub fn directives_are_whole()
    ensures { IsTrue (list_all spec.has_whole_name DIRECTIVES) }
{}

/// No two rows have one name.
pub fn directives_apart()
    ensures { IsTrue (spec.all_named_apart DIRECTIVES) }
{}
