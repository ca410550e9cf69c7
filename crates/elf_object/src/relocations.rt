//! Relocations, and their entries (psABI for AMD64, section 4.4, "Relocation").

ghost use Rattle.std.specs.Prelude.{◌≡◌};
ghost use Rattle.elf_object.specs.Relocations.{kind_number, sized_kind, signed_kind, branch_kind, plain_kind, is_four, entry_kind, linkage_kind, offset_kind, kind_for, relocation_entry};

use asm_frags::{FieldRole, FieldSize};
use elf_file::elf_relocation;
use elf_symbols::Target;
use x86_insn::{FieldKind, Suffix};

/// How the linker works a field out (`R_X86_64_`): from S + A, or S + A - P where the name begins with `Pc`.
#[derive(Clone, Copy)]
pub enum RelocationKind {
    Direct64,
    Pc32,
    /// L + A - P, where L is the symbol's entry in the procedure linkage table, if it needs one.
    Plt32,
    /// G + A - P, where G is the symbol's entry in the global offset table.
    GotPcRel,
    Direct32,
    /// S + A, which is sign-extended.
    Signed32,
    Direct16,
    Pc16,
    Direct8,
    Pc8,
    /// G + A - P, where G is the entry that has the symbol's offset from the thread pointer.
    GotTpOff,
    /// The symbol's offset from the thread pointer, and A.
    TpOff32,
    Pc64,
}

impl RelocationKind {
    /// The number of the kind (psABI for AMD64, table 4.9).
    pub fn number(self) -> u32
        ensures { result ≡ kind_number self }
    {
        match self {
            RelocationKind::Direct64 => 1,
            RelocationKind::Pc32 => 2,
            RelocationKind::Plt32 => 4,
            RelocationKind::GotPcRel => 9,
            RelocationKind::Direct32 => 10,
            RelocationKind::Signed32 => 11,
            RelocationKind::Direct16 => 12,
            RelocationKind::Pc16 => 13,
            RelocationKind::Direct8 => 14,
            RelocationKind::Pc8 => 15,
            RelocationKind::GotTpOff => 22,
            RelocationKind::TpOff32 => 23,
            RelocationKind::Pc64 => 24,
        }
    }
}

/// The kind by the size of the field; `relative` where the place of the field is taken from the sum.
#[inline(always)]
fn sized_kind(relative: bool, size: FieldSize) -> RelocationKind
    ensures { result ≡ sized_kind relative size }
{
    if relative {
        match size {
            FieldSize::One => RelocationKind::Pc8,
            FieldSize::Two => RelocationKind::Pc16,
            FieldSize::Four => RelocationKind::Pc32,
            FieldSize::Eight => RelocationKind::Pc64,
        }
    } else {
        match size {
            FieldSize::One => RelocationKind::Direct8,
            FieldSize::Two => RelocationKind::Direct16,
            FieldSize::Four => RelocationKind::Direct32,
            FieldSize::Eight => RelocationKind::Direct64,
        }
    }
}

/// The same for a field that is sign-extended.
#[inline(never)]
fn signed_kind(relative: bool, size: FieldSize) -> RelocationKind
    ensures { result ≡ signed_kind relative size }
{
    match size {
        FieldSize::Four if !relative => RelocationKind::Signed32,
        _ => sized_kind(relative, size),
    }
}

/// The same for the distance of a branch to a symbol that is local, or not: the linker may lead one
/// that is not through the procedure linkage table.
#[inline(never)]
fn branch_kind(local: bool, size: FieldSize) -> RelocationKind
    ensures { result ≡ branch_kind local size }
{
    match size {
        FieldSize::Four if !local => RelocationKind::Plt32,
        _ => sized_kind(true, size),
    }
}

/// The kind where there is no suffix: a distance always has the place taken from the sum.
#[inline(always)]
fn plain_kind(
    relative: bool,
    kind: FieldKind,
    local: bool,
    size: FieldSize,
) -> Option<RelocationKind>
    ensures { result ≡ plain_kind relative kind local size }
{
    match kind {
        FieldKind::Plain => Some(sized_kind(relative, size)),
        FieldKind::Signed => Some(signed_kind(relative, size)),
        FieldKind::Address if relative => Some(sized_kind(true, size)),
        FieldKind::Branch if relative => Some(branch_kind(local, size)),
        FieldKind::Address | FieldKind::Branch | FieldKind::Number => None,
    }
}

/// Whether the field has 4 bytes.
fn is_four(size: FieldSize) -> bool
    ensures { result ≡ is_four size }
{
    matches!(size, FieldSize::Four)
}

/// The kind of a distance from rip to an entry of the global offset table.
#[inline(never)]
fn entry_kind(
    relative: bool,
    kind: FieldKind,
    size: FieldSize,
    entry: RelocationKind,
) -> Option<RelocationKind>
    ensures { result ≡ entry_kind relative kind size entry }
{
    match kind {
        FieldKind::Address if relative && is_four(size) => Some(entry),
        _ => None,
    }
}

/// The kind of the distance of a branch to an entry of the procedure linkage table.
#[inline(never)]
fn linkage_kind(relative: bool, kind: FieldKind, size: FieldSize) -> Option<RelocationKind>
    ensures { result ≡ linkage_kind relative kind size }
{
    match kind {
        FieldKind::Branch if relative && is_four(size) => Some(RelocationKind::Plt32),
        _ => None,
    }
}

/// The kind of an offset from the thread pointer, which is no distance.
#[inline(never)]
fn offset_kind(relative: bool, kind: FieldKind, size: FieldSize) -> Option<RelocationKind>
    ensures { result ≡ offset_kind relative kind size }
{
    match kind {
        FieldKind::Plain | FieldKind::Signed if !relative && is_four(size) => {
            Some(RelocationKind::TpOff32)
        }
        _ => None,
    }
}

/// The kind of a field of this role and size, if there is one.
#[inline(always)]
pub(crate) fn kind_for(
    relative: bool,
    role: FieldRole,
    local: bool,
    size: FieldSize,
) -> Option<RelocationKind>
    ensures { result ≡ kind_for relative role local size }
{
    match role.suffix {
        None => plain_kind(relative, role.kind, local, size),
        Some(Suffix::Plt) => linkage_kind(relative, role.kind, size),
        Some(Suffix::GotPcRel) => entry_kind(relative, role.kind, size, RelocationKind::GotPcRel),
        Some(Suffix::GotTpOff) => entry_kind(relative, role.kind, size, RelocationKind::GotTpOff),
        Some(Suffix::TpOff) => offset_kind(relative, role.kind, size),
    }
}

/// A relocation of a field.
#[derive(Clone, Copy)]
pub struct Relocation {
    /// Where the field begins in its section, in bytes.
    pub offset: u64,
    pub kind: RelocationKind,
    pub target: Target,
    /// A number modulo 2^64.
    pub addend: u64,
}

/// The entry of a relocation whose target has this number in the symbol table (`Elf64_Rela`).
pub(crate) fn relocation_entry(number: usize, relocation: &Relocation) -> [u8; 24]
    ensures { result ≡ relocation_entry number relocation.now }
{
    elf_relocation(
        relocation.offset,
        relocation.kind.number(),
        number,
        relocation.addend,
    )
}
