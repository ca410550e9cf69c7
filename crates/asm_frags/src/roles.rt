//! The roles of fields: how a value stands in a field, and what the linker puts there.

ghost use Rattle.std.specs.Prelude.{◌≡◌};
ghost use Rattle.asm_frags.specs.Fields.{data_role, is_distance, growth_role, own_place};

use asm_expr::SymId;
use item_contents::Growth;
use x86_insn::{FieldKind, Suffix};

/// How a field holds its value: data, or a part of an instruction.
#[derive(Clone, Copy, PartialEq, Eq, Debug)]
pub struct FieldRole {
    pub kind: FieldKind,
    /// What is said behind the symbol of the field.
    pub suffix: Option<Suffix>,
    /// How many bytes of the instruction stand behind the field.
    pub behind: u8,
}

impl FieldRole {
    /// The role of data.
    #[inline(always)]
    pub fn data() -> FieldRole
        ensures { result ≡ data_role }
    {
        FieldRole {
            kind: FieldKind::Plain,
            suffix: None,
            behind: 0,
        }
    }

    /// Whether the value is a distance from the end of the instruction.
    pub fn is_distance(self) -> bool
        ensures { result ≡ is_distance self.kind }
    {
        matches!(self.kind, FieldKind::Address | FieldKind::Branch)
    }
}

/// The role of the field of what grows: a jump holds the distance from its end, which may have a
/// suffix, and the others hold numbers.
pub(crate) fn growth_role(kind: Growth, suffix: Option<Suffix>) -> FieldRole
    ensures { result ≡ growth_role kind suffix }
{
    match kind {
        Growth::Jump(_) => FieldRole {
            kind: FieldKind::Branch,
            suffix,
            behind: 0,
        },
        Growth::Leb128 { .. } | Growth::Advance => FieldRole {
            kind: FieldKind::Number,
            suffix: None,
            behind: 0,
        },
    }
}

/// The symbol that, in the form of a field, stands for the place of the field itself.
#[inline(always)]
pub fn own_place() -> SymId
    ensures { result ≡ own_place }
{
    SymId::new(u32::MAX)
}
