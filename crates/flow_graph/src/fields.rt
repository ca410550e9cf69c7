//! What the fields of a section come to at the end of a source.

ghost use Rattle.assigned_forms.specs.Expanding.{AreExpansions};
ghost use Rattle.assigned_forms.specs.Linked.{linked_map};

use asm_frags::Field;
use asm_symbols::Symbols;
use assigned_forms::Expansions;

/// The fields of a section, and what their forms come to at the end of the source.
#[derive(Clone, Copy)]
pub struct FinalForms<'a, 'b> {
    pub fields: &'a [Field],
    pub symbols: &'a Symbols,
    /// The expanded forms of all assigned symbols.
    pub expansions: &'a Expansions<'b>,
    /// The same, where weak aliases count as undefined.
    pub linked: &'a Expansions<'b>,
    ghost expanded: { AreExpansions symbols.now expansions.now },
    ghost left: { AreExpansions (linked_map symbols.now) linked.now },
}
