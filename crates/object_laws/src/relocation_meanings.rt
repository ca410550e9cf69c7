//! Laws of the definition of relocations.

ghost use Rattle.object_laws.specs.Entries.{EntriesTellTypes};
ghost use Rattle.object_laws.specs.FieldSymbols.{RelocationsNameSymbols};
ghost use Rattle.object_laws.specs.FieldTypes.{RelocationsSuitFields};
ghost use Rattle.object_laws.specs.LinkedValues.{LinkedValuesAreForms};
ghost use Rattle.object_laws.specs.Suffixes.{SuffixesAreAnswered};

use asm_expr::{cancelled_labels_keep_the_value, whole_stretches_cancel};

/// The entry of a relocation, read at the offsets of the gABI, tells the number of its type (`r_info`,
/// the low half), where the field stands, the symbol and the addend.
pub fn entries_tell_types()
    ensures { EntriesTellTypes }
{}

/// The type of each relocation, by its number (psABI for AMD64, table 4.9), has the bytes of its field,
/// and what a linker verifies of its value is what the field holds: a field that the processor extends by
/// its sign has no type whose value is to be extended by zeros.
pub fn relocations_suit_fields()
    ensures { RelocationsSuitFields }
{}

/// Each relocation names the symbol of its field: by itself where it is global or weak, stands in a
/// section with `SHF_MERGE` or has a suffix, and else by the section of its label.
pub fn relocations_name_symbols()
    ensures { RelocationsNameSymbols }
{}

/// What the type of a relocation takes for the symbol is what the suffix of its field asks for: the
/// symbol's address, its entry in the procedure linkage table or the global offset table, the entry there
/// of its offset from the thread pointer, or that offset. A branch to a symbol that is not local takes the
/// entry in the procedure linkage table without a suffix too.
pub fn suffixes_are_answered()
    ensures { SuffixesAreAnswered }
{}

/// What the calculation of a relocation's type gives is the value of the field's form, with what the
/// linker puts in place of the symbol's address, less what the field's kind counts from.
pub fn linked_values_are_forms()
    ensures { LinkedValuesAreForms }
{
    cancelled_labels_keep_the_value();
    whole_stretches_cancel();
}
