//! Bytes beside fields and relocations.

ghost use Rattle.loaded_laws.specs.Beside.{RelocationsBeside, ValuesAreAlone, FieldsStandBeside};
ghost use Rattle.loaded_laws.specs.Beside.{LayoutsKeepCounts, BytesStandBeside};

use asm_relax::layouts_keep_sections;
use elf_object::places_are_addresses;
use object_laws::relocations_suit_fields;

/// A byte that all fields of a section leave alone is beside all relocations of the section.
pub fn relocations_beside()
    ensures { RelocationsBeside }
{
    relocations_suit_fields();
}

/// A field with a value has no relocation.
pub fn values_are_alone()
    ensures { ValuesAreAlone }
{}

/// A plain byte before or after a field over plain bytes is beside it in a layout, and each plain
/// byte is beside a field in an item.
pub fn fields_stand_beside()
    ensures { FieldsStandBeside }
{
    places_are_addresses();
}

/// Fields count the items of their section in each layout.
pub fn layouts_keep_counts()
    ensures { LayoutsKeepCounts }
{
    layouts_keep_sections();
}

/// A plain byte beside all fields of its section is beside all relocations of the section wherever
/// a layout puts it.
pub fn bytes_stand_beside()
    ensures { BytesStandBeside }
{
    layouts_keep_sections();
    layouts_keep_counts();
    fields_stand_beside();
    relocations_beside();
}
