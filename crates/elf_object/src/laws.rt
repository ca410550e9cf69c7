//! Laws of the definitions.

ghost use Rattle.elf_object.specs.FieldRelocations.{RelocationsAreOfFields, SaidFieldsHaveOne, ValuelessFieldsHaveOne, ValuesHaveNone};
ghost use Rattle.elf_object.specs.Places.{BytesStand, ValuesStand, ItemsStand, PlacesAreAddresses};
ghost use Rattle.elf_object.specs.RelocationLaws.{RelocationsMeanForms};
ghost use Rattle.elf_object.specs.TableLaws.{LocalsFirst, TargetsStand};

use asm_expr::cancelled_labels_keep_the_value;
use elf_file::bodies_stand;
use item_contents::bytes_are_sized;

/// Where a section is laid out, plain bytes beside all fields, and between items, stand in the object as
/// they were written, moved by the items before them.
pub fn bytes_stand()
    ensures { BytesStand }
{
    bytes_are_sized();
    bodies_stand();
}

/// Where a section is laid out, the value of a field stands in the object at its place.
pub fn values_stand()
    ensures { ValuesStand }
{
    bytes_are_sized();
    bodies_stand();
}

/// Where a section is laid out, the bytes of an item stand in the object at its address behind the
/// beginning of its section.
pub fn items_stand()
    ensures { ItemsStand }
{
    bytes_are_sized();
    bodies_stand();
}

/// The place of a plain byte of a laid out section is the address that labels and relocations have,
/// where addresses do not wrap.
#[tactic(auto, using(crate::proofs::ItemPlaces::places_are_addresses))]
pub fn places_are_addresses()
    ensures { PlacesAreAddresses }
{}

/// The local symbols of the table stand first, and `sh_info` is the number of the first that is not local.
pub fn locals_first()
    ensures { LocalsFirst }
{}

/// Each relocation names a symbol that is there: its number is that of the entry of the section or symbol that it means.
pub fn targets_stand()
    ensures { TargetsStand }
{}

/// Wherever sections begin and symbols stand, what the linker makes of the relocation of a field
/// without a suffix is the value of the field's form, less what its kind counts from.
pub fn relocations_mean_forms()
    ensures { RelocationsMeanForms }
{
    cancelled_labels_keep_the_value();
}

/// The relocations of a section of an object are those of its fields without a value: one of each, in
/// their order, at the place of the field.
pub fn fields_have_one_relocation()
    ensures all { RelocationsAreOfFields }
    ensures said { SaidFieldsHaveOne }
    ensures valueless { ValuelessFieldsHaveOne }
    ensures valued { ValuesHaveNone }
{}
