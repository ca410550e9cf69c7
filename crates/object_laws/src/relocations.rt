//! Relocations are read back from the object of them (gABI, chapter 4, "Relocation").

ghost use Rattle.object_laws.specs.RelocationReading.{RelocationTablesRead, RelocationsEnd, RelocationsRead};

use elf_object::targets_stand;

/// The header of the relocations of each section.
pub fn relocation_tables_read()
    ensures { RelocationTablesRead }
{}

/// Each relocation has its offset, type and addend, and its symbol is the one that it means.
pub fn relocations_read()
    ensures { RelocationsRead }
{
    targets_stand();
}

/// There are no other relocations of a section.
pub fn relocations_end()
    ensures { RelocationsEnd }
{}
