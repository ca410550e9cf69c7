//! Sections and symbols are read back from the object of them (gABI, chapter 4, "Sections" and "Symbol Table").

ghost use Rattle.object_laws.specs.GroupReading.{GroupsRead, GroupsStand};
ghost use Rattle.object_laws.specs.ObjectLimits.{ObjectsAreFiles};
ghost use Rattle.object_laws.specs.SectionPlaces.{SourceSectionsFound};
ghost use Rattle.object_laws.specs.SmallSources.{ObjectsFit};
ghost use Rattle.object_laws.specs.SymbolReading.{
  LocalsRead,
  NullSymbolsRead,
  SourceSectionsRead,
  SymbolTablesFound,
  SymbolTablesRead,
  SymbolsEnd,
  SymbolsRead,
};

use elf_object::locals_first;

/// The numbers of the object of a small source fit where the program's own do, and it has no header of a reserved index.
pub fn objects_fit()
    ensures { ObjectsFit }
{}

/// An object whose numbers fit is such a file, so that all laws of files hold of it.
pub fn objects_are_files()
    ensures { ObjectsAreFiles }
{}

/// The header of each section of the source says what the section is, and leads to just its bytes and its name.
pub fn source_sections_read()
    ensures { SourceSectionsRead }
{}

/// The header of each section of the source says where in the file its bytes begin.
#[tactic(auto, using(crate::proofs::SectionOffsets::sections_found))]
pub fn source_sections_found()
    ensures { SourceSectionsFound }
{}

/// The headers of the symbol table and of the names of symbols.
pub fn symbol_tables_read()
    ensures { SymbolTablesRead }
{}

/// The symbol table is found by its type, where no section of the source has that type.
pub fn symbol_tables_found()
    ensures { SymbolTablesFound }
{}

/// Each symbol has the binding, type, visibility, section, value and size of its entry, and leads to just its name.
pub fn symbols_read()
    ensures { SymbolsRead }
{}

/// Symbol 0 is all zero.
pub fn null_symbols_read()
    ensures { NullSymbolsRead }
{}

/// There are no other symbols.
pub fn symbols_end()
    ensures { SymbolsEnd }
{}

/// Just the symbols below `sh_info` have binding `STB_LOCAL`.
pub fn locals_read()
    ensures { LocalsRead }
{
    locals_first();
}

/// The header of each group, which lists just the headers of its sections and of their relocations, and names the
/// symbol of its signature.
pub fn groups_read()
    ensures { GroupsRead }
{}

/// Groups are found by their type, where no section of the source has that type, and just what they list has the
/// flag for that.
pub fn groups_stand()
    ensures { GroupsStand }
{}
