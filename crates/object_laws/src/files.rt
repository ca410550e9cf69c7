//! Sections are read back from the file of them (gABI, chapter 4, "ELF Header" and "Sections").

ghost use Rattle.object_laws.specs.FileReading.{
  HeaderTablesRead,
  HeadersEnd,
  NamedSectionsRead,
  NullHeadersRead,
  SectionsRead,
};

/// The ELF header says where the header table stands, how many headers it has, and which one is that of the names.
pub fn header_tables_read()
    ensures { HeaderTablesRead }
{}

/// The header at index 0 is all zero.
pub fn null_headers_read()
    ensures { NullHeadersRead }
{}

/// There are no other headers than those of the sections and of their names.
pub fn headers_end()
    ensures { HeadersEnd }
{}

/// The header of each section says what was given of it, and leads to just its bytes and its name.
pub fn sections_read()
    ensures { SectionsRead }
{}

/// A look for a name finds the first section of that name.
pub fn named_sections_read()
    ensures { NamedSectionsRead }
{}
