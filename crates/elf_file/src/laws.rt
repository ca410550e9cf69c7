//! Laws of the definitions.

ghost use Rattle.std.specs.Prelude.{ℕ, ◌+◌, List};
ghost use Rattle.elf_file.specs.FileLaws.{NamesStand, SectionsStand, BodiesStand};
ghost use Rattle.elf_file.specs.Places.{PieceAt};

/// The name of a symbol or a section is read from its string table at the offset that `st_name` or `sh_name` has.
pub fn names_stand()
    ensures { NamesStand }
{}

/// The bytes of a section stand in the file where its header says, and its header where the ELF header says.
pub fn sections_stand()
    ensures { SectionsStand }
{}

/// The bytes of a section stand in the file behind those of the sections before it, and a piece of them stands in the file too.
pub fn bodies_stand()
    ensures bodies { BodiesStand }
    ensures pieces { (bytes part piece : List ℕ) (at more : ℕ) → PieceAt bytes at part
        → PieceAt part more piece → PieceAt bytes (at + more) piece }
{}
