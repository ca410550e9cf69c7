//! Instructions as they are loaded.

ghost use Rattle.loaded_laws.specs.Codes.{LoadedBeside};

/// The bytes of an instruction beside its fields are loaded as they are.
pub fn loaded_beside()
    ensures { LoadedBeside }
{}
