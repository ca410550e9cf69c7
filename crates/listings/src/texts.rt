//! The text of an instruction, as something that can be chosen.

ghost use Rattle.std.specs.Prelude.{◌≡◌, ◌++◌, OnOk};
ghost use Rattle.x86_decode.specs.Views.{IsOfRow};

use asm_base::NoMemory;
use x86_decode::Front;

/// A syntax in which instructions are written.
pub trait Texts {
    ghost use Rattle.std.specs.Prelude.{ℕ, List};
    ghost use Rattle.x86_decode.specs.declared.fronts.Front.{Front};

    /// The text of an instruction.
    ghost text: { Front → List ℕ };

    /// Appends the text of an instruction.
    fn put(line: &mut Vec<u8>, front: &Front) -> Result<(), NoMemory>
        requires of_row { IsOfRow front.now }
        ensures { OnOk result (line.new.items ≡ line.old.items ++ text front.now) };
}
