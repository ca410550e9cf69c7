//! The instruction that bytes begin with.

ghost use Rattle.std.specs.Prelude.{IfOk, option_map};
ghost use Rattle.x86_decode.specs.Decoding.{Decodes};
ghost use Rattle.x86_decode.specs.Instructions.{shown_pair};

use crate::fronts::front_of;
use crate::instructions::insn_of;
use asm_base::NoMemory;
use std::alloc::Global;
use x86_insn::Insn;

/// The instruction that the bytes begin with and how many bytes it has, and none exactly where they begin
/// with none (Intel SDM, volume 2, chapter 2). Addresses from rip and branch targets are `.`, which is the
/// first byte of the instruction, and a number more: memory is taken for them alone.
pub fn decode(alloc: Global, bytes: &[u8]) -> Result<Option<(Insn<'static>, usize)>, NoMemory>
    ensures { IfOk result (λ found. Decodes bytes.now (option_map shown_pair found)) }
{
    match front_of(bytes) {
        None => Ok(None),
        Some(front) => {
            let insn = insn_of(alloc, &front)?;
            Ok(Some((insn, front.len)))
        }
    }
}
