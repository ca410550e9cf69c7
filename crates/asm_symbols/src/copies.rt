//! Copies of names.

ghost use Rattle.std.specs.Prelude.{◌≡◌, IfOk};

use asm_expr::Name;
use std::alloc::{AllocError, Global};

/// A name once more.
pub(crate) fn copied_name(alloc: Global, name: &Name) -> Result<Name, AllocError>
    ensures { IfOk result (λ copy. copy ≡ name.now) }
{
    match name {
        Name::Plain(text) => Ok(Name::Plain(text.copied(alloc)?)),
        Name::Numeric { number, instance } => Ok(Name::Numeric {
            number: *number,
            instance: *instance,
        }),
        Name::Place {
            section,
            item,
            offset,
        } => Ok(Name::Place {
            section: *section,
            item: *item,
            offset: *offset,
        }),
    }
}
