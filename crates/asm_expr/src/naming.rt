//! The names of symbols.

use smallvec::SmallVec;
use std::alloc::{AllocError, Global};
use std::hash::{Hash, Hasher};
use std::marker::Model;

/// The bytes that a name is spelled with. Sixteen of them need no allocation.
#[derive(Drop)]
pub struct Spelling {
    bytes: SmallVec<u8, 16>,
}

impl Model for Spelling {
    ghost use Rattle.std.specs.Prelude.{ℕ, List};

    ghost Value = { List ℕ };

    ghost view = { λ spelling. spelling.bytes.items };
}

impl Spelling {
    ghost use Rattle.std.specs.Prelude.{◌≡◌, IfOk};

    /// The spelling of these bytes.
    pub fn new(alloc: Global, bytes: &[u8]) -> Result<Spelling, AllocError>
        ensures { IfOk result (λ spelling. spelling ≡ bytes.now) }
    {
        Ok(Spelling {
            bytes: SmallVec::from_slice(alloc, bytes)?,
        })
    }

    /// The bytes, in order.
    pub fn as_bytes(&self) -> &[u8]
        ensures { result.now ≡ self.now }
    {
        self.bytes.as_slice()
    }

    /// The spelling once more.
    pub fn copied(&self, alloc: Global) -> Result<Spelling, AllocError>
        ensures { IfOk result (λ copy. copy ≡ self.now) }
    {
        Spelling::new(alloc, self.as_bytes())
    }
}

impl PartialEq for Spelling {
    ghost use Rattle.std.specs.Str.{bytes_eq};
    ghost use Rattle.std.specs.Cmp.Lexicographic.{nat_list_eq_equiv};
    ghost use Rattle.std.specs.Cmp.{partial_equiv_from_equiv};

    ghost eq = { bytes_eq };

    ghost laws = { partial_equiv_from_equiv nat_list_eq_equiv };

    fn eq(&self, other: &Spelling) -> bool {
        self.as_bytes() == other.as_bytes()
    }
}

impl Eq for Spelling {
    ghost use Rattle.std.specs.Cmp.Lexicographic.{nat_list_eq_equiv};

    ghost laws = { nat_list_eq_equiv };
}

impl Hash for Spelling {
    ghost use Rattle.std.specs.Prelude.{[], ◌∷◌};
    ghost use Rattle.std.proofs.Common.{ap};
    ghost use Rattle.std.specs.Cmp.Lexicographic.{bytes_decides};

    ghost hash_input = { λ spelling. spelling ∷ [] };

    ghost respects_eq = { λ x y is. ap (λ s. s ∷ []) ((bytes_decides x y).0 is) };

    fn hash<H: Hasher>(&self, state: &mut H) {
        // All bytes at once: a hasher takes a slice byte by byte.
        state.write(self.as_bytes());
    }
}

/// A name.
#[derive(Drop)]
pub enum Name {
    /// A symbol.
    Plain(Spelling),
    /// An instance of a numeric label.
    Numeric {
        number: u64,
        instance: u32,
    },
    /// A place of a section: so many items and so many plain bytes stand before it.
    Place {
        section: u32,
        item: u64,
        offset: u64,
    },
}
