//! By what sections of groups are found.

ghost use Rattle.std.specs.Prelude.{[], ◌∷◌};
ghost use Rattle.std.specs.Str.{bytes_eq};
ghost use Rattle.std.specs.Ordering.{on, eq_of_both};
ghost use Rattle.std.specs.Cmp.{and_equiv, on_equiv, partial_equiv_from_equiv};
ghost use Rattle.std.specs.Cmp.Lexicographic.{bytes_decides, nat_list_eq_equiv};
ghost use Rattle.std.specs.Hash.{and-Alike, on_Alike, same_Alike};

use asm_base::Text;
use std::hash::{Hash, Hasher};

/// The name of a section in a group, by the group's signature.
#[derive(Drop)]
pub struct MemberKey {
    pub signature: Text,
    pub name: Text,
}

impl PartialEq for MemberKey {
    ghost eq = { eq_of_both (on (λ key. key.signature) bytes_eq) (on (λ key. key.name) bytes_eq) };

    ghost laws = { partial_equiv_from_equiv (and_equiv
        (on_equiv (λ key. key.signature) nat_list_eq_equiv)
        (on_equiv (λ key. key.name) nat_list_eq_equiv)) };

    fn eq(&self, other: &MemberKey) -> bool {
        self.signature.as_bytes() == other.signature.as_bytes()
            && self.name.as_bytes() == other.name.as_bytes()
    }
}

impl Eq for MemberKey {
    ghost laws = { and_equiv (on_equiv (λ key. key.signature) nat_list_eq_equiv)
        (on_equiv (λ key. key.name) nat_list_eq_equiv) };
}

impl Hash for MemberKey {
    ghost hash_input = { λ key. key.signature ∷ key.name ∷ [] };

    ghost respects_eq = { (and-Alike
        (on_Alike (λ key. key.signature) (same_Alike (λ text. text ∷ []) bytes_decides))
        (on_Alike (λ key. key.name) (same_Alike (λ text. text ∷ []) bytes_decides))).fed };

    fn hash<H: Hasher>(&self, state: &mut H) {
        // All bytes at once: a hasher takes a slice byte by byte.
        state.write(self.signature.as_bytes());
        state.write(self.name.as_bytes());
    }
}
