//! The instances of numeric labels, and the values of assigned symbols.

ghost use Rattle.std.specs.Prelude.{◌≡◌};
ghost use Rattle.asm_symbols.specs.Counting.{assigned_value};

use crate::entries::Meaning;
use crate::symbol_map::Symbols;
use asm_expr::{Name, SymId};

/// The value of an assigned symbol whose form is a number alone.
fn assigned_value(meaning: &Meaning) -> Option<i64>
    ensures { result ≡ assigned_value meaning.now }
{
    match meaning {
        Meaning::Assigned(boxed) => {
            let form = boxed.as_form();
            if form.terms().is_empty() {
                Some(form.constant().cast_signed())
            } else {
                None
            }
        }
        _ => None,
    }
}

impl Symbols {
    ghost use Rattle.std.specs.Prelude.{◌≡◌, ◌<◌, ◌↔◌, length, IsNone, IfSome};
    ghost use Rattle.asm_symbols.specs.Counting.{counted, last_named, known_value};

    /// The last instance of the numeric label that is defined.
    #[tactic(auto, unfolding(crate::specs::Counting::last_named))]
    pub fn numeric_back(&self, number: u64) -> Option<SymId>
        ensures value { result ≡ last_named self.now number }
        ensures within { IfSome result (λ id. id < length self.now.symbols) }
        ensures none { IsNone result ↔ (counted self.now.counts number ≡ 0) }
    {
        let _ = &self.counts;
        let instance = self.count(number);
        if instance == 0 {
            return None;
        }
        self.find(&Name::Numeric { number, instance })
    }

    /// The value of the symbol, where it is known: an assigned one whose form is a number alone.
    #[tactic(auto, unfolding(crate::specs::Counting::known_value))]
    pub fn known(&self, id: SymId) -> Option<i64>
        requires { id < length self.now.symbols }
        ensures { result ≡ known_value self.now id }
    {
        assigned_value(&self.symbol(id).meaning)
    }
}
