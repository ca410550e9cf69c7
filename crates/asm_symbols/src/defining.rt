//! How a label, common space or space of this object defines a symbol.

ghost use Rattle.std.specs.Prelude.{◌≡◌, OnOk, OnErr, IfErr};
ghost use Rattle.asm_symbols.specs.Counting.{counts_after};
ghost use Rattle.asm_symbols.specs.Defining.{meant, redefined};
ghost use Rattle.asm_base.specs.declared.refusals.Refusal.TheVariants.{NoMemory};

use crate::entries::{Definition, Meaning};
use crate::faults::{SymCause, SymFault};
use crate::symbol_map::Symbols;
use asm_expr::{Name, SymId};
use indexmap::IndexMap;

/// What the definition makes of an undefined symbol.
fn meant(what: Definition) -> Meaning
    ensures { result ≡ meant what }
{
    match what {
        Definition::Label(spot) => Meaning::Label(spot),
        Definition::Common { size, align } => Meaning::Common { size, align },
        Definition::Space(spot) => Meaning::Space(spot),
    }
}

/// What the definition makes of a symbol that is this already.
fn redefined(meaning: &Meaning, what: Definition) -> Result<Meaning, SymCause>
    ensures { result ≡ redefined meaning.now what }
{
    match (meaning, what) {
        (Meaning::Undefined, _) => Ok(meant(what)),
        (Meaning::Label(_) | Meaning::Space(_), _) => Err(SymCause::SymbolAlreadyDefined),
        (Meaning::Common { .. }, _) => Err(SymCause::BadSymbolUse),
        (Meaning::Assigned(_), Definition::Label(_)) => Err(SymCause::SymbolAlreadyDefined),
        (Meaning::Assigned(_), _) => Err(SymCause::BadSymbolUse),
    }
}

/// A label that is the next instance of its number counts.
fn raise(counts: &mut IndexMap<u64, u32>, name: &Name, what: Definition) -> Result<(), SymFault>
    ensures ok { OnOk result (counts.new.entries ≡ counts_after name.now what counts.old.entries) }
    ensures memory { IfErr result (λ fault. fault ≡ NoMemory) }
    ensures err { OnErr result (counts.new.entries ≡ counts.old.entries) }
{
    let Definition::Label(_) = what else {
        return Ok(());
    };
    let Name::Numeric { number, instance } = name else {
        return Ok(());
    };
    let count = counts.get(number).copied().unwrap_or(0);
    if *instance > 0 && *instance - 1 == count {
        counts.insert(*number, *instance)?;
    }
    Ok(())
}

impl Symbols {
    ghost use Rattle.std.specs.Prelude.{◌≡◌, ◌<◌, length, OnErr};
    ghost use Rattle.asm_symbols.specs.Answering.{GivesFaultFirst};
    ghost use Rattle.asm_symbols.specs.Defining.{defined};

    /// The symbol is defined so.
    #[tactic(auto, unfolding(crate::specs::Defining::defined))]
    pub fn define(&mut self, id: SymId, what: Definition) -> Result<(), SymFault>
        requires { id < length self.old.symbols }
        ensures value { GivesFaultFirst self.new result (defined self.old id what) }
        ensures unchanged { OnErr result (self.new ≡ self.old) }
        ensures kept { length self.new.symbols ≡ length self.old.symbols }
    {
        let at = id.index() as usize;
        let made = redefined(&self.symbols[at].meaning, what).map_err(SymFault::Fault)?;
        raise(&mut self.counts, &self.symbols[at].name, what)?;
        let symbol = &mut self.symbols[at];
        symbol.meaning = made;
        Ok(())
    }
}
