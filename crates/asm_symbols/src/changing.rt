//! Changes of one symbol, each of one field.

ghost use Rattle.std.specs.Prelude.{◌≡◌};
ghost use Rattle.asm_symbols.specs.Attributes.{rebound, bound_as, with_size};

use crate::entries::{Binding, Kind, Meaning, Symbol, Visibility};
use crate::faults::{SymCause, SymFault};
use crate::symbol_map::Symbols;
use asm_expr::{BoxedForm, Linear, SymId};

/// The binding of a symbol that may have one already.
fn rebound(before: Option<Binding>, binding: Binding) -> Result<Binding, SymCause>
    ensures { result ≡ rebound before binding }
{
    match (before, binding) {
        (None, _) => Ok(binding),
        (Some(Binding::Local), Binding::Local) => Ok(Binding::Local),
        (Some(Binding::Local), _) | (Some(_), Binding::Local) => Err(SymCause::BadSymbolUse),
        (Some(Binding::Weak), _) => Ok(Binding::Weak),
        (Some(Binding::Global), _) => Ok(binding),
    }
}

/// The binding of a symbol that is this.
fn bound_as(
    meaning: &Meaning,
    before: Option<Binding>,
    binding: Binding,
) -> Result<Binding, SymCause>
    ensures { result ≡ bound_as meaning.now before binding }
{
    match (meaning, binding) {
        (Meaning::Common { .. }, Binding::Local) => Err(SymCause::BadSymbolUse),
        _ => rebound(before, binding),
    }
}

/// The symbol has this size, which is the one of this number among those that are said.
fn set_size(symbol: &mut Symbol, size: BoxedForm, number: u64)
    ensures { symbol.new ≡ with_size size number symbol.old }
{
    symbol.size = Some(size);
    symbol.sized = number;
}

impl Symbols {
    ghost use Rattle.std.specs.Prelude.{◌≡◌, ◌<◌, length, Ok, OnErr};
    ghost use Rattle.asm_symbols.specs.SymbolMap.{with_symbol};
    ghost use Rattle.asm_symbols.specs.Answering.{GivesFaultFirst, GivesAlways};
    ghost use Rattle.asm_symbols.specs.Attributes.{with_binding, with_kind, with_next_size, with_visibility, bound};

    /// The symbol has this binding from now on.
    fn rebind(&mut self, id: SymId, binding: Binding)
        requires { id < length self.old.symbols }
        ensures value { self.new ≡ with_symbol (with_binding binding) self.old id }
        ensures kept { length self.new.symbols ≡ length self.old.symbols }
    {
        let symbol = &mut self.symbols[id.index() as usize];
        symbol.binding = Some(binding);
    }

    /// The symbol is of this kind from now on.
    pub fn kind(&mut self, id: SymId, kind: Kind) -> Result<(), SymFault>
        requires { id < length self.old.symbols }
        ensures value { GivesAlways self.new result
            (Ok (with_symbol (with_kind kind) self.old id)) }
        ensures unchanged { OnErr result (self.new ≡ self.old) }
        ensures kept { length self.new.symbols ≡ length self.old.symbols }
    {
        let symbol = &mut self.symbols[id.index() as usize];
        symbol.kind = Some(kind);
        Ok(())
    }

    /// The symbol has this size from now on, the last that was said.
    pub fn size(&mut self, id: SymId, size: Linear) -> Result<(), SymFault>
        requires { id < length self.old.symbols }
        ensures value { GivesFaultFirst self.new result (Ok (with_next_size size self.old id)) }
        ensures unchanged { OnErr result (self.new ≡ self.old) }
        ensures kept { length self.new.symbols ≡ length self.old.symbols }
    {
        let size = BoxedForm::new(self.alloc, size)?;
        self.put_size(id, size)
    }

    /// The same, of a size that has its allocation.
    fn put_size(&mut self, id: SymId, size: BoxedForm) -> Result<(), SymFault>
        requires { id < length self.old.symbols }
        ensures value { GivesFaultFirst self.new result (Ok (with_next_size size self.old id)) }
        ensures unchanged { OnErr result (self.new ≡ self.old) }
        ensures kept { length self.new.symbols ≡ length self.old.symbols }
    {
        let Some(number) = self.sizes.checked_add(1) else {
            return Err(SymFault::NoMemory);
        };
        set_size(&mut self.symbols[id.index() as usize], size, number);
        self.sizes = number;
        Ok(())
    }

    /// The symbol is as visible as this from now on.
    pub fn visibility(&mut self, id: SymId, visibility: Visibility) -> Result<(), SymFault>
        requires { id < length self.old.symbols }
        ensures value { GivesAlways self.new result
            (Ok (with_symbol (with_visibility visibility) self.old id)) }
        ensures unchanged { OnErr result (self.new ≡ self.old) }
        ensures kept { length self.new.symbols ≡ length self.old.symbols }
    {
        let symbol = &mut self.symbols[id.index() as usize];
        symbol.visibility = Some(visibility);
        Ok(())
    }

    /// The symbol is bound so: weak wins over global, and neither goes with local.
    #[tactic(auto, unfolding(crate::specs::Attributes::bound))]
    pub fn bind(&mut self, id: SymId, binding: Binding) -> Result<(), SymFault>
        requires { id < length self.old.symbols }
        ensures value { GivesAlways self.new result (bound self.old id binding) }
        ensures unchanged { OnErr result (self.new ≡ self.old) }
        ensures kept { length self.new.symbols ≡ length self.old.symbols }
    {
        let symbol = self.symbol(id);
        let made = bound_as(&symbol.meaning, symbol.binding, binding).map_err(SymFault::Fault)?;
        self.rebind(id, made);
        Ok(())
    }
}
