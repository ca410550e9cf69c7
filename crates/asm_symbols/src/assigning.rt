//! How a symbol is assigned a form that does not lead back to it.

ghost use Rattle.std.specs.Prelude.{◌≡◌};
ghost use Rattle.asm_symbols.specs.Assigning.{is_dot, form_fault_of};

use crate::entries::Meaning;
use crate::faults::{SymCause, SymFault};
use crate::symbol_map::Symbols;
use asm_expr::{BoxedForm, Linear, Name, SymId, Term};
use indexmap::IndexSet;
use std::alloc::Global;

/// Whether the name is `.`, which is the place of a statement.
fn is_dot(name: &Name) -> bool
    ensures { result ≡ is_dot name.now }
{
    match name {
        Name::Plain(text) => text.as_bytes() == b".".as_slice(),
        _ => false,
    }
}

/// Why a symbol that is this takes no form.
fn form_fault_of(meaning: &Meaning, once: bool) -> Option<SymCause>
    ensures { result ≡ form_fault_of meaning.now once }
{
    match (meaning, once) {
        (Meaning::Undefined, _) | (Meaning::Assigned(_), false) => None,
        (Meaning::Common { .. }, false) => Some(SymCause::BadSymbolUse),
        _ => Some(SymCause::SymbolAlreadyDefined),
    }
}

impl Symbols {
    ghost use Rattle.std.specs.Prelude.{◌≡◌, ◌<◌, false, [], length, OnErr, IfOk, IfErr};
    ghost use Rattle.asm_symbols.specs.Assigning.{form_fault_at, form_at, with_form, Leads, TellsLeads, Assigns};
    ghost use Rattle.asm_base.specs.Refusals.{Gives};
    ghost use Rattle.asm_symbols.specs.Searching.{seen_unless, seen_with, seen_behind};
    ghost use Rattle.asm_symbols.specs.LeadsBack.{leads_back, assigned};
    ghost use Rattle.asm_symbols.specs.Sound.{is_label_at};
    ghost use Rattle.asm_base.specs.declared.refusals.Refusal.TheVariants.{NoMemory};

    /// Why the symbol takes no form.
    #[tactic(auto, unfolding(crate::specs::Assigning::form_fault_at))]
    fn form_fault_at(&self, id: SymId, once: bool) -> Option<SymCause>
        requires { id < length self.now.symbols }
        ensures { result ≡ form_fault_at self.now id once }
    {
        let symbol = self.symbol(id);
        if is_dot(&symbol.name) {
            return Some(SymCause::BadSymbolUse);
        }
        form_fault_of(&symbol.meaning, once)
    }

    /// Adds the symbols that the terms name to those that were seen. Answers whether the terms
    /// name the symbol.
    #[tactic(auto, unfolding(crate::specs::Searching::seen_with))]
    fn see(&self, terms: &[Term], id: SymId, seen: &mut IndexSet<u32>) -> Result<bool, SymFault>
        ensures value { IfOk result (λ back.
            seen_with (length self.now.symbols) id terms.now seen.old.keys
            ≡ seen_unless back seen.new.keys) }
        ensures memory { IfErr result (λ fault. fault ≡ NoMemory) }
    {
        for term in terms {
            let index = term.symbol.index();
            if index == id.index() {
                return Ok(true);
            }
            if (index as usize) < self.symbols.len() {
                seen.insert(index)?;
            }
        }
        Ok(false)
    }

    /// The same of the form of a symbol, if it has one.
    fn see_behind(
        &self,
        middle: SymId,
        id: SymId,
        seen: &mut IndexSet<u32>,
    ) -> Result<bool, SymFault>
        requires { middle < length self.now.symbols }
        ensures value { let form = form_at self.now.symbols middle in
            IfOk result (λ back. seen_behind (length self.now.symbols) id form seen.old.keys
            ≡ seen_unless back seen.new.keys) }
        ensures memory { IfErr result (λ fault. fault ≡ NoMemory) }
    {
        match &self.symbol(middle).meaning {
            Meaning::Assigned(form) => self.see(form.as_form().terms(), id, seen),
            _ => Ok(false),
        }
    }

    /// The allocator.
    fn allocator(&self) -> Global {
        self.alloc
    }

    /// Whether the form leads to the symbol, where none is seen at first. Each symbol is looked at
    /// once.
    fn search_back(
        &self,
        form: &Linear,
        id: SymId,
        seen: &mut IndexSet<u32>,
    ) -> Result<bool, SymFault>
        requires { seen.old.keys ≡ [] }
        ensures leads { IfOk result (TellsLeads self.now.symbols form.now id) }
        ensures value { IfOk result (λ back. leads_back self.now.symbols form.now id ≡ back) }
        ensures memory { IfErr result (λ fault. fault ≡ NoMemory) }
    {
        if self.see(form.terms(), id, seen)? {
            return Ok(true);
        }
        let mut at = 0;
        'symbols: while at < seen.len() {
            // The index is below the length.
            let middle = SymId::new(*seen.get_index(at).unwrap());
            if self.see_behind(middle, id, seen)? {
                return Ok(true);
            }
            at += 1;
        }
        Ok(false)
    }

    /// Whether the form leads to the symbol.
    fn leads_back(&self, form: &Linear, id: SymId) -> Result<bool, SymFault>
        ensures leads { IfOk result (TellsLeads self.now.symbols form.now id) }
        ensures value { IfOk result (λ back. leads_back self.now.symbols form.now id ≡ back) }
        ensures memory { IfErr result (λ fault. fault ≡ NoMemory) }
    {
        let mut seen = IndexSet::new(self.allocator());
        self.search_back(form, id, &mut seen)
    }

    /// The symbol stands for the form from now on; with `once` only if it is undefined.
    #[tactic(auto, unfolding(crate::specs::Assigning::form_fault_at, crate::specs::LeadsBack::assigned))]
    pub fn assign(&mut self, id: SymId, form: Linear, once: bool) -> Result<(), SymFault>
        requires { id < length self.old.symbols }
        ensures cause { Assigns self.old self.new id form (form_fault_at self.old id once) result }
        ensures value { Gives self.new result (assigned self.old id form once) }
        ensures unchanged { OnErr result (self.new ≡ self.old) }
        ensures kept { length self.new.symbols ≡ length self.old.symbols }
    {
        if let Some(fault) = self.form_fault_at(id, once) {
            return Err(SymFault::Fault(fault));
        }
        if self.leads_back(&form, id)? {
            return Err(SymFault::Fault(SymCause::BadSymbolUse));
        }
        let form = BoxedForm::new(self.alloc, form)?;
        self.put_form(id, form);
        Ok(())
    }

    /// The symbol, which is no label and to which the form does not lead, stands for the form from
    /// now on.
    fn put_form(&mut self, id: SymId, form: BoxedForm)
        requires there { id < length self.old.symbols }
        requires plain { is_label_at self.old.symbols id ≡ false }
        requires forward { Leads self.old.symbols form id → ⊥ }
        ensures value { self.new ≡ with_form self.old id form }
        ensures kept { length self.new.symbols ≡ length self.old.symbols }
    {
        let symbol = &mut self.symbols[id.index() as usize];
        symbol.meaning = Meaning::Assigned(form);
    }
}
