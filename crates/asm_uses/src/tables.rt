//! The symbols of a source, and where each is named.

use asm_base::{NoMemory, Pos};
use asm_expr::{Linear, Name, Written, constant_form};
use asm_operands::PlaceFault;
use asm_symbols::{Definition, Kind, SymFault, SymId, SymbolAttribute, Symbols, names_are_apart};
use std::alloc::Global;
use std::marker::Model;

/// How many symbols there were before the names of a statement got theirs, and whether each
/// name means one: `Nb` only where a label N came before.
#[derive(Clone, Copy)]
pub struct Naming {
    pub before: usize,
    pub meant: bool,
}

/// The symbol map, and where its symbols are named.
#[derive(Drop)]
pub struct SymbolUses {
    symbols: Symbols,
    /// For each symbol where the first statement stands that names it.
    named: Vec<Pos>,
    /// For each size that was said by `.size`, the index of the symbol and where that stands.
    sized: Vec<(u32, Pos)>,
}

impl Model for SymbolUses {
    ghost use Rattle.asm_uses.specs.Tables.{Table};

    ghost Value = { Table };

    ghost view = { λ inside. record { symbols = inside.symbols; named = inside.named.items; sized = inside.sized.items } };
}

impl SymbolUses {
    ghost use Rattle.std.specs.Prelude.{◌≡◌, ◌<◌, ◌≤◌, length, Some, OnOk, IfOk, Ok};
    ghost use Rattle.std.specs.Borrow.{sem};
    ghost use Rattle.asm_uses.specs.Lending.{LendsMap};
    ghost use Rattle.asm_symbols.specs.Defining.{defined};
    ghost use Rattle.asm_symbols.specs.LeadsBack.{assigned};
    ghost use Rattle.asm_base.specs.Refusals.{Gives, GivesBy};
    ghost use Rattle.asm_expr.specs.declared.naming.Name.TheVariants.{Plain};
    ghost use Rattle.asm_expr.specs.declared.trees.Written.TheVariants.{Back, Next};
    ghost use Rattle.asm_symbols.specs.SymbolMap.{names, index_of};
    ghost use Rattle.asm_symbols.specs.Interning.{number_of};
    ghost use Rattle.asm_symbols.specs.Counting.{meant_name, may_be_meant};
    ghost use Rattle.asm_uses.specs.Tables.{no_table, last_sized, with_map, with_name, symbol_of, next_symbol, changed_by, file_named};
    ghost use Rattle.asm_uses.specs.Attributes.{as_space, said, kind_said, sized};

    /// No symbols.
    pub fn new(alloc: Global) -> SymbolUses
        ensures { result ≡ no_table }
    {
        SymbolUses {
            symbols: Symbols::new(alloc),
            named: Vec::new(alloc),
            sized: Vec::new(alloc),
        }
    }

    /// The symbol map.
    pub fn symbols(&self) -> &Symbols
        ensures { result.now ≡ self.now.symbols }
    {
        &self.symbols
    }

    /// The symbol map, for symbols that no statement names: where those of statements are named stays.
    pub fn symbols_mut(&mut self) -> &mut Symbols
        ensures* lends { sem 𝓛 (LendsMap self.entry result) }
        ensures value { result.now ≡ self.old.symbols }
    {
        &mut self.symbols
    }

    /// For each symbol where the first statement stands that names it.
    pub fn named(&self) -> &[Pos]
        ensures { result.now ≡ self.now.named }
    {
        self.named.as_slice()
    }

    /// Where the size of the symbol at this index is said last, where `.size` says one.
    pub fn sized(&self, index: u32) -> Option<Pos>
        ensures { result ≡ last_sized index self.now.sized }
    {
        let mut last = None;
        for said in &self.sized {
            if said.0 == index {
                last = Some(said.1);
            }
        }
        last
    }

    /// The symbol of the name, which is put last if it is new.
    #[tactic(auto, unfolding(crate::specs::Tables::symbol_of))]
    pub fn symbol_of(&mut self, pos: Pos, name: &Name) -> Result<SymId, PlaceFault>
        ensures value { GivesBy (λ id. (self.new, id)) result
            (symbol_of pos name.now self.old) }
        ensures within { IfOk result (λ id. id < length self.new.symbols.symbols) }
    {
        let before = self.symbols.len();
        let id = self.symbols.name_of(name).map_err(SymFault::raise)?;
        if self.symbols.len() > before {
            self.named.push(pos)?;
        }
        Ok(id)
    }

    /// The symbol of the next instance of a numeric label.
    #[tactic(auto, unfolding(crate::specs::Tables::next_symbol))]
    pub(crate) fn next_symbol(&mut self, pos: Pos, number: u64) -> Result<SymId, PlaceFault>
        ensures value { GivesBy (λ id. (self.new, id)) result
            (next_symbol pos number self.old) }
        ensures within { IfOk result (λ id. id < length self.new.symbols.symbols) }
    {
        let before = self.symbols.len();
        let id = self.symbols.numeric_next(number).map_err(SymFault::raise)?;
        if self.symbols.len() > before {
            self.named.push(pos)?;
        }
        Ok(id)
    }

    /// The symbol is defined so.
    pub fn define(&mut self, id: SymId, what: Definition) -> Result<(), PlaceFault>
        requires { id < length self.old.symbols.symbols }
        ensures value { Gives self.new result
            (changed_by (λ map index. defined map index what) (self.old, id)) }
        ensures kept { length self.new.symbols.symbols ≡ length self.old.symbols.symbols }
    {
        self.symbols.define(id, what).map_err(SymFault::raise)
    }

    /// This is said of the symbol.
    pub(crate) fn say(&mut self, id: SymId, attribute: SymbolAttribute) -> Result<(), PlaceFault>
        requires { id < length self.old.symbols.symbols }
        ensures { Gives self.new result (changed_by (said attribute) (self.old, id)) }
    {
        match attribute {
            SymbolAttribute::Bind(binding) => self
                .symbols
                .bind(id, binding)
                .map_err(SymFault::raise),
            SymbolAttribute::See(visibility) => {
                self.symbols
                    .visibility(id, visibility)
                    .map_err(SymFault::raise)
            }
        }
    }

    /// The symbol is of this kind.
    pub fn set_kind(&mut self, id: SymId, kind: Kind) -> Result<(), PlaceFault>
        requires { id < length self.old.symbols.symbols }
        ensures value { Gives self.new result (changed_by (kind_said kind) (self.old, id)) }
        ensures kept { length self.new.symbols.symbols ≡ length self.old.symbols.symbols }
    {
        self.symbols.kind(id, kind).map_err(SymFault::raise)
    }

    /// The symbol is space of this size.
    pub(crate) fn set_space(
        &mut self,
        alloc: Global,
        id: SymId,
        size: u64,
    ) -> Result<(), PlaceFault>
        requires { id < length self.old.symbols.symbols }
        ensures { Gives self.new result
            (Ok (with_map self.old (as_space size self.old.symbols id))) }
    {
        let kind = self.symbols.symbol(id).kind.unwrap_or(Kind::Object);
        self.symbols
            .size(id, constant_form(alloc, size))
            .map_err(SymFault::raise)?;
        self.symbols.kind(id, kind).map_err(SymFault::raise)
    }

    /// The symbol has this size, which is said at this place.
    pub fn set_size(&mut self, pos: Pos, id: SymId, size: Linear) -> Result<(), PlaceFault>
        requires { id < length self.old.symbols.symbols }
        ensures { Gives self.new result (Ok (sized pos size (self.old, id))) }
    {
        self.symbols.size(id, size).map_err(SymFault::raise)?;
        self.sized.push((id.index(), pos))?;
        Ok(())
    }

    /// The symbol stands for the form; with `once` only if it was nothing before.
    pub fn assign(&mut self, id: SymId, form: Linear, once: bool) -> Result<(), PlaceFault>
        requires { id < length self.old.symbols.symbols }
        ensures { Gives self.new result
            (changed_by (λ map index. assigned map index form once) (self.old, id)) }
    {
        self.symbols.assign(id, form, once).map_err(SymFault::raise)
    }

    /// The name of a file more.
    pub fn file(&mut self, name: &Name) -> Result<(), PlaceFault>
        ensures { Gives self.new result (file_named name.now self.old) }
    {
        self.symbols.file(name).map_err(SymFault::raise)
    }

    /// The name is a symbol's from now on, whatever room there is.
    #[tactic(auto, unfolding(crate::specs::Tables::with_name), using(crate::proofs::InternLemmas::interned_within))]
    pub fn intern_text(&mut self, pos: Pos, text: &[u8]) -> Result<SymId, NoMemory>
        ensures ok { OnOk result (self.new ≡ with_name pos (Plain text.now) self.old) }
        ensures counts { OnOk result (self.new.symbols.counts ≡ self.old.symbols.counts) }
        ensures id { IfOk result (λ id.
            id ≡ number_of self.old.symbols (Plain text.now)) }
        ensures found { IfOk result (λ id.
            index_of (Plain text.now) (names self.new.symbols.symbols) ≡ Some id) }
        ensures within { IfOk result (λ id. id < length self.new.symbols.symbols) }
        ensures grows { OnOk result
            (length self.old.symbols.symbols ≤ length self.new.symbols.symbols) }
    {
        let before = self.symbols.len();
        let id = self.symbols.intern_text(text)?;
        names_are_apart(&self.symbols);
        if self.symbols.len() > before {
            self.named.push(pos)?;
        }
        Ok(id)
    }

    /// What `Nb` means is a symbol from now on, whatever room there is.
    #[tactic(auto, unfolding(crate::specs::Tables::with_name), using(crate::proofs::InternLemmas::interned_grows))]
    pub(crate) fn intern_back(&mut self, pos: Pos, number: u64) -> Result<SymId, NoMemory>
        ensures ok { OnOk result
            (self.new ≡ with_name pos (meant_name self.old.symbols.counts (Back number)) self.old) }
        ensures counts { OnOk result (self.new.symbols.counts ≡ self.old.symbols.counts) }
        ensures found { IfOk result (λ id.
            index_of (meant_name self.new.symbols.counts (Back number)) (names self.new.symbols.symbols)
            ≡ Some id) }
        ensures grows { OnOk result
            (length self.old.symbols.symbols ≤ length self.new.symbols.symbols) }
    {
        let before = self.symbols.len();
        let id = self.symbols.intern_back(number)?;
        names_are_apart(&self.symbols);
        if self.symbols.len() > before {
            self.named.push(pos)?;
        }
        Ok(id)
    }

    /// What `Nf` means is a symbol from now on, whatever room there is.
    #[tactic(auto, unfolding(crate::specs::Tables::with_name), using(crate::proofs::InternLemmas::interned_grows))]
    pub(crate) fn intern_next(&mut self, pos: Pos, number: u64) -> Result<SymId, NoMemory>
        ensures ok { OnOk result
            (self.new ≡ with_name pos (meant_name self.old.symbols.counts (Next number)) self.old) }
        ensures counts { OnOk result (self.new.symbols.counts ≡ self.old.symbols.counts) }
        ensures found { IfOk result (λ id.
            index_of (meant_name self.new.symbols.counts (Next number)) (names self.new.symbols.symbols)
            ≡ Some id) }
        ensures grows { OnOk result
            (length self.old.symbols.symbols ≤ length self.new.symbols.symbols) }
    {
        let before = self.symbols.len();
        let id = self.symbols.intern_next(number)?;
        names_are_apart(&self.symbols);
        if self.symbols.len() > before {
            self.named.push(pos)?;
        }
        Ok(id)
    }

    /// What the name means is a symbol from now on, whatever room there is.
    pub(crate) fn intern(&mut self, pos: Pos, written: &Written) -> Result<(), NoMemory>
        ensures ok { OnOk result
            (self.new ≡ with_name pos (meant_name self.old.symbols.counts written.now) self.old) }
        ensures counts { OnOk result (self.new.symbols.counts ≡ self.old.symbols.counts) }
        ensures grows { OnOk result
            (length self.old.symbols.symbols ≤ length self.new.symbols.symbols) }
    {
        match written {
            Written::Plain(text) => {
                self.intern_text(pos, text.as_bytes())?;
                Ok(())
            }
            Written::Back(number) => {
                self.intern_back(pos, *number)?;
                Ok(())
            }
            Written::Next(number) => {
                self.intern_next(pos, *number)?;
                Ok(())
            }
        }
    }

    /// Whether `Nb` means a label that came before; any other name may be a new one.
    pub(crate) fn may_be_meant(&self, written: &Written) -> bool
        ensures { result ≡ may_be_meant self.now.symbols.counts written.now }
    {
        match written {
            Written::Back(number) => self.symbols.count(*number) != 0,
            _ => true,
        }
    }
}
