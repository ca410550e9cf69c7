//! What is said of symbols: their attributes, and that they are space.

use crate::tables::{Naming, SymbolUses};
use asm_base::Pos;
use asm_expr::Name;
use asm_operands::PlaceFault;
use asm_symbols::{Definition, SymId, SymbolAttribute};
use std::alloc::Global;

impl SymbolUses {
    ghost use Rattle.std.specs.Prelude.{◌<◌, length};
    ghost use Rattle.asm_base.specs.Refusals.{Gives};
    ghost use Rattle.asm_uses.specs.Attributes.{define_space, say_one, say_all};
    ghost use Rattle.asm_expr.specs.declared.naming.Name.TheVariants.{Plain};

    /// The symbol of the name is defined so, and has this size.
    #[tactic(auto, unfolding(crate::specs::Attributes::define_space))]
    pub fn define_space(
        &mut self,
        alloc: Global,
        naming: Naming,
        id: SymId,
        size: u64,
        what: Definition,
    ) -> Result<(), PlaceFault>
        requires { id < length self.old.symbols.symbols }
        ensures { Gives self.new result (define_space naming id size what self.old) }
    {
        self.define(id, what)?;
        self.set_space(alloc, id, size)?;
        self.allow(naming)
    }

    /// This is said of a name.
    #[tactic(auto, unfolding(crate::specs::Tables::symbol_of))]
    fn say_one(
        &mut self,
        pos: Pos,
        attribute: SymbolAttribute,
        name: &Name,
    ) -> Result<(), PlaceFault>
        ensures { Gives self.new result (say_one pos attribute name.now self.old) }
    {
        let id = self.symbol_of(pos, name)?;
        self.say(id, attribute)
    }

    /// This is said of the symbol whose name is the text.
    #[inline(always)]
    #[tactic(auto, unfolding(crate::specs::Tables::symbol_of))]
    pub fn say_text(
        &mut self,
        pos: Pos,
        attribute: SymbolAttribute,
        text: &[u8],
    ) -> Result<(), PlaceFault>
        ensures { Gives self.new result (say_one pos attribute (Plain text.now) self.old) }
    {
        let id = self.symbol_of_text(pos, text)?;
        self.say(id, attribute)
    }

    /// This is said of each name.
    #[tactic(auto, unfolding(crate::specs::Attributes::say_all, asm_operands::specs::Results::all_steps))]
    pub fn say_all(
        &mut self,
        pos: Pos,
        attribute: SymbolAttribute,
        names: &[Name],
    ) -> Result<(), PlaceFault>
        ensures { Gives self.new result (say_all pos attribute names.now self.old) }
    {
        for name in names {
            self.say_one(pos, attribute, name)?;
        }
        Ok(())
    }
}
