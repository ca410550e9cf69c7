//! The names of operands become symbols, and are allowed or refused at the end of their statement.

use crate::places::here_name;
use crate::sums::SymbolSum;
use crate::tables::{Naming, SymbolUses};
use asm_base::{NoMemory, Pos};
use asm_expr::Expr;
use asm_operands::{NamedExpr, NamedSum, PlaceCause, PlaceFault, UpToThree};
use asm_symbols::{Definition, Spot, SymId};

impl SymbolUses {
    ghost use Rattle.std.specs.Prelude.{◌≡◌, ◌<◌, ◌≤◌, length, map, option_map, OnOk, IfOk, [], ◌∷◌};
    ghost use Rattle.asm_expr.specs.declared.naming.Name.TheVariants.{Plain};
    ghost use Rattle.asm_expr.specs.Trees.{tree_of};
    ghost use Rattle.asm_base.specs.Refusals.{Gives, GivesBy};
    ghost use Rattle.asm_uses.specs.Tables.{with_tree, with_trees, is_meant, are_meant, naming_of, allowed, symbol_of, with_name};
    ghost use Rattle.asm_uses.specs.Places.{name_here, end_naming};
    ghost use Rattle.std.specs.Option.{option_to_list};
    ghost use Rattle.asm_operands.specs.UpToThreeTrees.{trees_listed};
    ghost use Rattle.asm_symbols.specs.Interning.{number_of};
    ghost use Rattle.asm_operands.specs.Sums.{sum_tree};
    ghost use Rattle.asm_uses.specs.SymbolSums.{IsNamed};

    /// Each name of an expression has a symbol from now on, whatever room there is. Answers whether
    /// each `Nb` means a label that came before.
    #[tactic(auto, unfolding(crate::specs::Tables::with_tree, crate::specs::Tables::is_meant))]
    pub fn intern_tree(&mut self, pos: Pos, expr: &Expr) -> Result<bool, NoMemory>
        ensures ok { OnOk result (self.new ≡ with_tree pos (tree_of expr.now) self.old) }
        ensures meant { IfOk result (λ meant.
            meant ≡ is_meant self.old.symbols.counts (tree_of expr.now)) }
        ensures counts { OnOk result (self.new.symbols.counts ≡ self.old.symbols.counts) }
        ensures grows { OnOk result
            (length self.old.symbols.symbols ≤ length self.new.symbols.symbols) }
    {
        match expr {
            Expr::Num(_) | Expr::Here => Ok(true),
            Expr::Name(written) => {
                let meant = self.may_be_meant(written);
                self.intern(pos, written)?;
                Ok(meant)
            }
            Expr::Unary(_, operand) => self.intern_tree(pos, operand),
            Expr::Binary(_, left, right) => {
                let one = self.intern_tree(pos, left)?;
                let other = self.intern_tree(pos, right)?;
                Ok(one && other)
            }
        }
    }

    /// Each name of the expressions has a symbol from now on, whatever room there is: `allow` tells
    /// whether they may be.
    #[tactic(auto, unfolding(crate::specs::Tables::with_trees, crate::specs::Tables::are_meant))]
    pub fn intern_trees(&mut self, pos: Pos, exprs: &[Expr]) -> Result<Naming, NoMemory>
        ensures ok { OnOk result (self.new ≡ with_trees pos (map tree_of exprs.now) self.old) }
        ensures naming { IfOk result (λ naming.
            naming ≡ naming_of (map tree_of exprs.now) self.old) }
        ensures grows { OnOk result
            (length self.old.symbols.symbols ≤ length self.new.symbols.symbols) }
    {
        let before = self.symbols().len();
        let mut meant = true;
        for expr in exprs {
            let one = self.intern_tree(pos, expr)?;
            meant = meant && one;
        }
        Ok(Naming { before, meant })
    }

    /// Refuses names that may not have symbols.
    #[tactic(auto, unfolding(crate::specs::Tables::allowed))]
    pub fn allow(&self, naming: Naming) -> Result<(), PlaceFault>
        ensures { Gives self.now result (allowed naming self.now) }
    {
        let symbols = self.symbols();
        if naming.meant && (symbols.len() <= naming.before || symbols.is_within_limits()) {
            Ok(())
        } else {
            Err(PlaceFault::Fault(PlaceCause::BadSymbolUse))
        }
    }

    /// The symbol whose name is the text, which is put last if it is new.
    #[inline(always)]
    #[tactic(auto, using(crate::proofs::TextLemmas::text_symbol))]
    pub fn symbol_of_text(&mut self, pos: Pos, text: &[u8]) -> Result<SymId, PlaceFault>
        ensures value { GivesBy (λ id. (self.new, id)) result
            (symbol_of pos (Plain text.now) self.old) }
        ensures within { IfOk result (λ id. id < length self.new.symbols.symbols) }
    {
        let before = self.symbols().len();
        let id = self.intern_text(pos, text)?;
        self.allow(Naming {
            before,
            meant: true,
        })?;
        Ok(id)
    }

    /// The place itself becomes a symbol where a form keeps it, unless it is one already.
    #[tactic(auto, unfolding(crate::specs::Places::name_here, crate::specs::Tables::symbol_of))]
    fn name_here(&mut self, pos: Pos, spot: Spot, keeps: bool) -> Result<(), PlaceFault>
        ensures { Gives self.new result (name_here pos spot keeps self.old) }
    {
        if !keeps {
            return Ok(());
        }
        let name = here_name(spot);
        match self.symbols().find(&name) {
            Some(_) => Ok(()),
            None => {
                let id = self.symbol_of(pos, &name)?;
                self.define(id, Definition::Label(spot))
            }
        }
    }

    /// Allows or refuses the names; and the place becomes a symbol where a form keeps it.
    pub fn end_naming(
        &mut self,
        pos: Pos,
        naming: Naming,
        spot: Spot,
        keeps: bool,
    ) -> Result<(), PlaceFault>
        ensures { Gives self.new result (end_naming pos naming spot keeps self.old) }
    {
        self.allow(naming)?;
        self.name_here(pos, spot, keeps)
    }

    /// Each name of an expression that may be missing has a symbol from now on. Answers whether
    /// each `Nb` means a label that came before.
    #[tactic(auto, unfolding(crate::specs::Tables::with_trees, crate::specs::Tables::are_meant))]
    fn intern_if(&mut self, pos: Pos, expr: &Option<Expr>) -> Result<bool, NoMemory>
        ensures ok { OnOk result (self.new
            ≡ with_trees pos (option_to_list (option_map tree_of expr.now)) self.old) }
        ensures meant { IfOk result (λ meant. meant
            ≡ are_meant self.old.symbols.counts (option_to_list (option_map tree_of expr.now))) }
        ensures counts { OnOk result (self.new.symbols.counts ≡ self.old.symbols.counts) }
        ensures grows { OnOk result
            (length self.old.symbols.symbols ≤ length self.new.symbols.symbols) }
    {
        match expr {
            Some(expr) => self.intern_tree(pos, expr),
            None => Ok(true),
        }
    }

    /// Each name of the expressions has a symbol from now on, whatever room there is.
    #[tactic(auto, unfolding(crate::specs::Tables::with_trees, crate::specs::Tables::are_meant))]
    pub fn intern_up_to_three(
        &mut self,
        pos: Pos,
        exprs: &UpToThree<Expr>,
    ) -> Result<Naming, NoMemory>
        ensures ok { OnOk result (self.new ≡ with_trees pos (trees_listed exprs.now) self.old) }
        ensures naming { IfOk result (λ naming.
            naming ≡ naming_of (trees_listed exprs.now) self.old) }
        ensures grows { OnOk result
            (length self.old.symbols.symbols ≤ length self.new.symbols.symbols) }
    {
        let before = self.symbols().len();
        let first = self.intern_tree(pos, &exprs.first)?;
        let second = self.intern_if(pos, &exprs.second)?;
        let third = self.intern_if(pos, &exprs.third)?;
        Ok(Naming {
            before,
            meant: first && second && third,
        })
    }

    /// The name and then each name of the expression has a symbol from now on, whatever room there
    /// is. Answers the symbol of the name.
    #[tactic(auto, unfolding(crate::specs::Tables::are_meant))]
    pub fn intern_words(&mut self, pos: Pos, words: &NamedExpr) -> Result<(SymId, Naming), NoMemory>
        ensures ok { OnOk result (self.new
            ≡ with_tree pos (tree_of words.now.expr) (with_name pos (Plain words.now.name) self.old)) }
        ensures id { IfOk result (λ made.
            made.0 ≡ number_of self.old.symbols (Plain words.now.name)) }
        ensures within { IfOk result (λ made. made.0 < length self.new.symbols.symbols) }
        ensures naming { IfOk result (λ made.
            made.1 ≡ naming_of (tree_of words.now.expr ∷ []) self.old) }
    {
        let before = self.symbols().len();
        let id = self.intern_text(pos, words.name.as_bytes())?;
        let meant = self.intern_tree(pos, &words.expr)?;
        Ok((id, Naming { before, meant }))
    }

    /// The name and then each name of the sum has a symbol from now on, whatever room there is.
    /// Answers the symbol of the name, and the sum by its symbols.
    #[tactic(auto, unfolding(crate::specs::Tables::are_meant))]
    pub fn intern_named_sum(
        &mut self,
        pos: Pos,
        words: &NamedSum,
    ) -> Result<(SymId, Naming, SymbolSum), NoMemory>
        ensures ok { OnOk result (self.new
            ≡ with_tree pos (sum_tree words.now.sum) (with_name pos (Plain words.now.name.now) self.old)) }
        ensures id { IfOk result (λ made.
            made.0 ≡ number_of self.old.symbols (Plain words.now.name.now)) }
        ensures within { IfOk result (λ made. made.0 < length self.new.symbols.symbols) }
        ensures naming { IfOk result (λ made.
            made.1 ≡ naming_of (sum_tree words.now.sum ∷ []) self.old) }
        ensures named { IfOk result (λ made. IsNamed self.new.symbols words.now.sum made.2) }
    {
        let before = self.symbols().len();
        let meant = self.is_sum_meant(&words.sum);
        let id = self.intern_text(pos, words.name)?;
        let sum = self.intern_sum(pos, &words.sum)?;
        Ok((id, Naming { before, meant }, sum))
    }
}
