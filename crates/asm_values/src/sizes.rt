//! The sizes of symbols (GNU as manual, ".size").

use crate::assemblers::Assembler;
use crate::few_sums::{NamedNumber, named_number};
use asm_base::{Pos, Token};
use asm_expr::constant_form;
use asm_operands::{
    NamedExpr, NamedSum, Operands, PlaceFault, begins_with_place, named_sum, named_tree,
};
use asm_uses::{Naming, View, form_in, sum_form_in, uses_place};

impl Assembler {
    ghost use Rattle.std.specs.Prelude.{◌≡◌, map};
    ghost use Rattle.asm_base.specs.Tokens.{spelled};
    ghost use Rattle.asm_base.specs.Refusals.{Gives};
    ghost use Rattle.asm_values.specs.Sizes.{size_words, place_size};
    ghost use Rattle.asm_values.specs.NamedNumbers.{size_number};
    ghost use Rattle.asm_operands.specs.NamedTrees.{named_tree_in};
    ghost use Rattle.asm_operands.specs.FewSums.{named_sum_tree};
    ghost use Rattle.asm_values.specs.PlacedBy.{placed_by, PlacesBy};

    /// The expression is the size of the symbol of the name.
    #[tactic(auto, unfolding(crate::specs::Sizes::size_words))]
    fn size_words(&mut self, pos: Pos, words: &NamedExpr) -> Result<(), PlaceFault>
        ensures placed { PlacesBy (size_words pos (named_tree_in words.now))
            self.old self.new result }
        ensures kept { self.new.notes ≡ self.old.notes }
    {
        let (id, naming) = self.table.intern_words(pos, words)?;
        let view = self.view();
        let form = form_in(self.alloc, view, &words.expr)?;
        let View { spot, place, .. } = view;
        let keeps = uses_place(place, &form);
        self.table.set_size(pos, id, form)?;
        self.table.end_naming(pos, naming, spot, keeps)
    }

    /// The sum is the size of the symbol of the name.
    #[tactic(auto, unfolding(crate::specs::Sizes::size_words), using(crate::proofs::SumLemmas::linear_sum))]
    fn size_sum(&mut self, pos: Pos, words: &NamedSum) -> Result<(), PlaceFault>
        ensures placed { PlacesBy (size_words pos (named_sum_tree words.now))
            self.old self.new result }
        ensures kept { self.new.notes ≡ self.old.notes }
    {
        let (id, naming, sum) = self.table.intern_named_sum(pos, words)?;
        let view = self.view();
        let form = sum_form_in(self.alloc, view, &sum)?;
        let View { spot, place, .. } = view;
        let keeps = uses_place(place, &form);
        self.table.set_size(pos, id, form)?;
        self.table.end_naming(pos, naming, spot, keeps)
    }

    /// The number is the size of the symbol of the name, unless a symbol is named by `.`.
    fn size_number(&mut self, pos: Pos, words: &NamedNumber, dot: bool) -> Result<(), PlaceFault>
        ensures placed { PlacesBy (size_number pos words.now.name.now words.now.number dot)
            self.old self.new result }
        ensures kept { self.new.notes ≡ self.old.notes }
    {
        let before = self.table.symbols().len();
        let id = self.table.intern_text(pos, words.name)?;
        let form = constant_form(self.alloc, words.number);
        self.table.set_size(pos, id, form)?;
        self.table.allow(Naming {
            before,
            meant: true,
        })?;
        self.unless_dot(dot)
    }

    /// `.size` of any operands.
    #[inline(never)]
    #[tactic(auto, unfolding(crate::specs::Sizes::place_size))]
    fn place_any_size(&mut self, pos: Pos, tokens: &[Token]) -> Result<(), PlaceFault>
        ensures placed { PlacesBy (place_size pos (map spelled tokens.now))
            self.old self.new result }
        ensures kept { self.new.notes ≡ self.old.notes }
    {
        let words = named_tree(self.alloc, &mut Operands::new(tokens))?;
        self.size_words(pos, &words)?;
        self.unless_dot(begins_with_place(tokens))
    }

    /// The same: without a tree where the size is a number.
    fn place_number_size(&mut self, pos: Pos, tokens: &[Token]) -> Result<(), PlaceFault>
        ensures placed { PlacesBy (place_size pos (map spelled tokens.now))
            self.old self.new result }
        ensures kept { self.new.notes ≡ self.old.notes }
    {
        match named_number(tokens) {
            Some(words) => self.size_number(pos, &words, begins_with_place(tokens)),
            None => self.place_any_size(pos, tokens),
        }
    }

    /// `.size`: without a tree where it is a sum or a number.
    #[tactic(auto, unfolding(crate::specs::Sizes::place_size))]
    pub fn place_size(&mut self, pos: Pos, tokens: &[Token]) -> Result<(), PlaceFault>
        ensures placed { PlacesBy (place_size pos (map spelled tokens.now))
            self.old self.new result }
        ensures kept { self.new.notes ≡ self.old.notes }
    {
        match named_sum(tokens) {
            Some(words) => {
                self.size_sum(pos, &words)?;
                self.unless_dot(begins_with_place(tokens))
            }
            None => self.place_number_size(pos, tokens),
        }
    }
}
