//! Assignments to symbols (GNU as manual, ".set", ".equ", ".equiv", "Setting Symbols").

use crate::assemblers::Assembler;
use crate::few_sums::{NamedNumber, named_number};
use asm_base::{Pos, Token};
use asm_expr::constant_form;
use asm_operands::{
    NamedExpr, NamedSum, Operands, PlaceFault, expression_of, is_name, named_sum, named_tree,
    sum_operand, symbol_name,
};
use asm_uses::{Naming, View, form_in, sum_form_in, uses_place};

impl Assembler {
    ghost use Rattle.std.specs.Prelude.{◌≡◌, map};
    ghost use Rattle.asm_base.specs.Tokens.{spelled};
    ghost use Rattle.asm_base.specs.Refusals.{Gives};
    ghost use Rattle.asm_values.specs.Assignments.{assign_words, place_set, place_assignment};
    ghost use Rattle.asm_values.specs.NamedNumbers.{assign_number};
    ghost use Rattle.asm_operands.specs.NamedTrees.{named_tree_in};
    ghost use Rattle.asm_operands.specs.FewSums.{named_sum_tree};
    ghost use Rattle.asm_values.specs.PlacedBy.{placed_by, PlacesBy};

    /// The symbol of the name stands for the expression from now on.
    #[tactic(auto, unfolding(crate::specs::Assignments::assign_words))]
    fn assign_words(&mut self, pos: Pos, once: bool, words: &NamedExpr) -> Result<(), PlaceFault>
        ensures placed { PlacesBy (assign_words pos once (named_tree_in words.now))
            self.old self.new result }
        ensures kept { self.new.notes ≡ self.old.notes }
    {
        let (id, naming) = self.table.intern_words(pos, words)?;
        let view = self.view();
        let form = form_in(self.alloc, view, &words.expr)?;
        let View { spot, place, .. } = view;
        let keeps = uses_place(place, &form);
        self.table.assign(id, form, once)?;
        self.table.end_naming(pos, naming, spot, keeps)
    }

    /// The symbol of the name stands for the sum from now on.
    #[tactic(auto, unfolding(crate::specs::Assignments::assign_words), using(crate::proofs::SumLemmas::linear_sum))]
    fn assign_sum(&mut self, pos: Pos, once: bool, words: &NamedSum) -> Result<(), PlaceFault>
        ensures placed { PlacesBy (assign_words pos once (named_sum_tree words.now))
            self.old self.new result }
        ensures kept { self.new.notes ≡ self.old.notes }
    {
        let (id, naming, sum) = self.table.intern_named_sum(pos, words)?;
        let view = self.view();
        let form = sum_form_in(self.alloc, view, &sum)?;
        let View { spot, place, .. } = view;
        let keeps = uses_place(place, &form);
        self.table.assign(id, form, once)?;
        self.table.end_naming(pos, naming, spot, keeps)
    }

    /// The symbol of the name stands for the number from now on.
    fn assign_number(&mut self, pos: Pos, once: bool, words: &NamedNumber) -> Result<(), PlaceFault>
        ensures placed { PlacesBy (assign_number pos once words.now.name.now words.now.number)
            self.old self.new result }
        ensures kept { self.new.notes ≡ self.old.notes }
    {
        let before = self.table.symbols().len();
        let id = self.table.intern_text(pos, words.name)?;
        let form = constant_form(self.alloc, words.number);
        self.table.assign(id, form, once)?;
        self.table.allow(Naming {
            before,
            meant: true,
        })
    }

    /// `.set`, `.equ`, `.equiv` of any operands.
    #[inline(never)]
    #[tactic(auto, unfolding(crate::specs::Assignments::place_set))]
    fn place_any_set(&mut self, pos: Pos, once: bool, tokens: &[Token]) -> Result<(), PlaceFault>
        ensures placed { PlacesBy (place_set pos once (map spelled tokens.now))
            self.old self.new result }
        ensures kept { self.new.notes ≡ self.old.notes }
    {
        let words = named_tree(self.alloc, &mut Operands::new(tokens))?;
        self.assign_words(pos, once, &words)
    }

    /// The same: without a tree where the value is a number.
    fn place_number_set(&mut self, pos: Pos, once: bool, tokens: &[Token]) -> Result<(), PlaceFault>
        ensures placed { PlacesBy (place_set pos once (map spelled tokens.now))
            self.old self.new result }
        ensures kept { self.new.notes ≡ self.old.notes }
    {
        match named_number(tokens) {
            Some(words) => self.assign_number(pos, once, &words),
            None => self.place_any_set(pos, once, tokens),
        }
    }

    /// `.set`, `.equ`, `.equiv`: without a tree where the value is a sum or a number.
    #[tactic(auto, unfolding(crate::specs::Assignments::place_set))]
    pub fn place_set(&mut self, pos: Pos, once: bool, tokens: &[Token]) -> Result<(), PlaceFault>
        ensures placed { PlacesBy (place_set pos once (map spelled tokens.now))
            self.old self.new result }
        ensures kept { self.new.notes ≡ self.old.notes }
    {
        match named_sum(tokens) {
            Some(words) => self.assign_sum(pos, once, &words),
            None => self.place_number_set(pos, once, tokens),
        }
    }

    /// `name = expression` of any name and expression.
    #[inline(never)]
    #[tactic(auto, unfolding(crate::specs::Assignments::place_assignment))]
    fn place_any_assignment(
        &mut self,
        pos: Pos,
        token: &Token,
        tokens: &[Token],
    ) -> Result<(), PlaceFault>
        ensures placed { PlacesBy
            (place_assignment pos (spelled token.now) (map spelled tokens.now))
            self.old self.new result }
        ensures kept { self.new.notes ≡ self.old.notes }
    {
        let name = symbol_name(self.alloc, token)?;
        let expr = expression_of(self.alloc, tokens)?;
        self.assign_words(pos, false, &NamedExpr { name, expr })
    }

    /// `name = expression`, by the token of the name and those behind the sign: without a tree where
    /// the value is a sum.
    #[tactic(auto, unfolding(crate::specs::Assignments::place_assignment, asm_operands::specs::Operands::symbol_name, asm_operands::specs::Expressions::expression_of))]
    pub fn place_assignment(
        &mut self,
        pos: Pos,
        token: &Token,
        tokens: &[Token],
    ) -> Result<(), PlaceFault>
        ensures placed { PlacesBy
            (place_assignment pos (spelled token.now) (map spelled tokens.now))
            self.old self.new result }
        ensures kept { self.new.notes ≡ self.old.notes }
    {
        if is_name(token) {
            if let Some(sum) = sum_operand(tokens) {
                let name = token.bytes;
                return self.assign_sum(pos, false, &NamedSum { name, sum });
            }
        }
        self.place_any_assignment(pos, token, tokens)
    }
}
