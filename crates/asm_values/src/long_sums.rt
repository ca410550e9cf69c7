//! Data of one or two sums of up to three numbers, names and places, and of what is known as numbers: it needs no tree.

use crate::assemblers::{Assembler, view_of};
use crate::constant_data::known_data;
use asm_base::{Pos, Token};
use asm_frags::FieldSize;
use asm_operands::{LongSum, LongSums, PlaceFault, long_sums};
use asm_uses::{LongSymbolSum, Naming, View, long_form_in, long_plain, long_plain_form};

impl Assembler {
    ghost use Rattle.std.specs.Prelude.{◌≡◌, [], ◌∷◌, map};
    ghost use Rattle.asm_base.specs.Tokens.{spelled};
    ghost use Rattle.asm_operands.specs.Sums.{long_tree};
    ghost use Rattle.asm_values.specs.Answers.{KeepsNotes};
    ghost use Rattle.asm_uses.specs.LongSums.{long_form};
    ghost use Rattle.asm_uses.specs.PlainSums.{NamesElsewhere};
    ghost use Rattle.asm_values.specs.Data.{put_data, data_read, place_data};
    ghost use Rattle.asm_values.specs.State.{known_here};
    ghost use Rattle.asm_values.specs.PlacedBy.{placed_by, PlacesBy};

    /// Puts one sum.
    #[inline(never)]
    fn put_any_long(
        &mut self,
        pos: Pos,
        size: FieldSize,
        naming: Naming,
        named: &LongSymbolSum,
    ) -> Result<(), PlaceFault>
        ensures placed { PlacesBy (put_data pos size naming
            (long_form (known_here (placed_by self.old)) named.now ∷ [])) self.old self.new result }
        ensures kept { KeepsNotes result self.old.notes self.new.notes }
    {
        let view = self.view();
        let form = long_form_in(self.alloc, view, named)?;
        let View { spot, place, .. } = view;
        self.put_one(pos, size, naming, spot, place, form)
    }

    /// Puts two sums.
    #[inline(never)]
    fn put_any_two_long(
        &mut self,
        pos: Pos,
        size: FieldSize,
        naming: Naming,
        one: &LongSymbolSum,
        another: &LongSymbolSum,
    ) -> Result<(), PlaceFault>
        ensures placed { PlacesBy (put_data pos size naming
            (long_form (known_here (placed_by self.old)) one.now
            ∷ long_form (known_here (placed_by self.old)) another.now ∷ []))
            self.old self.new result }
        ensures kept { KeepsNotes result self.old.notes self.new.notes }
    {
        let view = self.view();
        let first = long_form_in(self.alloc, view, one)?;
        let second = long_form_in(self.alloc, view, another)?;
        let View { spot, place, .. } = view;
        self.put_two(pos, size, naming, spot, place, first, second)
    }

    /// Puts one sum, whose names are symbols.
    #[inline(always)]
    #[tactic(auto, using(crate::proofs::LongSumLemmas::long_plain_sum))]
    fn put_long(
        &mut self,
        pos: Pos,
        size: FieldSize,
        naming: Naming,
        named: &LongSymbolSum,
    ) -> Result<(), PlaceFault>
        requires { NamesElsewhere self.old.table.symbols (known_here (placed_by self.old))
            named.now.front }
        ensures placed { PlacesBy (put_data pos size naming
            (long_form (known_here (placed_by self.old)) named.now ∷ [])) self.old self.new result }
        ensures kept { KeepsNotes result self.old.notes self.new.notes }
    {
        let symbols = self.table.symbols();
        match long_plain(symbols, named) {
            Some(plain) => {
                let form = long_plain_form(self.alloc, symbols, plain)?;
                self.put_free(pos, size, naming, form)
            }
            None => self.put_any_long(pos, size, naming, named),
        }
    }

    /// Puts two sums, whose names are symbols.
    #[inline(always)]
    #[tactic(auto, using(crate::proofs::LongSumLemmas::long_plain_sum))]
    fn put_two_long(
        &mut self,
        pos: Pos,
        size: FieldSize,
        naming: Naming,
        named: &LongSymbolSum,
        another: &LongSymbolSum,
    ) -> Result<(), PlaceFault>
        requires one { NamesElsewhere self.old.table.symbols (known_here (placed_by self.old))
            named.now.front }
        requires other { NamesElsewhere self.old.table.symbols (known_here (placed_by self.old))
            another.now.front }
        ensures placed { PlacesBy (put_data pos size naming
            (long_form (known_here (placed_by self.old)) named.now
            ∷ long_form (known_here (placed_by self.old)) another.now ∷ []))
            self.old self.new result }
        ensures kept { KeepsNotes result self.old.notes self.new.notes }
    {
        let symbols = self.table.symbols();
        match (long_plain(symbols, named), long_plain(symbols, another)) {
            (Some(plain), Some(other)) => {
                let first = long_plain_form(self.alloc, symbols, plain)?;
                let second = long_plain_form(self.alloc, symbols, other)?;
                self.put_two_free(pos, size, naming, first, second)
            }
            _ => self.put_any_two_long(pos, size, naming, named, another),
        }
    }

    /// Data that is one sum.
    #[inline(always)]
    #[tactic(auto, unfolding(asm_operands::specs::Operands::each), using(crate::proofs::LongSumLemmas::long_named_form))]
    fn place_long(&mut self, pos: Pos, size: FieldSize, sum: &LongSum) -> Result<(), PlaceFault>
        ensures placed { PlacesBy (data_read pos size (long_tree sum.now ∷ []))
            self.old self.new result }
        ensures kept { KeepsNotes result self.old.notes self.new.notes }
    {
        let (naming, named) = self.table.intern_one_long(pos, sum)?;
        self.put_long(pos, size, naming, &named)
    }

    /// Data that is two sums.
    #[inline(always)]
    #[tactic(auto, unfolding(asm_operands::specs::Operands::each), using(crate::proofs::LongSumLemmas::long_named_form))]
    fn place_two_long(
        &mut self,
        pos: Pos,
        size: FieldSize,
        sum: &LongSum,
        other: &LongSum,
    ) -> Result<(), PlaceFault>
        ensures placed { PlacesBy
            (data_read pos size (long_tree sum.now ∷ long_tree other.now ∷ [])) self.old self.new result }
        ensures kept { KeepsNotes result self.old.notes self.new.notes }
    {
        let (naming, one, another) = self.table.intern_two_long(pos, sum, other)?;
        self.put_two_long(pos, size, naming, &one, &another)
    }

    /// Data of any operands: without trees where these are one or two sums of up to three summands.
    #[inline(never)]
    #[tactic(auto, unfolding(crate::specs::Data::place_data))]
    pub(crate) fn place_sums(
        &mut self,
        pos: Pos,
        size: FieldSize,
        tokens: &[Token],
    ) -> Result<(), PlaceFault>
        ensures placed { PlacesBy (place_data pos size (map spelled tokens.now))
            self.old self.new result }
        ensures kept { KeepsNotes result self.old.notes self.new.notes }
    {
        match long_sums(tokens) {
            Some(LongSums::One(sum)) => self.place_long(pos, size, &sum),
            Some(LongSums::Two(sum, other)) => self.place_two_long(pos, size, &sum, &other),
            None => self.place_known(pos, size, tokens),
        }
    }

    /// Data of any operands: at once where all are numbers by what is known here.
    #[inline(never)]
    fn place_known(&mut self, pos: Pos, size: FieldSize, tokens: &[Token]) -> Result<(), PlaceFault>
        ensures placed { PlacesBy (place_data pos size (map spelled tokens.now))
            self.old self.new result }
        ensures kept { KeepsNotes result self.old.notes self.new.notes }
    {
        let view = view_of(&self.table, &self.sections, self.current);
        match known_data(&view, &mut self.scratch, size, tokens)? {
            Some(cut) => self.put_constants(pos, cut),
            None => self.place_any_data(pos, size, tokens),
        }
    }
}
