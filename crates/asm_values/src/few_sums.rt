//! Data of one or two sums of numbers, names and places, and a name and a number: they need no tree.

ghost use Rattle.std.specs.Prelude.{map};
ghost use Rattle.asm_base.specs.Tokens.{spelled};
ghost use Rattle.asm_values.specs.NamedNumbers.{FindsNamedNumber};

use crate::assemblers::Assembler;
use crate::data_items::is_cut;
use asm_base::{Pos, Token};
use asm_expr::Linear;
use asm_frags::FieldSize;
use asm_operands::{Operands, PlaceFault, Sum, bare_name, constant_operand};
use asm_symbols::Spot;
use asm_uses::{Naming, Plain, SymbolSum, View, plain_form, plain_of, sum_form_in, uses_place};

/// A name and a number.
#[derive(Clone, Copy)]
pub(crate) struct NamedNumber<'a> {
    pub(crate) name: &'a [u8],
    pub(crate) number: u64,
}

/// The name and the number that two operands are, the second by an expression of numbers alone. None says nothing of the operands.
pub(crate) fn named_number<'a>(tokens: &[Token<'a>]) -> Option<NamedNumber<'a>>
    ensures { FindsNamedNumber (map spelled tokens.now) result }
{
    let mut operands = Operands::new(tokens);
    let name = bare_name(operands.next()?)?;
    let number = constant_operand(operands.next()?)?;
    match operands.next() {
        None => Some(NamedNumber { name, number }),
        Some(_) => None,
    }
}

impl Assembler {
    ghost use Rattle.std.specs.Prelude.{◌≡◌, false, [], ◌∷◌};
    ghost use Rattle.asm_symbols.specs.Looking.{told};
    ghost use Rattle.asm_uses.specs.Places.{uses_place};
    ghost use Rattle.asm_uses.specs.PlainSums.{plain_form, NamesElsewhere};
    ghost use Rattle.asm_uses.specs.SumForms.{sum_form};
    ghost use Rattle.asm_operands.specs.Sums.{sum_tree};
    ghost use Rattle.asm_values.specs.Answers.{KeepsNotes};
    ghost use Rattle.asm_values.specs.Data.{end_data, put_data, data_read};
    ghost use Rattle.asm_values.specs.State.{here, known_here};
    ghost use Rattle.asm_values.specs.PlacedBy.{placed_by, PlacesBy};

    /// Allows or refuses the names of values that were put, and notes how many were cut.
    #[inline(always)]
    fn end_data(
        &mut self,
        pos: Pos,
        naming: Naming,
        spot: Spot,
        keeps: bool,
        cut: usize,
    ) -> Result<(), PlaceFault>
        ensures placed { PlacesBy (end_data pos naming spot keeps cut) self.old self.new result }
        ensures kept { KeepsNotes result self.old.notes self.new.notes }
    {
        self.table.end_naming(pos, naming, spot, keeps)?;
        self.warn(pos, cut)?;
        Ok(())
    }

    /// Puts one value.
    #[tactic(auto, unfolding(crate::specs::Data::put_data, crate::specs::DataItems::put_forms, asm_operands::specs::Results::all_steps))]
    pub(crate) fn put_one(
        &mut self,
        pos: Pos,
        size: FieldSize,
        naming: Naming,
        spot: Spot,
        place: u32,
        form: Linear,
    ) -> Result<(), PlaceFault>
        requires spot { spot ≡ here (placed_by self.old) }
        requires place { place ≡ (known_here (placed_by self.old)).place }
        ensures placed { PlacesBy (put_data pos size naming (form ∷ [])) self.old self.new result }
        ensures kept { KeepsNotes result self.old.notes self.new.notes }
    {
        let keeps = uses_place(place, &form);
        let cut = is_cut(size, &form) as usize;
        self.put_form(pos, size, form)?;
        self.end_data(pos, naming, spot, keeps, cut)
    }

    /// Puts two values.
    #[tactic(auto, unfolding(crate::specs::Data::put_data, crate::specs::DataItems::put_forms, asm_operands::specs::Results::all_steps))]
    pub(crate) fn put_two(
        &mut self,
        pos: Pos,
        size: FieldSize,
        naming: Naming,
        spot: Spot,
        place: u32,
        form: Linear,
        other: Linear,
    ) -> Result<(), PlaceFault>
        requires spot { spot ≡ here (placed_by self.old) }
        requires place { place ≡ (known_here (placed_by self.old)).place }
        ensures placed { PlacesBy (put_data pos size naming (form ∷ other ∷ []))
            self.old self.new result }
        ensures kept { KeepsNotes result self.old.notes self.new.notes }
    {
        let keeps = uses_place(place, &form) || uses_place(place, &other);
        let cut = is_cut(size, &form) as usize + is_cut(size, &other) as usize;
        self.put_form(pos, size, form)?;
        self.put_form(pos, size, other)?;
        self.end_data(pos, naming, spot, keeps, cut)
    }

    /// Puts one value whose form does not keep the place.
    #[inline(always)]
    #[tactic(auto, unfolding(crate::specs::Data::put_data, crate::specs::DataItems::put_forms, asm_operands::specs::Results::all_steps, asm_uses::specs::Places::name_here))]
    pub(crate) fn put_free(
        &mut self,
        pos: Pos,
        size: FieldSize,
        naming: Naming,
        form: Linear,
    ) -> Result<(), PlaceFault>
        requires { uses_place (known_here (placed_by self.old)).place form ≡ false }
        ensures placed { PlacesBy (put_data pos size naming (form ∷ [])) self.old self.new result }
        ensures kept { KeepsNotes result self.old.notes self.new.notes }
    {
        let cut = is_cut(size, &form) as usize;
        self.put_form(pos, size, form)?;
        self.table.allow(naming)?;
        self.warn(pos, cut)?;
        Ok(())
    }

    /// Puts two values whose forms do not keep the place.
    #[inline(always)]
    #[tactic(auto, unfolding(crate::specs::Data::put_data, crate::specs::DataItems::put_forms, asm_operands::specs::Results::all_steps, asm_uses::specs::Places::name_here))]
    pub(crate) fn put_two_free(
        &mut self,
        pos: Pos,
        size: FieldSize,
        naming: Naming,
        form: Linear,
        other: Linear,
    ) -> Result<(), PlaceFault>
        requires one { uses_place (known_here (placed_by self.old)).place form ≡ false }
        requires other { uses_place (known_here (placed_by self.old)).place other ≡ false }
        ensures placed { PlacesBy (put_data pos size naming (form ∷ other ∷ []))
            self.old self.new result }
        ensures kept { KeepsNotes result self.old.notes self.new.notes }
    {
        let cut = is_cut(size, &form) as usize + is_cut(size, &other) as usize;
        self.put_form(pos, size, form)?;
        self.put_form(pos, size, other)?;
        self.table.allow(naming)?;
        self.warn(pos, cut)?;
        Ok(())
    }

    /// Puts one sum whose form does not keep the place.
    #[inline(always)]
    fn put_plain(
        &mut self,
        pos: Pos,
        size: FieldSize,
        naming: Naming,
        plain: Plain,
    ) -> Result<(), PlaceFault>
        requires { uses_place (known_here (placed_by self.old)).place
            (plain_form (told self.old.table.symbols) plain) ≡ false }
        ensures placed { PlacesBy (put_data pos size naming
            (plain_form (told self.old.table.symbols) plain ∷ [])) self.old self.new result }
        ensures kept { KeepsNotes result self.old.notes self.new.notes }
    {
        let form = plain_form(self.alloc, self.table.symbols(), plain)?;
        self.put_free(pos, size, naming, form)
    }

    /// Puts two sums whose forms do not keep the place.
    #[inline(always)]
    fn put_plain_two(
        &mut self,
        pos: Pos,
        size: FieldSize,
        naming: Naming,
        plain: Plain,
        other: Plain,
    ) -> Result<(), PlaceFault>
        requires one { uses_place (known_here (placed_by self.old)).place
            (plain_form (told self.old.table.symbols) plain) ≡ false }
        requires other { uses_place (known_here (placed_by self.old)).place
            (plain_form (told self.old.table.symbols) other) ≡ false }
        ensures placed { PlacesBy (put_data pos size naming
            (plain_form (told self.old.table.symbols) plain
            ∷ plain_form (told self.old.table.symbols) other ∷ [])) self.old self.new result }
        ensures kept { KeepsNotes result self.old.notes self.new.notes }
    {
        let symbols = self.table.symbols();
        let one = plain_form(self.alloc, symbols, plain)?;
        let another = plain_form(self.alloc, symbols, other)?;
        self.put_two_free(pos, size, naming, one, another)
    }

    /// Puts one sum.
    #[inline(never)]
    fn put_any_one(
        &mut self,
        pos: Pos,
        size: FieldSize,
        naming: Naming,
        named: &SymbolSum,
    ) -> Result<(), PlaceFault>
        ensures placed { PlacesBy (put_data pos size naming
            (sum_form (known_here (placed_by self.old)) named.now ∷ [])) self.old self.new result }
        ensures kept { KeepsNotes result self.old.notes self.new.notes }
    {
        let view = self.view();
        let form = sum_form_in(self.alloc, view, named)?;
        let View { spot, place, .. } = view;
        self.put_one(pos, size, naming, spot, place, form)
    }

    /// Puts two sums.
    #[inline(never)]
    fn put_any_two(
        &mut self,
        pos: Pos,
        size: FieldSize,
        naming: Naming,
        one: &SymbolSum,
        another: &SymbolSum,
    ) -> Result<(), PlaceFault>
        ensures placed { PlacesBy (put_data pos size naming
            (sum_form (known_here (placed_by self.old)) one.now
            ∷ sum_form (known_here (placed_by self.old)) another.now ∷ []))
            self.old self.new result }
        ensures kept { KeepsNotes result self.old.notes self.new.notes }
    {
        let view = self.view();
        let first = sum_form_in(self.alloc, view, one)?;
        let second = sum_form_in(self.alloc, view, another)?;
        let View { spot, place, .. } = view;
        self.put_two(pos, size, naming, spot, place, first, second)
    }

    /// Puts one sum, whose names are symbols.
    #[inline(always)]
    #[tactic(auto, using(crate::proofs::PlainLemmas::plain_sum))]
    fn put_sum(
        &mut self,
        pos: Pos,
        size: FieldSize,
        naming: Naming,
        named: &SymbolSum,
    ) -> Result<(), PlaceFault>
        requires { NamesElsewhere self.old.table.symbols (known_here (placed_by self.old))
            named.now }
        ensures placed { PlacesBy (put_data pos size naming
            (sum_form (known_here (placed_by self.old)) named.now ∷ [])) self.old self.new result }
        ensures kept { KeepsNotes result self.old.notes self.new.notes }
    {
        match plain_of(self.table.symbols(), named) {
            Some(plain) => self.put_plain(pos, size, naming, plain),
            None => self.put_any_one(pos, size, naming, named),
        }
    }

    /// Puts two sums, whose names are symbols.
    #[inline(always)]
    #[tactic(auto, using(crate::proofs::PlainLemmas::plain_sum))]
    fn put_two_sums(
        &mut self,
        pos: Pos,
        size: FieldSize,
        naming: Naming,
        named: &SymbolSum,
        another: &SymbolSum,
    ) -> Result<(), PlaceFault>
        requires one { NamesElsewhere self.old.table.symbols (known_here (placed_by self.old))
            named.now }
        requires other { NamesElsewhere self.old.table.symbols (known_here (placed_by self.old))
            another.now }
        ensures placed { PlacesBy (put_data pos size naming
            (sum_form (known_here (placed_by self.old)) named.now
            ∷ sum_form (known_here (placed_by self.old)) another.now ∷ []))
            self.old self.new result }
        ensures kept { KeepsNotes result self.old.notes self.new.notes }
    {
        let symbols = self.table.symbols();
        match (plain_of(symbols, named), plain_of(symbols, another)) {
            (Some(plain), Some(other)) => self.put_plain_two(pos, size, naming, plain, other),
            _ => self.put_any_two(pos, size, naming, named, another),
        }
    }

    /// Data that is one sum.
    #[inline(always)]
    #[tactic(auto, unfolding(asm_operands::specs::Operands::each), using(crate::proofs::PlainLemmas::named_form))]
    pub(crate) fn place_one(
        &mut self,
        pos: Pos,
        size: FieldSize,
        sum: &Sum,
    ) -> Result<(), PlaceFault>
        ensures placed { PlacesBy (data_read pos size (sum_tree sum.now ∷ []))
            self.old self.new result }
        ensures kept { KeepsNotes result self.old.notes self.new.notes }
    {
        let (naming, named) = self.table.intern_one(pos, sum)?;
        self.put_sum(pos, size, naming, &named)
    }

    /// Data that is two sums.
    #[inline(always)]
    #[tactic(auto, unfolding(asm_operands::specs::Operands::each), using(crate::proofs::PlainLemmas::named_form))]
    pub(crate) fn place_two(
        &mut self,
        pos: Pos,
        size: FieldSize,
        sum: &Sum,
        other: &Sum,
    ) -> Result<(), PlaceFault>
        ensures placed { PlacesBy (data_read pos size (sum_tree sum.now ∷ sum_tree other.now ∷ []))
            self.old self.new result }
        ensures kept { KeepsNotes result self.old.notes self.new.notes }
    {
        let (naming, one, another) = self.table.intern_two(pos, sum, other)?;
        self.put_two_sums(pos, size, naming, &one, &another)
    }
}
