//! Data: the bytes of known values, and fields for the others (GNU as manual, ".byte", ".short", ".long", ".quad").

ghost use Rattle.std.specs.Prelude.{◌≡◌};
ghost use Rattle.std.specs.List.{count_by};
ghost use Rattle.asm_values.specs.DataItems.{is_cut};

use crate::assemblers::Assembler;
use crate::constant_data::{constant_data, lone_number};
use asm_base::{Pos, Token};
use asm_expr::Linear;
use asm_frags::{FieldRole, FieldSize};
use asm_operands::{FewSums, Operands, PlaceFault, expressions, few_sums, is_name};
use asm_uses::{Naming, View, forms, one_uses_place};

/// Whether the value of a form is known and does not fit.
pub(crate) fn is_cut(size: FieldSize, form: &Linear) -> bool
    ensures { result ≡ is_cut size form.now }
{
    form.terms().is_empty() && !size.fits(form.constant())
}

/// How many values are known and do not fit.
fn count_cut(size: FieldSize, forms: &[Linear]) -> usize
    ensures { result ≡ count_by (is_cut size) forms.now }
{
    forms.iter().filter(|form| is_cut(size, form)).count()
}

impl Assembler {
    ghost use Rattle.std.specs.Prelude.{◌≡◌, map};
    ghost use Rattle.asm_base.specs.Tokens.{spelled};
    ghost use Rattle.asm_base.specs.Refusals.{Gives};
    ghost use Rattle.asm_values.specs.Answers.{KeepsNotes};
    ghost use Rattle.asm_values.specs.DataItems.{put_form, put_forms};
    ghost use Rattle.asm_values.specs.Data.{put_data, place_data};
    ghost use Rattle.asm_values.specs.PlacedBy.{placed_by, PlacesBy};

    /// Puts a form: the bytes of a value that is known, or a field.
    pub(crate) fn put_form(
        &mut self,
        pos: Pos,
        size: FieldSize,
        form: Linear,
    ) -> Result<(), PlaceFault>
        ensures placed { PlacesBy (put_form pos size form) self.old self.new result }
        ensures kept { self.new.notes ≡ self.old.notes }
    {
        if form.terms().is_empty() {
            self.put_constant(pos, size, form.constant())
        } else {
            self.put_field(pos, size, FieldRole::data(), form)
        }
    }

    /// Puts one form after the other.
    #[tactic(auto, unfolding(crate::specs::DataItems::put_forms, asm_operands::specs::Results::all_steps))]
    fn put_forms(&mut self, pos: Pos, size: FieldSize, forms: Vec<Linear>) -> Result<(), PlaceFault>
        ensures placed { PlacesBy (put_forms pos size forms.items) self.old self.new result }
        ensures kept { self.new.notes ≡ self.old.notes }
    {
        for form in forms {
            self.put_form(pos, size, form)?;
        }
        Ok(())
    }

    /// All values, of which those that are not known are fields.
    #[tactic(auto, unfolding(crate::specs::Data::put_data))]
    fn put_data(
        &mut self,
        pos: Pos,
        size: FieldSize,
        naming: Naming,
        forms: Vec<Linear>,
    ) -> Result<(), PlaceFault>
        ensures placed { PlacesBy (put_data pos size naming forms.items)
            self.old self.new result }
        ensures kept { KeepsNotes result self.old.notes self.new.notes }
    {
        let View { spot, place, .. } = self.view();
        let keeps = one_uses_place(place, &forms);
        let cut = count_cut(size, &forms);
        self.put_forms(pos, size, forms)?;
        self.table.end_naming(pos, naming, spot, keeps)?;
        self.warn(pos, cut)?;
        Ok(())
    }

    /// Data of any operands: all are read before a form is made.
    #[inline(never)]
    #[tactic(auto, unfolding(crate::specs::Data::place_data))]
    pub(crate) fn place_any_data(
        &mut self,
        pos: Pos,
        size: FieldSize,
        tokens: &[Token],
    ) -> Result<(), PlaceFault>
        ensures placed { PlacesBy (place_data pos size (map spelled tokens.now))
            self.old self.new result }
        ensures kept { KeepsNotes result self.old.notes self.new.notes }
    {
        let exprs = expressions(self.alloc, Operands::new(tokens))?;
        let naming = self.table.intern_trees(pos, &exprs)?;
        let forms = forms(self.alloc, self.view(), &exprs)?;
        self.put_data(pos, size, naming, forms)
    }

    /// Data of any operands: without trees where these are one or two sums.
    #[inline(never)]
    #[tactic(auto, unfolding(crate::specs::Data::place_data))]
    fn place_named(&mut self, pos: Pos, size: FieldSize, tokens: &[Token]) -> Result<(), PlaceFault>
        ensures placed { PlacesBy (place_data pos size (map spelled tokens.now))
            self.old self.new result }
        ensures kept { KeepsNotes result self.old.notes self.new.notes }
    {
        match few_sums(tokens) {
            Some(FewSums::One(sum)) => self.place_one(pos, size, &sum),
            Some(FewSums::Two(sum, other)) => self.place_two(pos, size, &sum, &other),
            None => self.place_sums(pos, size, tokens),
        }
    }

    /// Data of any operands: at once where all are numbers.
    fn place_numbers(
        &mut self,
        pos: Pos,
        size: FieldSize,
        tokens: &[Token],
    ) -> Result<(), PlaceFault>
        ensures placed { PlacesBy (place_data pos size (map spelled tokens.now))
            self.old self.new result }
        ensures kept { KeepsNotes result self.old.notes self.new.notes }
    {
        match constant_data(&mut self.scratch, size, tokens)? {
            Some(cut) => self.put_constants(pos, cut),
            None => self.place_named(pos, size, tokens),
        }
    }

    /// Data of any operands: one number is put first of all.
    fn place_values(
        &mut self,
        pos: Pos,
        size: FieldSize,
        tokens: &[Token],
    ) -> Result<(), PlaceFault>
        ensures placed { PlacesBy (place_data pos size (map spelled tokens.now))
            self.old self.new result }
        ensures kept { KeepsNotes result self.old.notes self.new.notes }
    {
        match lone_number(tokens) {
            Some(value) => self.put_lone(pos, size, value),
            None => self.place_numbers(pos, size, tokens),
        }
    }

    /// `.byte` and the others: where a name stands in front, the operands are no numbers.
    #[inline(always)]
    pub fn place_data(
        &mut self,
        pos: Pos,
        size: FieldSize,
        tokens: &[Token],
    ) -> Result<(), PlaceFault>
        ensures placed { PlacesBy (place_data pos size (map spelled tokens.now))
            self.old self.new result }
        ensures kept { KeepsNotes result self.old.notes self.new.notes }
    {
        match tokens.first() {
            Some(token) if is_name(token) => self.place_named(pos, size, tokens),
            _ => self.place_values(pos, size, tokens),
        }
    }
}
