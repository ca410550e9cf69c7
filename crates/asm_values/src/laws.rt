//! What holds of the symbols that a statement names, and of the forms of sums.

ghost use Rattle.std.specs.Prelude.{◌≡◌, ℕ, ◌%◌, ◌^◌, List, Some, Ok, replicate};
ghost use Rattle.item_contents.specs.Contents.{fill_bytes};
ghost use Rattle.asm_uses.specs.Tables.{Table, allowed};
ghost use Rattle.asm_values.specs.ConstantOperands.{no_naming};
ghost use Rattle.asm_expr.specs.declared.naming.Name.TheVariants.{Plain};
ghost use Rattle.asm_symbols.specs.declared.entries.Spot.{Spot};
ghost use Rattle.asm_symbols.specs.SymbolMap.{SymbolMap, names, index_of};
ghost use Rattle.asm_uses.specs.Places.{known_at};
ghost use Rattle.asm_uses.specs.PlainSums.{IsElsewhere};
ghost use Rattle.asm_operands.specs.declared.sums.Sum.{Sum as TheSum};
ghost use Rattle.asm_operands.specs.Sums.{sum_tree};
ghost use Rattle.asm_operands.specs.Expressions.{form_in};
ghost use Rattle.asm_uses.specs.declared.places.View.{View as TheView};
ghost use Rattle.asm_uses.specs.declared.sums.SymbolSum.{SymbolSum as TheSymbolSum};
ghost use Rattle.asm_uses.specs.KnownIn.{known_in};
ghost use Rattle.asm_uses.specs.SumForms.{sum_form};
ghost use Rattle.asm_uses.specs.SymbolSums.{IsNamed};

/// A symbol that has a text as its name is not the place of the statement.
#[tactic(auto, using(crate::proofs::PlainLemmas::text_elsewhere))]
pub fn texts_are_no_place()
    ensures { (map : SymbolMap) (spot : Spot) (text : List ℕ) (index : ℕ)
        → index_of (Plain text) (names map.symbols) ≡ Some index
        → IsElsewhere map (known_at map spot) index }
{}

/// Where an operand names nothing no symbol came that could be refused.
#[tactic(auto, using(crate::proofs::NameLemmas::none_allowed))]
pub fn no_name_is_allowed()
    ensures { (table : Table) → allowed (no_naming table) table ≡ Ok table }
{}

/// Few bytes of a value, which stand beside the plain bytes of a section, are those of a fill.
#[tactic(auto, using(crate::proofs::FewBytes::few_filled))]
pub fn few_bytes_are_a_fill()
    ensures { (count value : ℕ)
        → fill_bytes (record { count = count; size = 1; value = value })
        ≡ replicate count (value % 2 ^ 8) }
{}

/// The form of a sum, at the place of a statement, is that of its tree.
#[tactic(auto, using(crate::proofs::SumLemmas::linear_sum))]
pub fn sums_have_the_forms_of_trees()
    ensures { (view : TheView) (sum : TheSum) (named : TheSymbolSum)
        → IsNamed view.symbols.now sum named
        → form_in (known_in view) (sum_tree sum) ≡ Ok (sum_form (known_in view) named) }
{}
