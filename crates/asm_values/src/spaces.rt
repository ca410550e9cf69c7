//! Space (GNU as manual, ".zero", ".skip", ".space", ".fill"), and the alignments of space for symbols.

use crate::assemblers::Assembler;
use crate::operand_constants::constant_operands;
use asm_base::{Pos, Token};
use asm_operands::{Operands, PlaceFault};
use asm_uses::Naming;
use asm_words::{space_of, unit_size, units_of};
use item_contents::Content;

impl Assembler {
    ghost use Rattle.std.specs.Prelude.{◌≡◌, ◌≤◌, ◌%◌, ◌^◌, map, replicate};
    ghost use Rattle.asm_base.specs.Tokens.{spelled};
    ghost use Rattle.asm_expr.specs.Trees.{tree_of};
    ghost use Rattle.asm_base.specs.Refusals.{Gives};
    ghost use Rattle.asm_values.specs.ConstantOperands.{put_units_of};
    ghost use Rattle.asm_values.specs.State.{put_bytes};
    ghost use Rattle.asm_values.specs.Data.{put_space, with_named, place_zero, place_skip, place_fill};
    ghost use Rattle.asm_values.specs.PlacedBy.{placed_by, PlacesBy};

    /// Puts an item, and then allows or refuses the names of its operands.
    pub fn push_named(&mut self, pos: Pos, naming: Naming, item: Content) -> Result<(), PlaceFault>
        ensures placed { PlacesBy (λ placed. with_named pos naming item placed)
            self.old self.new result }
        ensures kept { self.new.notes ≡ self.old.notes }
    {
        self.push_item(pos, item)?;
        self.table.allow(naming)
    }

    /// At most 16 bytes of a value, as plain bytes: an item would cost more than they do.
    fn put_few(&mut self, pos: Pos, count: usize, value: u8) -> Result<(), PlaceFault>
        requires { count ≤ 16 }
        ensures placed { PlacesBy (put_bytes pos (replicate count value))
            self.old self.new result }
        ensures kept { self.new.notes ≡ self.old.notes }
    {
        let bytes = [value; 16];
        self.put_bytes(pos, &bytes[..count])
    }

    /// So many bytes of a value.
    fn put_space(&mut self, pos: Pos, count: u64, value: u64) -> Result<(), PlaceFault>
        ensures placed { PlacesBy (put_space pos count value) self.old self.new result }
        ensures kept { self.new.notes ≡ self.old.notes }
    {
        if count <= 16 {
            return self.put_few(pos, count as usize, (value % 256) as u8);
        }
        let item = space_of(count, value)?;
        self.push_item(pos, item)
    }

    /// So many units, whose operands name nothing.
    fn put_units_of(
        &mut self,
        pos: Pos,
        count: u64,
        size: Option<u64>,
        value: u64,
    ) -> Result<(), PlaceFault>
        ensures placed { PlacesBy (put_units_of pos count size value) self.old self.new result }
        ensures kept { self.new.notes ≡ self.old.notes }
    {
        let size = unit_size(size)?;
        let item = units_of(count, size, value)?;
        self.push_item(pos, item)
    }

    /// `.zero` of any operands.
    #[inline(never)]
    #[tactic(auto, unfolding(crate::specs::Data::place_zero))]
    fn place_any_zero(&mut self, pos: Pos, tokens: &[Token]) -> Result<(), PlaceFault>
        ensures placed { PlacesBy (place_zero pos (map spelled tokens.now))
            self.old self.new result }
        ensures kept { self.new.notes ≡ self.old.notes }
    {
        let given = self.known_operands(pos, 1, &mut Operands::new(tokens))?;
        self.put_space(pos, given.values.first, 0)?;
        self.table.allow(given.naming)
    }

    /// `.skip`, `.space` of any operands.
    #[inline(never)]
    #[tactic(auto, unfolding(crate::specs::Data::place_skip))]
    fn place_any_skip(&mut self, pos: Pos, tokens: &[Token]) -> Result<(), PlaceFault>
        ensures placed { PlacesBy (place_skip pos (map spelled tokens.now))
            self.old self.new result }
        ensures kept { self.new.notes ≡ self.old.notes }
    {
        let given = self.known_operands(pos, 2, &mut Operands::new(tokens))?;
        let value = given.values.second.unwrap_or(0);
        self.put_space(pos, given.values.first, value)?;
        self.table.allow(given.naming)
    }

    /// `.fill` of any operands.
    #[inline(never)]
    #[tactic(auto, unfolding(crate::specs::Data::place_fill))]
    fn place_any_fill(&mut self, pos: Pos, tokens: &[Token]) -> Result<(), PlaceFault>
        ensures placed { PlacesBy (place_fill pos (map spelled tokens.now))
            self.old self.new result }
        ensures kept { self.new.notes ≡ self.old.notes }
    {
        let given = self.known_operands(pos, 3, &mut Operands::new(tokens))?;
        let size = unit_size(given.values.second)?;
        let item = units_of(given.values.first, size, given.values.third.unwrap_or(0))?;
        self.push_named(pos, given.naming, item)
    }

    /// `.zero`: so many zeros; at once where all operands are numbers.
    pub fn place_zero(&mut self, pos: Pos, tokens: &[Token]) -> Result<(), PlaceFault>
        ensures placed { PlacesBy (place_zero pos (map spelled tokens.now))
            self.old self.new result }
        ensures kept { self.new.notes ≡ self.old.notes }
    {
        match constant_operands(1, Operands::new(tokens)) {
            Some(values) => self.put_space(pos, values.first, 0),
            None => self.place_any_zero(pos, tokens),
        }
    }

    /// `.skip`, `.space`: so many bytes of a value; at once where all operands are numbers.
    pub fn place_skip(&mut self, pos: Pos, tokens: &[Token]) -> Result<(), PlaceFault>
        ensures placed { PlacesBy (place_skip pos (map spelled tokens.now))
            self.old self.new result }
        ensures kept { self.new.notes ≡ self.old.notes }
    {
        match constant_operands(2, Operands::new(tokens)) {
            Some(values) => self.put_space(pos, values.first, values.second.unwrap_or(0)),
            None => self.place_any_skip(pos, tokens),
        }
    }

    /// `.fill`: so many units of a value; at once where all operands are numbers.
    pub fn place_fill(&mut self, pos: Pos, tokens: &[Token]) -> Result<(), PlaceFault>
        ensures placed { PlacesBy (place_fill pos (map spelled tokens.now))
            self.old self.new result }
        ensures kept { self.new.notes ≡ self.old.notes }
    {
        match constant_operands(3, Operands::new(tokens)) {
            Some(values) => {
                let value = values.third.unwrap_or(0);
                self.put_units_of(pos, values.first, values.second, value)
            }
            None => self.place_any_fill(pos, tokens),
        }
    }
}
