//! What the statements so far have placed, and the steps of all: bytes, a field, an item or a
//! warning more.

ghost use Rattle.std.specs.Prelude.{◌≡◌, ◌++◌, OnOk};
ghost use Rattle.asm_uses.specs.KnownIn.{known_in};
ghost use Rattle.asm_uses.specs.Places.{spot_at, known_at};
ghost use Rattle.asm_values.specs.DataItems.{cut_notes};

use crate::stacks::Entered;
use asm_base::{Note, Noted, Notes, Pos};
use asm_expr::Linear;
use asm_frags::{FieldRole, FieldSize, Frag, FragFault, Sections};
use asm_operands::{PlaceCause, PlaceFault};
use asm_symbols::Spot;
use asm_uses::{SymbolUses, View, here_name, spot_at};
use asm_words::Syntax;
use cfi_directives::Directives;
use item_contents::{Content, Growth};
use line_directives::Lines;
use std::alloc::{AllocError, Global};
use x86_insn::Suffix;

/// What is placed so far.
#[derive(Drop)]
pub struct Assembler {
    pub alloc: Global,
    pub sections: Sections,
    pub table: SymbolUses,
    /// The section that statements put into, and the one before it.
    pub current: u32,
    pub previous: u32,
    /// What `.popsection` comes back to, the last at the end.
    pub stack: Vec<Entered>,
    /// The syntax of instructions from here on.
    pub syntax: Syntax,
    /// The procedures that `.cfi_` directives have made.
    pub procedures: Directives,
    /// The line table of the `.file` and `.loc` directives.
    pub lines: Lines,
    /// No warning is to be made.
    pub no_warn: bool,
    /// The warnings so far.
    pub notes: Notes,
    /// The bytes of a statement, which are put at once. The room is used again.
    pub scratch: Vec<u8>,
}

/// The parts of what is placed.
#[derive(Drop)]
pub struct Placed {
    pub sections: Sections,
    pub table: SymbolUses,
    pub procedures: Directives,
    pub lines: Lines,
    pub notes: Notes,
}

/// Adds the note of a value that is cut so many times.
#[tactic(auto, using(std::proofs::lemmas::List::replicate_more))]
fn add_notes(notes: &mut Notes, pos: Pos, times: usize) -> Result<(), AllocError>
    ensures { OnOk result (notes.new ≡ notes.old ++ cut_notes pos times) }
{
    for i in 0..times {
        notes.add(Noted {
            note: Note::ValueTruncated,
            pos,
        })?;
    }
    Ok(())
}

/// What is known of symbols and names behind what the section of this number has.
#[inline(always)]
pub(crate) fn view_of<'a>(table: &'a SymbolUses, sections: &Sections, current: u32) -> View<'a>
    ensures symbols { result.symbols.now ≡ table.now.symbols }
    ensures known { known_in result ≡ known_at table.now.symbols (spot_at sections.now current) }
    ensures spot { result.spot ≡ spot_at sections.now current }
{
    let symbols = table.symbols();
    let spot = spot_at(sections, current);
    View {
        symbols,
        spot,
        place: symbols.number_of(&here_name(spot)).index(),
    }
}

impl Assembler {
    ghost use Rattle.std.specs.Prelude.{◌≡◌, IfOk, IfErr, OnOk};
    ghost use Rattle.asm_base.specs.declared.refusals.Refusal.TheVariants.{NoMemory};
    ghost use Rattle.asm_base.specs.Refusals.{Gives};
    ghost use Rattle.asm_values.specs.DataItems.{cut_notes};
    ghost use Rattle.asm_values.specs.State.{nothing_placed, unless_dot, with_notes, here, known_here, put_bytes_into, put_bytes, put_field, push_into, push_item, put_growing};
    ghost use Rattle.asm_uses.specs.KnownIn.{known_in};
    ghost use Rattle.asm_values.specs.PlacedBy.{placed_by, PlacesBy};

    /// Nothing is placed yet.
    pub fn new(alloc: Global, no_warn: bool) -> Result<Assembler, FragFault>
        ensures ok { IfOk result (λ assembler. placed_by assembler ≡ nothing_placed no_warn) }
        ensures memory { IfErr result (λ fault. fault ≡ NoMemory) }
    {
        Ok(Assembler {
            alloc,
            sections: Sections::new(alloc)?,
            table: SymbolUses::new(alloc),
            current: 0,
            previous: 0,
            stack: Vec::new(alloc),
            syntax: Syntax::Att,
            procedures: Directives::new(alloc),
            lines: Lines::new(alloc),
            no_warn,
            notes: Notes::new(alloc),
            scratch: Vec::new(alloc),
        })
    }

    /// The sections, the symbols, the procedures, the lines and the notes.
    pub fn into_parts(self) -> Placed
        ensures sections { result.sections ≡ self.sections }
        ensures table { result.table ≡ self.table }
        ensures procedures { result.procedures ≡ self.procedures }
        ensures lines { result.lines ≡ self.lines }
        ensures notes { result.notes ≡ self.notes }
    {
        let Assembler {
            sections,
            table,
            procedures,
            lines,
            notes,
            ..
        } = self;
        Placed {
            sections,
            table,
            procedures,
            lines,
            notes,
        }
    }

    /// Where what is put into the current section next goes.
    pub fn here(&self) -> Spot
        ensures { result ≡ here (placed_by self.now) }
    {
        spot_at(&self.sections, self.current)
    }

    /// What is known of symbols and names there.
    pub fn view(&self) -> View<'_>
        ensures symbols { result.symbols.now ≡ self.now.table.symbols }
        ensures known { known_in result ≡ known_here (placed_by self.now) }
        ensures spot { result.spot ≡ here (placed_by self.now) }
    {
        view_of(&self.table, &self.sections, self.current)
    }

    /// Refuses a statement that names a symbol by `.`.
    pub fn unless_dot(&self, dot: bool) -> Result<(), PlaceFault>
        ensures { PlacesBy (unless_dot dot) self.now self.now result }
    {
        if dot {
            Err(PlaceFault::Fault(PlaceCause::BadSymbolUse))
        } else {
            Ok(())
        }
    }

    /// Puts the bytes of the statement last in the section of this number. `BadSection` comes where
    /// there is none too.
    #[tactic(auto, unfolding(crate::specs::State::put_bytes_into))]
    pub fn put_scratch_into(&mut self, pos: Pos, number: u32) -> Result<(), PlaceFault>
        ensures placed { PlacesBy (put_bytes_into pos number self.old.scratch.items)
            self.old self.new result }
        ensures kept { self.new.notes ≡ self.old.notes }
    {
        if (number as usize) < self.sections.len() {
            self.sections
                .push_bytes(number, pos, self.scratch.as_slice())
                .map_err(FragFault::raise)
        } else {
            Err(PlaceFault::Fault(PlaceCause::BadSection))
        }
    }

    /// Puts these bytes last in the current section. `BadSection` comes where there is no section too.
    #[tactic(auto, unfolding(crate::specs::State::put_bytes_into))]
    pub fn put_bytes(&mut self, pos: Pos, bytes: &[u8]) -> Result<(), PlaceFault>
        ensures placed { PlacesBy (put_bytes pos bytes.now) self.old self.new result }
        ensures kept { self.new.notes ≡ self.old.notes }
    {
        if (self.current as usize) < self.sections.len() {
            self.sections
                .push_bytes(self.current, pos, bytes)
                .map_err(FragFault::raise)
        } else {
            Err(PlaceFault::Fault(PlaceCause::BadSection))
        }
    }

    /// Puts the bytes of the statement last in the current section.
    pub fn put_scratch(&mut self, pos: Pos) -> Result<(), PlaceFault>
        ensures placed { PlacesBy (put_bytes pos self.old.scratch.items) self.old self.new result }
        ensures kept { self.new.notes ≡ self.old.notes }
    {
        self.put_scratch_into(pos, self.current)
    }

    /// Puts a field last in the current section. `BadSection` comes where there is no section too.
    #[tactic(auto, unfolding(crate::specs::State::put_field_into))]
    pub fn put_field(
        &mut self,
        pos: Pos,
        size: FieldSize,
        role: FieldRole,
        form: Linear,
    ) -> Result<(), PlaceFault>
        ensures placed { PlacesBy (put_field pos size role form) self.old self.new result }
        ensures kept { self.new.notes ≡ self.old.notes }
    {
        if (self.current as usize) < self.sections.len() {
            self.sections
                .push_field(self.current, pos, size, role, form)
                .map_err(FragFault::raise)
        } else {
            Err(PlaceFault::Fault(PlaceCause::BadSection))
        }
    }

    /// Puts an item last in the section of this number. `BadSection` comes where there is none too.
    #[tactic(auto, unfolding(crate::specs::State::push_into))]
    pub fn push_into(&mut self, pos: Pos, number: u32, content: Content) -> Result<(), PlaceFault>
        ensures placed { PlacesBy (push_into pos number content) self.old self.new result }
        ensures kept { self.new.notes ≡ self.old.notes }
        ensures table { self.new.table ≡ self.old.table }
    {
        if (number as usize) < self.sections.len() {
            self.sections
                .push(number, Frag::new(pos, content))
                .map_err(FragFault::raise)
        } else {
            Err(PlaceFault::Fault(PlaceCause::BadSection))
        }
    }

    /// Puts an item last in the current section.
    pub fn push_item(&mut self, pos: Pos, content: Content) -> Result<(), PlaceFault>
        ensures placed { PlacesBy (push_item pos content) self.old self.new result }
        ensures kept { self.new.notes ≡ self.old.notes }
    {
        self.push_into(pos, self.current, content)
    }

    /// Puts an item last in the current section that grows with the value of this form. That of a jump
    /// counts from its end, and is less the symbol `own_place`; it alone may have a suffix.
    /// `BadSection` comes where there is no section too.
    #[tactic(auto, unfolding(crate::specs::State::put_growing_into))]
    pub fn push_growing(
        &mut self,
        pos: Pos,
        kind: Growth,
        suffix: Option<Suffix>,
        form: Linear,
    ) -> Result<(), PlaceFault>
        ensures placed { PlacesBy (put_growing pos kind suffix form) self.old self.new result }
        ensures kept { self.new.notes ≡ self.old.notes }
    {
        if (self.current as usize) < self.sections.len() {
            self.sections
                .push_growing(self.current, pos, kind, suffix, form)
                .map_err(FragFault::raise)
        } else {
            Err(PlaceFault::Fault(PlaceCause::BadSection))
        }
    }

    /// Notes that a value is cut, so many times, unless no warning is to be made.
    pub(crate) fn warn(&mut self, pos: Pos, times: usize) -> Result<(), AllocError>
        ensures { OnOk result
            (placed_by self.new ≡ with_notes (cut_notes pos times) (placed_by self.old)) }
    {
        if self.no_warn {
            return Ok(());
        }
        add_notes(&mut self.notes, pos, times)
    }
}
