//! Placing statements, and following what they do to functions where that is asked for.

ghost use Rattle.std.specs.Prelude.{◌≡◌, false, map, drop, codes, Some};
ghost use Rattle.asm_base.specs.Refusals.{Gives};
ghost use Rattle.asm_base.specs.Tokens.{spelled};
ghost use Rattle.asm_operands.specs.Operands.{begins_with_label};
ghost use Rattle.asm_place.specs.Instructions.{behind_labels};
ghost use Rattle.asm_place.specs.Sources.{place};
ghost use Rattle.asm_functions.specs.FollowedSource.{at};
ghost use Rattle.asm_functions.specs.Following.{has_operands};
ghost use Rattle.asm_functions.specs.Following as spec;
ghost use Rattle.asm_functions.specs.Refusals.{IsSplitFault};

use crate::functions::{
    add_alignment, add_data, add_insn, begin_functions, end_by_kind, end_by_size, end_of,
    field_count, is_code,
};
use crate::remarks::{Ignored, remarked};
use crate::seen_functions::SeenFunctions;
use asm_base::{Fault, NoMemory, Notes, Place, Pos, Refusal, StatementFault, Token};
use asm_lines::Placer;
use asm_place::{
    Body, BoxedFault, FaultAt, StatementPlacer, body_of, labels_length, statements_split,
};
use asm_words::{AlignedBy, Directive};
use std::alloc::{AllocError, Global};
use std::marker::Model;
use std::mem;

/// What the statements so far have placed, and the functions where these are asked for.
#[derive(Drop)]
pub struct FollowingPlacer {
    pub statements: StatementPlacer,
    pub functions: SeenFunctions,
    /// The first directive of a frame table, which was ignored.
    pub ignored: Option<Ignored>,
    /// The functions are asked for.
    pub asked: bool,
}

impl Model for FollowingPlacer {
    ghost use Rattle.asm_functions.specs.FollowedSource.{FollowedSource};

    ghost Value = { FollowedSource };

    ghost view = { λ placer. record {
      placed = placer.statements;
      functions = placer.functions;
      ignored = placer.ignored;
      asked = placer.asked;
    } };
}

/// The number of the section that statements put into.
fn current(statements: &StatementPlacer) -> u32
    ensures { result ≡ statements.now.current }
{
    statements.assembler.current
}

/// Where the section of this number ends.
fn end_in(statements: &StatementPlacer, number: u32) -> Place
    ensures { result ≡ spec.end_of statements.now.sections number }
{
    end_of(&statements.assembler.sections, number)
}

/// How many fields it has.
fn fields_in(statements: &StatementPlacer, number: u32) -> usize
    ensures { result ≡ spec.fields_in statements.now.sections number }
{
    field_count(&statements.assembler.sections, number)
}

/// The fault that an instruction splits a function, which takes the notes along.
#[inline(never)]
fn split_fault(statements: &mut StatementPlacer, pos: Pos) -> Refusal<BoxedFault>
    ensures { IsSplitFault pos statements.old.notes result }
{
    let alloc = statements.assembler.alloc;
    let notes = mem::replace(&mut statements.assembler.notes, Notes::new(alloc));
    let fault = Fault::Statement(StatementFault::FunctionSplit);
    match BoxedFault::new(alloc, FaultAt { fault, pos, notes }) {
        Ok(boxed) => Refusal::Fault(boxed),
        Err(_) => Refusal::NoMemory,
    }
}

/// The operands of a directive without labels.
fn operands<'a, 'b>(tokens: &'a [Token<'b>]) -> &'a [Token<'b>]
    ensures { map spelled result.now ≡ drop 1 (map spelled tokens.now) }
{
    match tokens {
        [_, rest @ ..] => rest,
        [] => &[],
    }
}

/// No label stands behind the labels in front.
#[inline(always)]
fn no_label_behind(tokens: &[Token])
    ensures { begins_with_label (behind_labels (map spelled tokens.now)) ≡ false }
{
    statements_split();
}

/// Whether a directive without labels has operands.
fn has_operands(tokens: &[Token]) -> bool
    ensures { result ≡ has_operands (drop 1 (map spelled tokens.now)) }
{
    tokens.len() > 1
}

/// A statement, in whatever way it is followed.
#[inline(never)]
fn placed(
    statements: &mut StatementPlacer,
    pos: Pos,
    tokens: &[Token],
) -> Result<(), Refusal<BoxedFault>>
    ensures { Gives statements.new result (place (at pos (map spelled tokens.now)) statements.old) }
{
    statements.place(pos, tokens)
}

impl FollowingPlacer {
    ghost use Rattle.std.specs.Prelude.{◌≡◌, IfOk};
    ghost use Rattle.asm_words.specs.declared.directives.Directive.TheVariants.{Align};
    ghost use Rattle.asm_place.specs.Bodies as bodies;
    ghost use Rattle.asm_place.specs.declared.bodies.Body.TheVariants.{Directed, Instruction};
    ghost use Rattle.asm_frags.specs.SectionOf.{section_number};
    ghost use Rattle.asm_operands.specs.Operands.{name_of, needed, operands_of};
    ghost use Rattle.asm_words.specs.SymbolKinds.{named_kind};
    ghost use Rattle.asm_place.specs.Effects.{fill_said};
    ghost use Rattle.asm_functions.specs.Following.{labels_begun, with_data, with_moved, with_kind, with_size, with_align};
    ghost use Rattle.asm_functions.specs.FollowedSource as state;
    ghost use Rattle.asm_functions.specs.FollowedSource.{at, stepped};

    /// Nothing is placed yet.
    pub fn new(alloc: Global, no_warn: bool, asked: bool) -> Result<FollowingPlacer, NoMemory>
        ensures { IfOk result (λ placer. placer ≡ state.nothing_followed no_warn asked) }
    {
        match StatementPlacer::new(alloc, no_warn) {
            Ok(statements) => Ok(FollowingPlacer {
                statements,
                functions: SeenFunctions::new(alloc),
                ignored: None,
                asked,
            }),
            Err(_) => Err(AllocError),
        }
    }

    /// A statement that does nothing to functions.
    fn follow_other(&mut self, pos: Pos, tokens: &[Token]) -> Result<(), Refusal<BoxedFault>>
        ensures { Gives self.new result (stepped (at pos (map spelled tokens.now))
            (λ there after functions. functions) self.old) }
    {
        placed(&mut self.statements, pos, tokens)
    }

    /// Data that the section of this number gets.
    fn follow_data(
        &mut self,
        pos: Pos,
        tokens: &[Token],
        number: u32,
        operands: bool,
    ) -> Result<(), Refusal<BoxedFault>>
        ensures { Gives self.new result (stepped (at pos (map spelled tokens.now))
            (λ there after. with_data operands pos number there after) self.old) }
    {
        let start = end_of(&self.statements.assembler.sections, number);
        placed(&mut self.statements, pos, tokens)?;
        let assembler = &self.statements.assembler;
        add_data(assembler, &mut self.functions, pos, number, start, operands)?;
        Ok(())
    }

    /// Data that the current section gets.
    fn follow_operands(&mut self, pos: Pos, tokens: &[Token]) -> Result<(), Refusal<BoxedFault>>
        ensures { Gives self.new result (stepped (at pos (map spelled tokens.now))
            (λ there after. with_data (has_operands (drop 1 (map spelled tokens.now))) pos
            there.current there after) self.old) }
    {
        let number = self.statements.assembler.current;
        self.follow_data(pos, tokens, number, has_operands(tokens))
    }

    /// `.ident`, which puts its text into `.comment`. No function is in that before it is there.
    fn follow_ident(&mut self, pos: Pos, tokens: &[Token]) -> Result<(), Refusal<BoxedFault>>
        ensures { Gives self.new result (stepped (at pos (map spelled tokens.now))
            (λ there after. with_moved pos (section_number (codes ".comment") there.sections)
            there after) self.old) }
    {
        match self.statements.assembler.sections.find(b".comment") {
            Some(number) => self.follow_data(pos, tokens, number, false),
            None => self.follow_other(pos, tokens),
        }
    }

    /// An alignment.
    fn follow_align(
        &mut self,
        pos: Pos,
        tokens: &[Token],
        by: AlignedBy,
    ) -> Result<(), Refusal<BoxedFault>>
        requires bare { begins_with_label (map spelled tokens.now) ≡ false }
        requires aligns { bodies.body_of (map spelled tokens.now) ≡ Directed (Some (Align by)) }
        ensures { Gives self.new result (stepped (at pos (map spelled tokens.now))
            (λ there after. with_align (fill_said pos (drop 1 (map spelled tokens.now)) there)
            pos there) self.old) }
    {
        let assembler = &self.statements.assembler;
        let number = assembler.current;
        let start = end_of(&assembler.sections, number);
        let code = is_code(&assembler.sections, number);
        let fill = self.statements.place_alignment(pos, by, tokens)?;
        add_alignment(&mut self.functions, pos, number, start, code, fill)?;
        Ok(())
    }

    /// `.type`
    fn follow_type(&mut self, pos: Pos, tokens: &[Token]) -> Result<(), Refusal<BoxedFault>>
        ensures { Gives self.new result (stepped (at pos (map spelled tokens.now))
            (λ there after. with_kind (named_kind (operands_of (drop 1 (map spelled tokens.now))))
            after) self.old) }
    {
        placed(&mut self.statements, pos, tokens)?;
        let assembler = &self.statements.assembler;
        end_by_kind(assembler, &mut self.functions, operands(tokens))?;
        Ok(())
    }

    /// `.size`
    fn follow_size(&mut self, pos: Pos, tokens: &[Token]) -> Result<(), Refusal<BoxedFault>>
        ensures { Gives self.new result (stepped (at pos (map spelled tokens.now))
            (λ there after. with_size
            (needed name_of (operands_of (drop 1 (map spelled tokens.now)))) after) self.old) }
    {
        placed(&mut self.statements, pos, tokens)?;
        let assembler = &self.statements.assembler;
        end_by_size(assembler, &mut self.functions, operands(tokens))?;
        Ok(())
    }

    /// A directive of a frame table, which is ignored.
    fn ignore(&mut self, pos: Pos)
        ensures { self.new ≡ state.ignored_by pos self.old }
    {
        if self.ignored.is_none() {
            let before = self.statements.assembler.notes.as_slice().len();
            self.ignored = Some(Ignored { pos, before });
        }
    }

    /// A directive without labels.
    #[tactic(auto, unfolding(crate::specs::Following::follow_directive))]
    fn follow_directive(
        &mut self,
        pos: Pos,
        tokens: &[Token],
        directive: Directive,
    ) -> Result<(), Refusal<BoxedFault>>
        requires bare { begins_with_label (map spelled tokens.now) ≡ false }
        requires named { bodies.body_of (map spelled tokens.now) ≡ Directed (Some directive) }
        ensures { Gives self.new result (state.directive_followed directive
            (at pos (map spelled tokens.now)) self.old) }
    {
        match directive {
            Directive::Data(_) => self.follow_operands(pos, tokens),
            Directive::Strings { .. } => self.follow_operands(pos, tokens),
            Directive::Leb128 { .. } => self.follow_operands(pos, tokens),
            Directive::Zero => self.follow_operands(pos, tokens),
            Directive::Skip => self.follow_operands(pos, tokens),
            Directive::Fill => self.follow_operands(pos, tokens),
            Directive::Org => self.follow_operands(pos, tokens),
            Directive::Align(by) => self.follow_align(pos, tokens, by),
            Directive::Type => self.follow_type(pos, tokens),
            Directive::Size => self.follow_size(pos, tokens),
            Directive::Comm => self.follow_data(pos, tokens, 2, false),
            Directive::Lcomm => self.follow_data(pos, tokens, 2, false),
            Directive::Ident => self.follow_ident(pos, tokens),
            Directive::Frame(_) => {
                self.ignore(pos);
                Ok(())
            }
            Directive::Enter(_) => self.follow_other(pos, tokens),
            Directive::Section => self.follow_other(pos, tokens),
            Directive::PushSection => self.follow_other(pos, tokens),
            Directive::PopSection => self.follow_other(pos, tokens),
            Directive::Previous => self.follow_other(pos, tokens),
            Directive::Say(_) => self.follow_other(pos, tokens),
            Directive::Assign { .. } => self.follow_other(pos, tokens),
            Directive::File => self.follow_other(pos, tokens),
            Directive::Loc => self.follow_other(pos, tokens),
            Directive::Error { .. } => self.follow_other(pos, tokens),
            Directive::Warning => self.follow_other(pos, tokens),
            Directive::Syntax(_) => self.follow_other(pos, tokens),
            Directive::Code64 => self.follow_other(pos, tokens),
        }
    }

    /// An instruction without labels. That it splits a function is the last of its faults.
    #[tactic(auto, using(crate::proofs::ItemLemmas::insn_split, crate::proofs::ItemLemmas::insn_refused))]
    fn follow_insn(&mut self, pos: Pos, tokens: &[Token]) -> Result<(), Refusal<BoxedFault>>
        requires bare { begins_with_label (map spelled tokens.now) ≡ false }
        requires code { bodies.body_of (map spelled tokens.now) ≡ Instruction }
        ensures { Gives self.new result (state.insn_followed
            (at pos (map spelled tokens.now)) self.old) }
    {
        let number = current(&self.statements);
        let start = end_in(&self.statements, number);
        let before = fields_in(&self.statements, number);
        let effect = self.statements.place_watched(pos, tokens)?;
        if self.functions.splits(number) {
            return Err(split_fault(&mut self.statements, pos));
        }
        let after = fields_in(&self.statements, number);
        add_insn(
            &mut self.functions,
            pos,
            number,
            start,
            effect,
            before,
            after,
        )?;
        Ok(())
    }

    /// A statement without labels, by what it is.
    fn follow_body(&mut self, pos: Pos, tokens: &[Token]) -> Result<(), Refusal<BoxedFault>>
        requires { begins_with_label (map spelled tokens.now) ≡ false }
        ensures { Gives self.new result (state.body_followed
            (bodies.body_of (map spelled tokens.now)) (at pos (map spelled tokens.now)) self.old) }
    {
        match body_of(tokens) {
            Body::Directed(Some(directive)) => self.follow_directive(pos, tokens, directive),
            Body::Instruction => self.follow_insn(pos, tokens),
            Body::Directed(None) | Body::Nothing | Body::Assignment | Body::Unknown => {
                self.follow_other(pos, tokens)
            }
        }
    }

    /// The labels of a statement.
    fn follow_labels(&mut self, pos: Pos, tokens: &[Token]) -> Result<(), Refusal<BoxedFault>>
        ensures { Gives self.new result (stepped (at pos (map spelled tokens.now))
            (λ before there. labels_begun pos (map spelled tokens.now) before) self.old) }
    {
        let assembler = &self.statements.assembler;
        begin_functions(assembler, &mut self.functions, pos, tokens)?;
        placed(&mut self.statements, pos, tokens)
    }

    /// The same, at once where it has none.
    #[inline(always)]
    fn follow_front(&mut self, pos: Pos, tokens: &[Token]) -> Result<(), Refusal<BoxedFault>>
        ensures { Gives self.new result (stepped (at pos (map spelled tokens.now))
            (λ before there. labels_begun pos (map spelled tokens.now) before) self.old) }
    {
        if tokens.len() == 0 {
            return Ok(());
        }
        self.follow_labels(pos, tokens)
    }

    /// A statement: its labels, and then what stands behind them.
    #[tactic(auto, unfolding(crate::specs::FollowedSource::statement_followed))]
    fn follow(&mut self, pos: Pos, tokens: &[Token]) -> Result<(), Refusal<BoxedFault>>
        ensures { Gives self.new result
            (state.statement_followed (at pos (map spelled tokens.now)) self.old) }
    {
        no_label_behind(tokens);
        let count = labels_length(tokens);
        self.follow_front(pos, &tokens[..count])?;
        self.follow_body(pos, &tokens[count..])
    }

    /// A statement, and the remark that directives were ignored among the notes of its fault.
    #[inline(never)]
    fn place_asked(&mut self, pos: Pos, tokens: &[Token]) -> Result<(), Refusal<BoxedFault>>
        ensures { Gives self.new result (state.remarked self.old
            (state.statement_followed (at pos (map spelled tokens.now)) self.old)) }
    {
        let alloc = self.statements.assembler.alloc;
        let no_warn = self.statements.assembler.no_warn;
        let ignored = self.ignored;
        match self.follow(pos, tokens) {
            Ok(()) => Ok(()),
            Err(refusal) => Err(remarked(alloc, no_warn, ignored, refusal)),
        }
    }
}

impl Placer for FollowingPlacer {
    ghost use Rattle.asm_functions.specs.FollowedSource.{place_followed};

    type Fault = BoxedFault;

    ghost placed = { λ before statement. place_followed statement before };

    #[tactic(auto, unfolding(crate::specs::FollowedSource::place_followed))]
    #[inline(always)]
    fn place(&mut self, pos: Pos, tokens: &[Token]) -> Result<(), Refusal<BoxedFault>> {
        if self.asked {
            self.place_asked(pos, tokens)
        } else {
            self.statements.place(pos, tokens)
        }
    }
}
