//! Which section statements put into (GNU as manual, ".section", ".pushsection", ".popsection", ".previous").

ghost use Rattle.std.specs.Prelude.{◌≡◌, map, option_map, is_some, false, Ok, IfOk, IfSome, OnOk};
ghost use Rattle.asm_expr.specs.Trees.{tree_of};
ghost use Rattle.asm_base.specs.Refusals.{GivesBy, Gives};
ghost use Rattle.asm_frags.specs.Groups.{says_group};
ghost use Rattle.asm_frags.specs.Sections.{section_flags};
ghost use Rattle.asm_uses.specs.KnownIn.{known_in};
ghost use Rattle.asm_operands.specs.Results.{if_some};
ghost use Rattle.asm_words.specs.SectionWords as words_spec;
ghost use Rattle.asm_declarations.specs.SectionChanges as spec;
ghost use Rattle.asm_words.specs.SaidWords.{signature_in, words_in};
ghost use Rattle.asm_base.specs.Tokens.{spelled};
ghost use Rattle.asm_declarations.specs.SectionChanges.{bare, with_current, enter_named, enter_words, place_section, place_pushed, popped};
ghost use Rattle.asm_values.specs.PlacedBy.{placed_by, PlacesBy};
ghost use Rattle.asm_values.specs.State.{known_here};

use asm_base::{NoMemory, Pos, Text, Token};
use asm_expr::{Expr, Spelling};
use asm_frags::{FragFault, Loose, Section, SectionFlags, Sections};
use asm_operands::{Operands, PlaceCause, PlaceFault, constant_if};
use asm_uses::{Naming, View, form_if};
use asm_values::{Assembler, Entered};
use asm_words::{
    GroupWords, SectionWords, default_header, is_negative, said_flags, said_group, said_kind,
    says_merge, section_words,
};
use bitflags::Flags;
use std::alloc::Global;

/// The most bytes of the name of a section.
const MOST_NAME: usize = 0x1_0000;

/// The section of this name in no group, where there is one.
#[tactic(auto, using(crate::proofs::GroupFlags::found_bare))]
fn section_named<'a>(sections: &'a Sections, name: &[u8]) -> Option<&'a Section<Loose>>
    ensures value { option_map (λ section. section.now) result
        ≡ spec.section_named sections.now name.now }
    ensures bare { IfSome (spec.section_named sections.now name.now)
        (λ section. says_group section.flags ≡ false) }
{
    match sections.find(name) {
        Some(number) => Some(sections.section(number)),
        None => None,
    }
}

/// Flags that are not said are those of the section that is there, or else those of its name.
fn flags_by(flags: Option<u64>, there: Option<&Section<Loose>>, name: &[u8]) -> u64
    ensures { result
        ≡ spec.flags_by flags (option_map (λ section. section.now) there.entry) name.now }
{
    match (flags, there) {
        (Some(flags), _) => flags,
        (None, Some(section)) => section.flags().bits(),
        (None, None) => default_header(name).flags,
    }
}

/// A type that is not said is that of the section that is there, or else that of its name.
fn kind_by(kind: Option<u32>, there: Option<&Section<Loose>>, name: &[u8]) -> u32
    ensures { result
        ≡ spec.kind_by kind (option_map (λ section. section.now) there.entry) name.now }
{
    match (kind, there) {
        (Some(kind), _) => kind,
        (None, Some(section)) => section.kind(),
        (None, None) => default_header(name).kind,
    }
}

/// The size of entries of a section that may be merged has to be said.
fn merge_size(merge: bool, size: Option<u64>) -> Result<u64, PlaceFault>
    ensures { GivesBy (λ size. size) result (spec.merge_size merge size) }
{
    match (merge, size) {
        (false, _) => Ok(0),
        (true, Some(size)) if size != 0 => Ok(size),
        (true, _) => Err(PlaceFault::Fault(PlaceCause::BadSection)),
    }
}

/// The size of entries.
fn entry_size_by(
    letters: &Option<Vec<u8>>,
    size: Option<u64>,
    there: Option<&Section<Loose>>,
) -> Result<u64, PlaceFault>
    ensures { GivesBy (λ size. size) result
        (spec.entry_size_by (option_map (λ letters. letters.items) letters.now) size
        (option_map (λ section. section.now) there.entry)) }
{
    match (letters, there) {
        (Some(_), _) => merge_size(says_merge(letters), size),
        (None, Some(section)) => Ok(section.entry_size()),
        (None, None) => Ok(0),
    }
}

/// The value of the expression of the size of entries, where there is one.
#[tactic(auto, unfolding(crate::specs::SectionChanges::entry_size_in))]
fn entry_size_in(alloc: Global, view: View, expr: &Option<Expr>) -> Result<Option<u64>, PlaceFault>
    ensures { GivesBy (λ size. size) result
        (spec.entry_size_in (known_in view.entry) (option_map tree_of expr.now)) }
{
    let form = form_if(alloc, view, expr)?;
    match constant_if(&form)? {
        Some(number) if is_negative(number) => Err(PlaceFault::Fault(PlaceCause::OutOfRange)),
        size => Ok(size),
    }
}

/// The same at the place of a statement, which is not looked for where nothing is said.
#[tactic(auto, unfolding(crate::specs::SectionChanges::entry_size_in))]
fn entry_size_here(assembler: &Assembler, expr: &Option<Expr>) -> Result<Option<u64>, PlaceFault>
    ensures { GivesBy (λ size. size) result (spec.entry_size_in
        (known_here (placed_by assembler.now)) (option_map tree_of expr.now)) }
{
    match expr {
        Some(_) => entry_size_in(assembler.alloc, assembler.view(), expr),
        None => Ok(None),
    }
}

/// The flags that are said, if any are.
fn flags_if(letters: &Option<Vec<u8>>) -> Result<Option<u64>, PlaceFault>
    ensures { GivesBy (λ flags. flags) result
        (if_some words_spec.said_flags (option_map (λ letters. letters.items) letters.now)) }
{
    match letters {
        Some(letters) => Ok(Some(said_flags(letters)?)),
        None => Ok(None),
    }
}

/// The type that is said, if one is.
fn kind_if(name: &Option<Vec<u8>>) -> Result<Option<u32>, PlaceFault>
    ensures { GivesBy (λ kind. kind) result
        (if_some words_spec.said_kind (option_map (λ name. name.items) name.now)) }
{
    match name {
        Some(name) => Ok(Some(said_kind(name)?)),
        None => Ok(None),
    }
}

/// What the header of a section says.
#[derive(Clone, Copy)]
pub struct Header {
    pub flags: u64,
    pub kind: u32,
    pub entry_size: u64,
}

/// What the header of the section of these words says, by the section that is there.
#[inline(never)]
#[tactic(auto, unfolding(crate::specs::SectionChanges::header_by), using(crate::proofs::GroupFlags::header_flagged))]
fn header_there(
    sections: &Sections,
    words: &SectionWords,
    size: Option<u64>,
) -> Result<Header, PlaceFault>
    ensures value { GivesBy (λ header. header) result
        (spec.header_by sections.now (words_in words.now) size) }
    ensures flagged { IfOk result (λ header. says_group (section_flags header.flags)
        ≡ words_spec.says_grouped (words_in words.now).flags) }
{
    let there = section_named(sections, &words.name);
    let flags = flags_if(&words.flags)?;
    let kind = kind_if(&words.kind)?;
    let entry_size = entry_size_by(&words.flags, size, there)?;
    Ok(Header {
        flags: flags_by(flags, there, &words.name),
        kind: kind_by(kind, there, &words.name),
        entry_size,
    })
}

/// The flags that the letters ask for, which say whether the section is in a group.
#[tactic(auto, using(crate::proofs::GroupFlags::said_flagged))]
fn flags_of(letters: &[u8]) -> Result<u64, PlaceFault>
    ensures value { GivesBy (λ flags. flags) result (words_spec.said_flags letters.now) }
    ensures flagged { IfOk result (λ flags. says_group (section_flags flags)
        ≡ words_spec.has_letter 71 letters.now) }
{
    said_flags(letters)
}

/// What the header of the section of these words says. Where they say flags and type, the section that
/// is there adds nothing, and is not looked for.
#[tactic(auto, unfolding(crate::specs::SectionChanges::header_by))]
fn header_of(
    sections: &Sections,
    words: &SectionWords,
    size: Option<u64>,
) -> Result<Header, PlaceFault>
    ensures value { GivesBy (λ header. header) result
        (spec.header_by sections.now (words_in words.now) size) }
    ensures flagged { IfOk result (λ header. says_group (section_flags header.flags)
        ≡ words_spec.says_grouped (words_in words.now).flags) }
{
    match (&words.flags, &words.kind) {
        (Some(letters), Some(name)) => {
            let flags = flags_of(letters)?;
            let kind = said_kind(name)?;
            let entry_size = merge_size(says_merge(&words.flags), size)?;
            Ok(Header {
                flags,
                kind,
                entry_size,
            })
        }
        _ => header_there(sections, words, size),
    }
}

/// Whether the signature has more bytes than a statement.
fn has_long_signature(group: &Option<(Text, bool)>) -> bool
    ensures { result ≡ spec.has_long_signature group.now }
{
    match group {
        Some((signature, _)) => signature.as_bytes().len() > MOST_NAME,
        None => false,
    }
}

/// The group that the words say, with a copy of its signature.
fn group_said(alloc: Global, words: &SectionWords) -> Result<Option<(Text, bool)>, PlaceFault>
    ensures { GivesBy (λ group. group) result (words_spec.said_group (words_in words.now)) }
{
    match said_group(words)? {
        Some((signature, comdat)) => {
            let text = Text::new(Vec::from_slice(alloc, signature.as_bytes())?);
            Ok(Some((text, comdat)))
        }
        None => Ok(None),
    }
}

/// The number of the section of this name and header, in the group or in none, which is made if it is
/// not there.
#[tactic(auto, unfolding(crate::specs::SectionChanges::entered_for))]
pub(crate) fn enter(
    sections: &mut Sections,
    name: Vec<u8>,
    header: Header,
    group: Option<(Text, bool)>,
) -> Result<u32, PlaceFault>
    requires { says_group (section_flags header.flags) ≡ is_some group }
    ensures { GivesBy (λ number. (sections.new, number)) result
        (spec.entered_for group sections.old name.items header) }
{
    if name.len() > MOST_NAME || has_long_signature(&group) {
        return Err(PlaceFault::Fault(PlaceCause::BadSection));
    }
    let flags = SectionFlags::from_bits_retain(header.flags);
    sections
        .enter(
            Text::new(name),
            flags,
            header.kind,
            header.entry_size,
            group,
        )
        .map_err(FragFault::raise)
}

/// The signature of a group is the name of a symbol from now on.
fn name_signature(
    assembler: &mut Assembler,
    pos: Pos,
    group: &Option<Box<GroupWords>>,
) -> Result<(), NoMemory>
    ensures placed { OnOk result (placed_by assembler.new
        ≡ spec.with_signature pos (signature_in group.now) (placed_by assembler.old)) }
    ensures kept { assembler.new.notes ≡ assembler.old.notes }
{
    if let Some(group) = group {
        if let Some(signature) = &group.signature {
            assembler.table.intern_text(pos, signature.as_bytes())?;
        }
    }
    Ok(())
}

/// The expressions of an operand that may be missing.
fn option_exprs(expr: &Option<Expr>) -> &[Expr]
    ensures { map tree_of result.now ≡ spec.option_trees (option_map tree_of expr.now) }
{
    expr.as_slice()
}

/// Statements put into the section of this number from now on.
pub fn set_current(assembler: &mut Assembler, number: u32)
    ensures placed { placed_by assembler.new ≡ with_current number (placed_by assembler.old) }
    ensures kept { assembler.new.notes ≡ assembler.old.notes }
{
    assembler.previous = assembler.current;
    assembler.current = number;
}

/// Statements put into the section of these words, whose names have symbols by now.
#[tactic(auto, using(crate::proofs::GroupFlags::group_flagged))]
fn enter_named(
    assembler: &mut Assembler,
    naming: Naming,
    words: SectionWords,
) -> Result<(), PlaceFault>
    ensures placed { PlacesBy (enter_named (words_in words) naming)
        assembler.old assembler.new result }
    ensures kept { assembler.new.notes ≡ assembler.old.notes }
{
    let size = entry_size_here(assembler, &words.entry_size)?;
    let header = header_of(&assembler.sections, &words, size)?;
    let group = group_said(assembler.alloc, &words)?;
    let number = enter(&mut assembler.sections, words.name, header, group)?;
    assembler.table.allow(naming)?;
    set_current(assembler, number);
    Ok(())
}

/// Statements put into the section of these words.
#[tactic(auto, unfolding(crate::specs::SectionChanges::enter_words))]
fn enter_words(assembler: &mut Assembler, pos: Pos, words: SectionWords) -> Result<(), PlaceFault>
    ensures placed { PlacesBy (enter_words pos (words_in words))
        assembler.old assembler.new result }
    ensures kept { assembler.new.notes ≡ assembler.old.notes }
{
    let exprs = option_exprs(&words.entry_size);
    let naming = assembler.table.intern_trees(pos, exprs)?;
    name_signature(assembler, pos, &words.group)?;
    enter_named(assembler, naming, words)
}

/// `.section`
#[tactic(auto, unfolding(crate::specs::SectionChanges::place_section))]
pub fn place_section(
    assembler: &mut Assembler,
    pos: Pos,
    tokens: &[Token],
) -> Result<(), PlaceFault>
    ensures placed { PlacesBy (place_section pos (map spelled tokens.now))
        assembler.old assembler.new result }
    ensures kept { assembler.new.notes ≡ assembler.old.notes }
{
    let words = section_words(assembler.alloc, &mut Operands::new(tokens))?;
    enter_words(assembler, pos, words)
}

/// `.pushsection`: `.popsection` comes back to where this stands.
#[tactic(auto, unfolding(crate::specs::SectionChanges::place_pushed))]
pub fn place_pushed(assembler: &mut Assembler, pos: Pos, tokens: &[Token]) -> Result<(), PlaceFault>
    ensures placed { PlacesBy (place_pushed pos (map spelled tokens.now))
        assembler.old assembler.new result }
    ensures kept { assembler.new.notes ≡ assembler.old.notes }
{
    let entered = Entered {
        current: assembler.current,
        previous: assembler.previous,
    };
    place_section(assembler, pos, tokens)?;
    assembler.stack.push(entered)?;
    Ok(())
}

/// `.popsection`
#[tactic(auto, unfolding(crate::specs::SectionChanges::popped))]
pub fn place_popped(assembler: &mut Assembler, tokens: &[Token]) -> Result<(), PlaceFault>
    ensures placed { PlacesBy (λ placed. bare (map spelled tokens.now) (popped placed))
        assembler.old assembler.new result }
    ensures kept { assembler.new.notes ≡ assembler.old.notes }
{
    if !tokens.is_empty() {
        return Err(PlaceFault::Fault(PlaceCause::BadOperand));
    }
    match assembler.stack.pop() {
        Some(entered) => {
            assembler.current = entered.current;
            assembler.previous = entered.previous;
            Ok(())
        }
        None => Err(PlaceFault::Fault(PlaceCause::BadSection)),
    }
}
