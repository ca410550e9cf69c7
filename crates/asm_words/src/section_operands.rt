//! The operands of `.section` (GNU as manual, ".section", ELF version).

ghost use Rattle.std.specs.Prelude.{◌≡◌, ◌≤◌, map, option_map, true, Some, Ok, IfOk};
ghost use Rattle.std.specs.List.{list_all};
ghost use Rattle.asm_base.specs.Tokens.{spelled};
ghost use Rattle.asm_expr.specs.Trees.{tree_of};
ghost use Rattle.asm_base.specs.Refusals.{GivesBy};
ghost use Rattle.asm_operands.specs.OperandParts.{operands_left, Takes};
ghost use Rattle.asm_operands.specs.Operands.{string_of, needed};
ghost use Rattle.asm_words.specs.SectionWords as spec;
ghost use Rattle.asm_words.specs.SaidWords.{linkage_in, signature_in, words_in};

use asm_base::{Token, TokenKind};
use asm_expr::{Expr, Spelling};
use asm_frags::{
    SHT_FINI_ARRAY, SHT_INIT_ARRAY, SHT_NOBITS, SHT_NOTE, SHT_PREINIT_ARRAY, SHT_PROGBITS,
};
use asm_operands::{
    Operands, PlaceCause, PlaceFault, checked_name, expression_of, is_dot, is_mark, is_name,
    no_more, string_of, symbol_name,
};
use std::alloc::{AllocError, Global};

/// What `.section` says of a group.
#[derive(Drop)]
pub struct GroupWords {
    pub signature: Option<Spelling>,
    /// The word behind the signature.
    pub linkage: Option<Vec<u8>>,
}

/// What `.section` says.
#[derive(Drop)]
pub struct SectionWords {
    pub name: Vec<u8>,
    /// The letters of the flags.
    pub flags: Option<Vec<u8>>,
    /// The name of the type.
    pub kind: Option<Vec<u8>>,
    pub entry_size: Option<Expr>,
    /// In a box: most sections are in no group.
    pub group: Option<Box<GroupWords>>,
}

/// Whether the second token stands right behind the first.
fn follows(first: &Token, second: &Token) -> bool
    ensures { result ≡ spec.follows (spelled first.now) (spelled second.now) }
{
    second.start >= first.start && second.start - first.start == first.bytes.len()
}

/// Whether the tokens stand side by side, without blanks between.
fn are_adjacent(tokens: &[Token]) -> bool
    ensures { result ≡ spec.are_adjacent (map spelled tokens.now) }
{
    for at in 1..tokens.len() {
        if !follows(&tokens[at - 1], &tokens[at]) {
            return false;
        }
    }
    true
}

/// Whether the token is name bytes, digits and `$` among them, or `-`.
fn is_name_part(token: &Token) -> bool
    ensures { result ≡ spec.is_name_part (spelled token.now) }
{
    matches!(token.kind, TokenKind::Name | TokenKind::Digits)
        || is_mark(token, b'-')
        || is_mark(token, b'$')
}

/// Whether all tokens are parts of a section's name without quotes.
fn are_name_parts(tokens: &[Token]) -> bool
    ensures { result ≡ list_all spec.is_name_part (map spelled tokens.now) }
{
    for token in tokens {
        if !is_name_part(token) {
            return false;
        }
    }
    true
}

/// Whether these are a section's name without quotes: one part at least, and no blanks between.
fn is_joined(tokens: &[Token]) -> bool
    ensures { result ≡ spec.is_joined (map spelled tokens.now) }
{
    !tokens.is_empty() && are_name_parts(tokens) && are_adjacent(tokens)
}

/// The bytes of these tokens, one after the other.
fn joined_bytes(alloc: Global, tokens: &[Token]) -> Result<Vec<u8>, PlaceFault>
    ensures { GivesBy (λ bytes. bytes.items) result
        (Ok (spec.joined_bytes (map spelled tokens.now))) }
{
    let mut bytes = Vec::new(alloc);
    for token in tokens {
        bytes.extend_from_slice(token.bytes)?;
    }
    Ok(bytes)
}

/// The name of a section, quoted or not.
#[tactic(auto, unfolding(crate::specs::SectionWords::section_name))]
fn section_name(alloc: Global, operand: &[Token]) -> Result<Vec<u8>, PlaceFault>
    ensures { GivesBy (λ name. name.items) result (spec.section_name (map spelled operand.now)) }
{
    if is_joined(operand) {
        joined_bytes(alloc, operand)
    } else {
        checked_name(string_of(alloc, operand)?)
    }
}

/// Whether the token stands before the name of a type.
pub(crate) fn begins_type(token: &Token) -> bool
    ensures { result ≡ spec.begins_type (spelled token.now) }
{
    is_mark(token, b'@') || is_mark(token, b'%')
}

/// A name behind `@` or `%`.
#[tactic(auto, unfolding(crate::specs::SectionWords::type_name))]
fn type_name(alloc: Global, operand: &[Token]) -> Result<Vec<u8>, PlaceFault>
    ensures { GivesBy (λ name. name.items) result (spec.type_name (map spelled operand.now)) }
{
    match operand {
        [mark, name] if begins_type(mark) && is_name(name) => {
            Ok(Vec::from_slice(alloc, name.bytes)?)
        }
        _ => Err(PlaceFault::Fault(PlaceCause::BadOperand)),
    }
}

/// The next operand, which has to be the name of a section.
fn needed_section(alloc: Global, operands: &mut Operands) -> Result<Vec<u8>, PlaceFault>
    ensures { Takes (λ name. name.items) (needed spec.section_name)
        operands.old operands.new result }
{
    match operands.next() {
        Some(operand) => section_name(alloc, operand),
        None => Err(PlaceFault::Fault(PlaceCause::BadOperand)),
    }
}

/// The next operand, which is a string unless it is missing.
fn string_if(alloc: Global, operands: &mut Operands) -> Result<Option<Vec<u8>>, PlaceFault>
    ensures { Takes (option_map (λ string. string.items)) (spec.missing_or string_of)
        operands.old operands.new result }
{
    match operands.next() {
        None => Ok(None),
        Some(operand) => Ok(Some(string_of(alloc, operand)?)),
    }
}

/// The next operand, which is a type unless it is missing.
fn type_if(alloc: Global, operands: &mut Operands) -> Result<Option<Vec<u8>>, PlaceFault>
    ensures { Takes (option_map (λ name. name.items)) (spec.missing_or spec.type_name)
        operands.old operands.new result }
{
    match operands.next() {
        None => Ok(None),
        Some(operand) => Ok(Some(type_name(alloc, operand)?)),
    }
}

/// The next operand, which is an expression unless it is missing, where one may stand.
fn expression_if(
    alloc: Global,
    may: bool,
    operands: &mut Operands,
) -> Result<Option<Expr>, PlaceFault>
    ensures { Takes (option_map tree_of) (spec.expression_if may) operands.old operands.new result }
{
    if !may {
        return Ok(None);
    }
    match operands.next() {
        None => Ok(None),
        Some(operand) => Ok(Some(expression_of(alloc, operand)?)),
    }
}

/// The name of a symbol, which `.` without quotes is not.
#[tactic(auto, unfolding(crate::specs::SectionWords::signature_of))]
fn signature_of(alloc: Global, operand: &[Token]) -> Result<Spelling, PlaceFault>
    ensures { GivesBy (λ name. name) result (spec.signature_of (map spelled operand.now)) }
{
    match operand {
        [token] if !is_dot(token) => symbol_name(alloc, token),
        _ => Err(PlaceFault::Fault(PlaceCause::BadOperand)),
    }
}

/// The next operand, which is a signature unless it is missing.
#[inline(never)]
fn next_signature(alloc: Global, operands: &mut Operands) -> Result<Option<Spelling>, PlaceFault>
    ensures { Takes (λ name. name) (spec.missing_or spec.signature_of)
        operands.old operands.new result }
{
    match operands.next() {
        None => Ok(None),
        Some(operand) => Ok(Some(signature_of(alloc, operand)?)),
    }
}

/// The same, where one may stand.
#[inline(always)]
fn signature_if(
    alloc: Global,
    may: bool,
    operands: &mut Operands,
) -> Result<Option<Spelling>, PlaceFault>
    ensures { Takes (λ name. name) (spec.operand_if spec.signature_of may)
        operands.old operands.new result }
{
    if may {
        next_signature(alloc, operands)
    } else {
        Ok(None)
    }
}

/// One name.
#[tactic(auto, unfolding(crate::specs::SectionWords::word_of))]
fn word_of(alloc: Global, operand: &[Token]) -> Result<Vec<u8>, PlaceFault>
    ensures { GivesBy (λ word. word.items) result (spec.word_of (map spelled operand.now)) }
{
    match operand {
        [token] if is_name(token) => Ok(Vec::from_slice(alloc, token.bytes)?),
        _ => Err(PlaceFault::Fault(PlaceCause::BadOperand)),
    }
}

/// The next operand, which is a word unless it is missing.
#[inline(never)]
fn next_word(alloc: Global, operands: &mut Operands) -> Result<Option<Vec<u8>>, PlaceFault>
    ensures { Takes (option_map (λ word. word.items)) (spec.missing_or spec.word_of)
        operands.old operands.new result }
{
    match operands.next() {
        None => Ok(None),
        Some(operand) => Ok(Some(word_of(alloc, operand)?)),
    }
}

/// The same, where one may stand.
#[inline(always)]
fn word_if(alloc: Global, may: bool, operands: &mut Operands) -> Result<Option<Vec<u8>>, PlaceFault>
    ensures { Takes (option_map (λ word. word.items)) (spec.operand_if spec.word_of may)
        operands.old operands.new result }
{
    if may {
        next_word(alloc, operands)
    } else {
        Ok(None)
    }
}

/// Whether the letters say that the section is in a group.
fn says_grouped(letters: &Option<Vec<u8>>) -> bool
    ensures { result ≡ spec.says_grouped (option_map (λ letters. letters.items) letters.now) }
{
    match letters {
        Some(letters) => letters.contains(&b'G'),
        None => false,
    }
}

/// Whether the letters say that the section may be merged.
pub fn says_merge(letters: &Option<Vec<u8>>) -> bool
    ensures { result ≡ spec.says_merge (option_map (λ letters. letters.items) letters.now) }
{
    match letters {
        Some(letters) => letters.contains(&b'M'),
        None => false,
    }
}

/// These words in a box.
#[inline(never)]
fn boxed_words(alloc: Global, words: GroupWords) -> Result<Option<Box<GroupWords>>, AllocError>
    ensures { IfOk result (λ boxed. option_map (λ it. it.value) boxed ≡ Some words) }
{
    Ok(Some(Box::new(alloc, words)?))
}

/// What is said of a group, if anything is.
#[inline(always)]
fn group_words(
    alloc: Global,
    signature: Option<Spelling>,
    linkage: Option<Vec<u8>>,
) -> Result<Option<Box<GroupWords>>, AllocError>
    ensures signature { IfOk result (λ group. signature_in group ≡ signature) }
    ensures linkage { IfOk result (λ group.
        linkage_in group ≡ option_map (λ word. word.items) linkage) }
{
    if signature.is_none() && linkage.is_none() {
        return Ok(None);
    }
    boxed_words(alloc, GroupWords { signature, linkage })
}

/// What `.section` says by these operands.
#[tactic(auto, unfolding(crate::specs::SectionWords::section_words), using(crate::proofs::OperandEnds::ended))]
pub fn section_words(alloc: Global, operands: &mut Operands) -> Result<SectionWords, PlaceFault>
    ensures { GivesBy words_in result (spec.section_words (operands_left operands.old)) }
{
    let name = needed_section(alloc, operands)?;
    let flags = string_if(alloc, operands)?;
    let kind = type_if(alloc, operands)?;
    let entry_size = expression_if(alloc, says_merge(&flags), operands)?;
    let in_group = says_grouped(&flags);
    let signature = signature_if(alloc, in_group, operands)?;
    let linkage = word_if(alloc, in_group, operands)?;
    no_more(operands, ())?;
    let group = group_words(alloc, signature, linkage)?;
    Ok(SectionWords {
        name,
        flags,
        kind,
        entry_size,
        group,
    })
}

/// Whether a linker keeps one alone of the groups of a signature with this word behind it.
fn comdat_by(linkage: &Option<Vec<u8>>) -> Result<bool, PlaceFault>
    ensures { GivesBy (λ comdat. comdat) result
        (spec.comdat_by (option_map (λ word. word.items) linkage.now)) }
{
    match linkage {
        None => Ok(false),
        Some(word) if word.as_slice() == b"comdat".as_slice() => Ok(true),
        Some(_) => Err(PlaceFault::Fault(PlaceCause::BadSection)),
    }
}

/// The group that these words say.
#[inline(never)]
fn group_of(words: &GroupWords) -> Result<Option<(&Spelling, bool)>, PlaceFault>
    ensures { GivesBy (option_map (λ group. (group.0.now, group.1))) result
        (spec.group_by true words.now.signature
        (option_map (λ word. word.items) words.now.linkage)) }
{
    match &words.signature {
        Some(signature) => Ok(Some((signature, comdat_by(&words.linkage)?))),
        None => Err(PlaceFault::Fault(PlaceCause::BadSection)),
    }
}

/// The group that the words say, by its signature, and whether a linker keeps one alone of that.
pub fn said_group(words: &SectionWords) -> Result<Option<(&Spelling, bool)>, PlaceFault>
    ensures { GivesBy (option_map (λ group. (group.0.now, group.1))) result
        (spec.said_group (words_in words.now)) }
{
    if !says_grouped(&words.flags) {
        return Ok(None);
    }
    match &words.group {
        Some(group) => group_of(group),
        None => Err(PlaceFault::Fault(PlaceCause::BadSection)),
    }
}

/// Whether the byte is the letter of a flag.
fn is_flag_letter(byte: u8) -> bool
    ensures { result ≡ spec.is_flag_letter byte }
{
    matches!(byte, b'a' | b'w' | b'x' | b'M' | b'S' | b'G' | b'T')
}

/// The flag that a letter asks for, if the letters have it.
fn flag_if(letter: u8, flag: u64, letters: &[u8]) -> u64
    ensures value { result ≡ spec.flag_if letter flag letters.now }
    ensures within { result ≤ flag }
{
    if letters.contains(&letter) { flag } else { 0 }
}

/// The flags that the letters ask for (gABI, chapter 4, `sh_flags`).
#[tactic(auto, unfolding(crate::specs::SectionWords::letter_flags))]
fn letter_flags(letters: &[u8]) -> u64
    ensures { result ≡ spec.letter_flags letters.now }
{
    flag_if(b'w', 1, letters)
        + flag_if(b'a', 2, letters)
        + flag_if(b'x', 4, letters)
        + flag_if(b'M', 0x10, letters)
        + flag_if(b'S', 0x20, letters)
        + flag_if(b'G', 0x200, letters)
        + flag_if(b'T', 0x400, letters)
}

/// Whether all are letters of flags.
fn are_flag_letters(letters: &[u8]) -> bool
    ensures { result ≡ list_all spec.is_flag_letter letters.now }
{
    letters.iter().all(|byte| is_flag_letter(*byte))
}

/// The flags that the letters ask for; another letter is no flag.
#[tactic(auto, unfolding(crate::specs::SectionWords::said_flags))]
pub fn said_flags(letters: &[u8]) -> Result<u64, PlaceFault>
    ensures { GivesBy (λ flags. flags) result (spec.said_flags letters.now) }
{
    if are_flag_letters(letters) {
        Ok(letter_flags(letters))
    } else {
        Err(PlaceFault::Fault(PlaceCause::BadSection))
    }
}

/// The type of a section by its name (gABI, chapter 4, `sh_type`).
#[tactic(auto, unfolding(crate::specs::SectionWords::said_kind))]
pub fn said_kind(name: &[u8]) -> Result<u32, PlaceFault>
    ensures { GivesBy (λ kind. kind) result (spec.said_kind name.now) }
{
    if name == b"progbits".as_slice() {
        Ok(SHT_PROGBITS)
    } else if name == b"note".as_slice() {
        Ok(SHT_NOTE)
    } else if name == b"nobits".as_slice() {
        Ok(SHT_NOBITS)
    } else if name == b"init_array".as_slice() {
        Ok(SHT_INIT_ARRAY)
    } else if name == b"fini_array".as_slice() {
        Ok(SHT_FINI_ARRAY)
    } else if name == b"preinit_array".as_slice() {
        Ok(SHT_PREINIT_ARRAY)
    } else {
        Err(PlaceFault::Fault(PlaceCause::BadSection))
    }
}
