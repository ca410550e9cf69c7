//! The words of macros, repeats, conditionals and files.

ghost use Rattle.std.specs.Prelude.{◌≡◌, ◌<◌, IsTrue};
ghost use Rattle.std.specs.List.{list_all};
ghost use Rattle.macro_words.specs.Words as spec;

/// What a condition asks (GNU as manual, ".if").
#[derive(Clone, Copy, Debug, PartialEq, Eq)]
pub enum Condition {
    /// `.if`, `.ifne`: the value is not 0.
    NotZero,
    /// `.ifeq`: the value is 0.
    Zero,
    /// `.iflt`: the value, with its sign, is below 0.
    Negative,
    /// `.ifle`
    NotPositive,
    /// `.ifgt`
    Positive,
    /// `.ifge`
    NotNegative,
    /// `.ifdef`: the symbol is defined.
    Defined,
    /// `.ifndef`
    NotDefined,
    /// `.ifb`: there is no operand.
    Blank,
    /// `.ifnb`
    NotBlank,
    /// `.ifc`: both texts are the same.
    Same,
    /// `.ifnc`
    Different,
}

/// A word of macros, repeats, conditionals and files.
#[derive(Clone, Copy, Debug, PartialEq, Eq)]
pub enum Word {
    If(Condition),
    ElseIf,
    Else,
    EndIf,
    /// `.rept`
    Repeat,
    /// `.irp`
    EachValue,
    /// `.irpc`
    EachCharacter,
    EndRepeat,
    Macro,
    EndMacro,
    ExitMacro,
    /// `.purgem`
    Purge,
    Include,
}

/// A word's name, with spaces after it up to eight bytes, and its length.
pub struct WordRow {
    pub name: [u8; 8],
    pub length: usize,
    pub word: Word,
}

/// The rows, each a line: the name with its spaces, its length, and the word.
macro_rules! words {
    ($($name:literal $length:literal $word:expr;)*) => {
        [$(WordRow { name: *$name, length: $length, word: $word }),*]
    };
}

/// The table of words.
#[rattlefmt::skip]
pub static WORDS: [WordRow; 25] = words! {
    b".if     " 3 Word::If(Condition::NotZero);
    b".ifne   " 5 Word::If(Condition::NotZero);
    b".ifeq   " 5 Word::If(Condition::Zero);
    b".iflt   " 5 Word::If(Condition::Negative);
    b".ifle   " 5 Word::If(Condition::NotPositive);
    b".ifgt   " 5 Word::If(Condition::Positive);
    b".ifge   " 5 Word::If(Condition::NotNegative);
    b".ifdef  " 6 Word::If(Condition::Defined);
    b".ifndef " 7 Word::If(Condition::NotDefined);
    b".ifb    " 4 Word::If(Condition::Blank);
    b".ifnb   " 5 Word::If(Condition::NotBlank);
    b".ifc    " 4 Word::If(Condition::Same);
    b".ifnc   " 5 Word::If(Condition::Different);
    b".elseif " 7 Word::ElseIf;
    b".else   " 5 Word::Else;
    b".endif  " 6 Word::EndIf;
    b".rept   " 5 Word::Repeat;
    b".irp    " 4 Word::EachValue;
    b".irpc   " 5 Word::EachCharacter;
    b".endr   " 5 Word::EndRepeat;
    b".macro  " 6 Word::Macro;
    b".endm   " 5 Word::EndMacro;
    b".exitm  " 6 Word::ExitMacro;
    b".purgem " 7 Word::Purge;
    b".include" 8 Word::Include;
};

/// How many slots there are.
const SLOTS: usize = 64;

/// The number of the row whose name has a slot, in that slot, or 255.
#[rattlefmt::skip]
pub static WORD_SLOTS: [u8; 64] = [
     19,   6, 255, 255, 255, 255,   4, 255,   1, 255, 255, 255, 255,  14,  21, 255,
    255,   7, 255, 255, 255,  15,  24,   5, 255,   8,   9, 255,   3,  13, 255,  23,
     16, 255, 255, 255,  11, 255,  22, 255, 255, 255,  10, 255, 255, 255, 255, 255,
    255, 255,  17, 255,  12, 255,  18,   2,  20, 255, 255, 255, 255,   0, 255, 255,
];

/// The table.
#[tactic(auto, unfolding(crate::specs::Words::the_words))]
fn words() -> &'static [WordRow]
    ensures { result.now ≡ spec.the_words }
{
    &WORDS
}

/// The slot of a name of this length with these last two bytes. Multipliers and size are chosen so that no two words
/// share one.
fn slot_of(length: usize, before: u8, last: u8) -> usize
    ensures value { result ≡ spec.slot_of length before last }
    ensures within { result < 64 }
{
    (8 * (length % SLOTS) + before as usize + 10 * last as usize) % SLOTS
}

/// The slot of a name.
#[tactic(auto, using(crate::proofs::WordSlots::long_slot, crate::proofs::WordSlots::short_slot))]
fn slot(name: &[u8]) -> usize
    ensures value { result ≡ spec.slot name.now }
    ensures within { result < 64 }
{
    if name.len() < 2 {
        return 0;
    }
    slot_of(name.len(), name[name.len() - 2], name[name.len() - 1])
}

/// Whether the row has the name: what stands before the spaces.
#[tactic(auto, using(std::proofs::lemmas::List::take_min))]
fn is_word(name: &[u8], row: &WordRow) -> bool
    ensures { result ≡ spec.is_word name.now row.now }
{
    let padded = row.name.as_slice();
    &padded[..row.length.min(padded.len())] == name
}

/// The number of the row that the slot of the name leads to, or 255.
#[tactic(auto, unfolding(crate::specs::Words::the_word_slots))]
fn word_number(name: &[u8]) -> usize
    ensures { result ≡ spec.row_in spec.the_word_slots name.now }
{
    WORD_SLOTS[slot(name)] as usize
}

/// The word of the name.
#[inline(never)]
#[tactic(auto, unfolding(crate::specs::Words::word_of))]
pub(crate) fn slotted_word(name: &[u8]) -> Option<Word>
    ensures { result ≡ spec.word_of name.now }
{
    match words().get(word_number(name)) {
        Some(row) => {
            if is_word(name, row) {
                Some(row.word)
            } else {
                None
            }
        }
        None => None,
    }
}

/// Whether a word's name may begin so. Most names do not, and are looked at no further.
#[inline(always)]
pub(crate) fn may_be_word(name: &[u8]) -> bool
    ensures { result ≡ spec.may_be_word name.now }
{
    match name {
        [first, second, third, ..] => {
            *first == b'.'
                && matches!(*second, b'i' | b'e' | b'r' | b'm' | b'p')
                && matches!(
                    *third,
                    b'f' | b'r' | b'n' | b'l' | b'x' | b'e' | b'a' | b'u'
                )
        }
        _ => false,
    }
}

/// The word of the name.
#[inline(always)]
#[tactic(auto, using(crate::proofs::WordNames::no_word))]
pub fn word_of(name: &[u8]) -> Option<Word>
    ensures { result ≡ spec.word_of name.now }
{
    if may_be_word(name) {
        slotted_word(name)
    } else {
        None
    }
}

/// Each row's name ends where the spaces after it begin.
pub fn words_are_whole()
    ensures { IsTrue (list_all spec.has_whole_name WORDS) }
{}

/// No two rows have one name.
pub fn words_apart()
    ensures { IsTrue (spec.all_named_apart WORDS) }
{}
