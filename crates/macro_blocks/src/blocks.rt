//! Blocks, and what stands at the end of a part of the list.

use macro_words::Word;

/// What a block is, by the words that begin and end it.
#[derive(Clone, Copy, Debug, PartialEq, Eq)]
pub enum Block {
    /// From `.if` or its kin to `.endif`.
    Conditional,
    /// From `.rept`, `.irp` or `.irpc` to `.endr`.
    Repeat,
    /// From `.macro` to `.endm`.
    Macro,
}

/// What an end mark of the list ends.
#[derive(Clone, Copy, Debug, PartialEq, Eq)]
pub enum Ending {
    /// A file that was started.
    File,
    /// A call of a macro.
    Call,
    /// A repeat with all its copies.
    Repeat,
}

impl Block {
    ghost use Rattle.std.specs.Prelude.{◌≡◌, ◌+◌, ◌-◌, ◌<◌, ◌≤◌, ◌^◌};
    ghost use Rattle.macro_blocks.specs.Blocks as spec;

    /// Whether the word begins a block of this kind.
    pub fn begins(self, word: Word) -> bool
        ensures { result ≡ spec.begins self word }
    {
        match self {
            Block::Conditional => matches!(word, Word::If(_)),
            Block::Repeat => matches!(word, Word::Repeat | Word::EachValue | Word::EachCharacter),
            Block::Macro => matches!(word, Word::Macro),
        }
    }

    /// Whether the word ends one.
    pub fn ends(self, word: Word) -> bool
        ensures { result ≡ spec.ends self word }
    {
        match self {
            Block::Conditional => matches!(word, Word::EndIf),
            Block::Repeat => matches!(word, Word::EndRepeat),
            Block::Macro => matches!(word, Word::EndMacro),
        }
    }

    /// Whether the statement of this word, if it has one, begins a block of this kind.
    fn begins_at(self, word: Option<Word>) -> bool
        ensures { result ≡ spec.of_word (spec.begins self) word }
    {
        match word {
            Some(word) => self.begins(word),
            None => false,
        }
    }

    /// Whether the statement of this word, if it has one, ends one.
    pub fn ends_at(self, word: Option<Word>) -> bool
        ensures { result ≡ spec.of_word (spec.ends self) word }
    {
        match word {
            Some(word) => self.ends(word),
            None => false,
        }
    }

    /// How many blocks are open behind a statement of this word, before which so many are.
    pub fn depth_behind(self, deep: u128, word: Option<Word>) -> u128
        requires { deep < 2 ^ 128 - 1 }
        ensures value { result ≡ spec.depth_by self deep word }
        ensures few { result ≤ deep + 1 }
    {
        if self.begins_at(word) {
            deep + 1
        } else if self.ends_at(word) {
            deep.saturating_sub(1)
        } else {
            deep
        }
    }
}
