//! The copies of a body, each with another text of a name put in, that are still to come.

ghost use Rattle.std.specs.Prelude.{◌≡◌, ◌≤◌, true, drop, length, IfOk};
ghost use Rattle.macro_texts.specs.RepeatsSeen.{texts};
ghost use Rattle.macro_blocks.specs.Levels.{put_value};
ghost use Rattle.macro_blocks.specs.Places.{all_whole};

use macro_texts::{Argument, EachLine, Value, put_in};
use std::alloc::{AllocError, Global};

/// The copies of a body for the values of a line from the next one on.
#[derive(Drop)]
pub struct EachCopy {
    pub(crate) body: Vec<u8>,
    pub(crate) line: EachLine,
    /// What `\@` stands for in the copies.
    pub(crate) number: u64,
    pub(crate) next: usize,
    ghost within: { next ≤ length line.values.items },
    ghost whole: { all_whole line.name.items number body.items (drop next (texts line.values.items)) ≡ true },
}

/// A body with this text in place of a name, and this number in place of `\@`.
pub(crate) fn copy_text(
    alloc: Global,
    body: &[u8],
    name: &[u8],
    value: &[u8],
    number: u64,
) -> Result<Vec<u8>, AllocError>
    ensures { IfOk result (λ text. text.items ≡ put_value name.now number body.now value.now) }
{
    let arguments = [Argument {
        name,
        value: Value::Bytes(value),
    }];
    put_in(alloc, &arguments, number, body)
}

impl EachCopy {
    ghost use Rattle.std.specs.Prelude.{[], ◌∷◌, ◌≡◌, ◌+◌, ◌-◌, ◌<◌, ◌≤◌, nat_lt, true, drop, length, IfOk, OnOk};
    ghost use Rattle.macro_texts.specs.RepeatsSeen.{texts};
    ghost use Rattle.macro_blocks.specs.Levels.{put_value};
    ghost use Rattle.macro_blocks.specs.Copies.{count_left, IsNextText};

    /// No copy.
    pub(crate) fn none(alloc: Global) -> EachCopy
        ensures values { result.line.values.items ≡ [] }
        ensures next { result.next ≡ 0 }
    {
        EachCopy {
            body: Vec::new(alloc),
            line: EachLine {
                name: Vec::new(alloc),
                values: Vec::new(alloc),
            },
            number: 0,
            next: 0,
        }
    }

    /// Whether one is to come.
    pub(crate) fn is_left(&self) -> bool
        ensures { result ≡ nat_lt self.now.next (length self.now.line.values.items) }
    {
        self.next < self.line.values.len()
    }

    /// The text of the next one.
    pub(crate) fn next_text(&self, alloc: Global) -> Result<Vec<u8>, AllocError>
        requires { 0 < count_left self.now }
        ensures { IfOk result (λ text. IsNextText self.now text.items) }
    {
        let value = &self.line.values[self.next];
        let text = copy_text(alloc, &self.body, &self.line.name, value, self.number)?;
        Ok(text)
    }

    /// The next one is to come no more.
    pub(crate) fn pass(&mut self)
        requires { 0 < count_left self.old }
        ensures next { self.new.next ≡ self.old.next + 1 }
        ensures body { self.new.body.items ≡ self.old.body.items }
        ensures line { self.new.line ≡ self.old.line }
        ensures number { self.new.number ≡ self.old.number }
    {
        self.next += 1;
    }
}
