//! What the head of the list is: a word of expansion, a call, or a statement that is handed out.

ghost use Rattle.std.specs.Prelude.{map, IfOk};
ghost use Rattle.asm_base.specs.Tokens.{spelled};
ghost use Rattle.asm_macro.specs.Heads.{IsHead};

use crate::expander::Expander;
use crate::macros::Macro;
use asm_base::Token;
use asm_operands::{begins_assignment, is_name};
use macro_words::{Word, word_of_head};
use std::alloc::AllocError;
use std::rc::Rc;

/// A word or a call, and what stands behind it.
#[derive(Drop)]
pub(crate) enum Head<'t, 'a> {
    Word(Word, &'t [Token<'a>]),
    Call(&'a [u8], Rc<Macro>, &'t [Token<'a>]),
}

impl Expander {
    /// The word or the call that these tokens begin with, which stand behind labels; none where they are handed out.
    pub(crate) fn head<'t, 'a>(
        &self,
        tokens: &'t [Token<'a>],
    ) -> Result<Option<Head<'t, 'a>>, AllocError>
        ensures { IfOk result (λ head. IsHead head (map spelled tokens.entry.now) self.now.macros) }
    {
        let Some((name, operands)) = tokens.split_first() else {
            return Ok(None);
        };
        if let Some(word) = word_of_head(tokens) {
            return Ok(Some(Head::Word(word, operands)));
        }
        if !is_name(name) || begins_assignment(operands) {
            return Ok(None);
        }
        match self.macros.named(name.bytes)? {
            Some(one) => Ok(Some(Head::Call(name.bytes, one, operands))),
            None => Ok(None),
        }
    }
}
