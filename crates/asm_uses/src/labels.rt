//! The symbols of labels.

use crate::tables::SymbolUses;
use asm_base::{Pos, Token, TokenKind};
use asm_expr::Name;
use asm_operands::{PlaceCause, PlaceFault, symbol_name};
use asm_symbols::SymId;
use expr_texts::decimal_number;
use std::alloc::Global;

impl SymbolUses {
    ghost use Rattle.std.specs.Prelude.{◌≡◌, ◌<◌, length, IfOk};
    ghost use Rattle.asm_base.specs.Tokens.{spelled};
    ghost use Rattle.asm_base.specs.Refusals.{GivesBy};
    ghost use Rattle.asm_uses.specs.Labels.{named_symbol, label_symbol};

    /// The symbol of a name, by its token, which may be quoted.
    #[inline(never)]
    fn named_symbol(&mut self, alloc: Global, pos: Pos, token: &Token) -> Result<SymId, PlaceFault>
        ensures value { GivesBy (λ id. (self.new, id)) result
            (named_symbol pos (spelled token.now) self.old) }
        ensures within { IfOk result (λ id. id < length self.new.symbols.symbols) }
    {
        let name = Name::Plain(symbol_name(alloc, token)?);
        self.symbol_of(pos, &name)
    }

    /// The symbol of a label, by its token: that of the next instance of a number.
    #[tactic(auto, unfolding(crate::specs::Labels::label_symbol, asm_operands::specs::Operands::symbol_name))]
    pub fn label_symbol(
        &mut self,
        alloc: Global,
        pos: Pos,
        token: &Token,
    ) -> Result<SymId, PlaceFault>
        ensures value { GivesBy (λ id. (self.new, id)) result
            (label_symbol pos (spelled token.now) self.old) }
        ensures within { IfOk result (λ id. id < length self.new.symbols.symbols) }
    {
        match token.kind {
            TokenKind::Name => self.symbol_of_text(pos, token.bytes),
            TokenKind::Digits => match decimal_number(token.bytes) {
                Ok(number) => self.next_symbol(pos, number),
                Err(cause) => Err(PlaceFault::Fault(PlaceCause::from(cause))),
            },
            _ => self.named_symbol(alloc, pos, token),
        }
    }
}
