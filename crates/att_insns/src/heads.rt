//! What stands in front of the operands: a mnemonic, and a prefix before it.

ghost use Rattle.std.specs.Prelude.{◌≡◌, ◌<◌, ◌≤◌, map, length, option_map, slice_get, Some, IsSome, IfSome};
ghost use Rattle.asm_base.specs.Tokens.{spelled};
ghost use Rattle.x86_lookup.specs.Mnemonics.{of_size};
ghost use Rattle.att_insns.specs.Heads.{head, mnemonic_by, prefix_by, prefixed, head_of};

use asm_base::Token;
use att_operands::prefix_named;
use x86_insn::Prefix;
use x86_lookup::{FoundName, att_name};

/// A mnemonic and the prefix before it, and the index of the first token behind them.
#[derive(Clone, Copy)]
pub(crate) struct FoundHead {
    pub name: FoundName,
    pub prefix: Prefix,
    pub next: usize,
}

/// The mnemonic that the token at this place is.
#[inline(always)]
fn mnemonic_at(tokens: &[Token], at: usize) -> Option<FoundName>
    ensures value { let due = mnemonic_by (slice_get (map spelled tokens.now) at) in
        option_map (λ found. of_size found.named.now found.size) result ≡ due }
    ensures within { IsSome result → at < length tokens.now }
{
    match tokens.get(at) {
        Some(token) => att_name(token.bytes),
        None => None,
    }
}

/// The prefix that the token in front is.
#[inline(always)]
fn prefix_in_front(tokens: &[Token]) -> Option<Prefix>
    ensures { result ≡ prefix_by (slice_get (map spelled tokens.now) 0) }
{
    match tokens.get(0) {
        Some(token) => prefix_named(token.bytes),
        None => None,
    }
}

/// The mnemonic behind the prefix in front.
#[inline(never)]
fn prefixed(tokens: &[Token]) -> Option<FoundHead>
    ensures value { let due = prefixed (map spelled tokens.now)
        (prefix_by (slice_get (map spelled tokens.now) 0)) in
        option_map (λ found. head (of_size found.name.named.now found.name.size) found.prefix
        found.next) result ≡ due }
    ensures within { IfSome result (λ found. found.next ≤ length tokens.now) }
{
    match prefix_in_front(tokens) {
        Some(prefix) => match mnemonic_at(tokens, 1) {
            Some(name) => Some(FoundHead {
                name,
                prefix,
                next: 2,
            }),
            None => None,
        },
        None => None,
    }
}

/// What stands in front of the operands, if a mnemonic does that has rows.
#[inline(always)]
#[tactic(auto, unfolding(crate::specs::Heads::head_of))]
pub(crate) fn head_of(tokens: &[Token]) -> Option<FoundHead>
    ensures value { let due = head_of (map spelled tokens.now) in
        option_map (λ found. head (of_size found.name.named.now found.name.size) found.prefix
        found.next) result ≡ due }
    ensures within { IfSome result (λ found. found.next ≤ length tokens.now) }
{
    match mnemonic_at(tokens, 0) {
        Some(name) => Some(FoundHead {
            name,
            prefix: Prefix::Absent,
            next: 1,
        }),
        None => prefixed(tokens),
    }
}
