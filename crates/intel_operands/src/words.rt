//! The words of operands: the sizes of memory, and `OFFSET`.

ghost use Rattle.std.specs.Prelude.{◌≡◌, ◌+◌, ◌<◌, ◌≤◌, codes, length, map, option_map, slice_get, IsSome, IsTrue};
ghost use Rattle.std.specs.Str.{str_eq_ignore_ascii_case};
ghost use Rattle.asm_base.specs.Tokens.{spelled};
ghost use Rattle.intel_operands.specs.Words.{is_word, bits_of, bits_in, offset_words};

use asm_base::Token;
use att_operands::mark_at;
use intel_sums::token_at;

/// How many bits memory has by a word, and 0 where the word says no size.
#[inline(never)]
#[tactic(auto, unfolding(crate::specs::Words::bits_of))]
fn bits_of(word: &[u8]) -> u8
    ensures { result ≡ bits_of word.now }
{
    if word.eq_ignore_ascii_case(b"byte".as_slice()) {
        8
    } else if word.eq_ignore_ascii_case(b"word".as_slice()) {
        16
    } else if word.eq_ignore_ascii_case(b"dword".as_slice()) {
        32
    } else if word.eq_ignore_ascii_case(b"qword".as_slice()) {
        64
    } else if word.eq_ignore_ascii_case(b"xmmword".as_slice()) {
        128
    } else {
        0
    }
}

/// How many bits memory has by a word in capitals, as compilers write it. Where this gives 0, it
/// says nothing.
#[inline(always)]
#[tactic(auto, unfolding(crate::specs::Words::bits_of))]
fn capital_bits(word: &[u8]) -> u8
    ensures { 0 < result → result ≡ bits_of word.now }
{
    match word {
        [b'Q', b'W', b'O', b'R', b'D'] => 64,
        [b'D', b'W', b'O', b'R', b'D'] => 32,
        [b'B', b'Y', b'T', b'E'] => 8,
        [b'W', b'O', b'R', b'D'] => 16,
        _ => 0,
    }
}

/// How many bits memory has by a word, with a short way for words in capitals.
#[inline(always)]
fn bits_by(word: &[u8]) -> u8
    ensures { result ≡ bits_of word.now }
{
    let bits = capital_bits(word);
    if bits > 0 { bits } else { bits_of(word) }
}

/// Whether the word is `PTR`, which most are in capitals.
#[inline(always)]
fn says_pointer(word: &[u8]) -> bool
    ensures { result ≡ str_eq_ignore_ascii_case word.now (codes "ptr") }
{
    match word {
        [b'P', b'T', b'R'] => true,
        _ => word.eq_ignore_ascii_case(b"ptr".as_slice()),
    }
}

/// Whether the token at this place is `PTR`.
#[inline(always)]
#[tactic(auto, unfolding(crate::specs::Words::is_word))]
fn is_pointer(text: &[Token], at: usize) -> bool
    ensures value { result ≡ is_word (codes "ptr") (slice_get (map spelled text.now) at) }
    ensures within { IsTrue result → at < length text.now }
{
    match token_at(text, at) {
        Some(token) => says_pointer(token.bytes),
        None => false,
    }
}

/// How many bits the words in front say, of which the second is `PTR`, and 0 where they say none.
#[inline(always)]
pub(crate) fn bits_in(text: &[Token]) -> u8
    ensures value { result ≡ bits_in (map spelled text.now) }
    ensures within { 0 < result → 2 ≤ length text.now }
{
    if !is_pointer(text, 1) {
        return 0;
    }
    match token_at(text, 0) {
        Some(token) => bits_by(token.bytes),
        None => 0,
    }
}

/// Whether the token at this place is `OFFSET`.
#[inline(always)]
#[tactic(auto, unfolding(crate::specs::Words::is_word))]
pub(crate) fn is_offset(text: &[Token], at: usize) -> bool
    ensures value { result ≡ is_word (codes "offset") (slice_get (map spelled text.now) at) }
    ensures within { IsTrue result → at + 1 ≤ length text.now }
{
    match token_at(text, at) {
        Some(token) => token.bytes.eq_ignore_ascii_case(b"offset".as_slice()),
        None => false,
    }
}

/// Whether the token at this place is `FLAT`.
#[inline(always)]
#[tactic(auto, unfolding(crate::specs::Words::is_word))]
fn is_flat(text: &[Token], at: usize) -> bool
    ensures { result ≡ is_word (codes "flat") (slice_get (map spelled text.now) at) }
{
    match token_at(text, at) {
        Some(token) => token.bytes.eq_ignore_ascii_case(b"flat".as_slice()),
        None => false,
    }
}

/// So many tokens in front say that a value is an address.
#[inline(always)]
pub(crate) fn offset_words(text: &[Token]) -> usize
    ensures value { result ≡ offset_words (map spelled text.now) }
    ensures within { result ≤ length text.now }
{
    if !is_offset(text, 0) {
        return 0;
    }
    if is_flat(text, 1) && mark_at(text, 2) == b':' {
        3
    } else {
        1
    }
}
