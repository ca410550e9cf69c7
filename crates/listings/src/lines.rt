//! The lines of a byte string, as text.

ghost use Rattle.std.specs.Prelude.{◌≡◌, ◌+◌, ◌<◌, ◌≤◌, [], ◌∷◌, ◌++◌, None, Some, IfOk, IfSome, OnOk, drop, length, option_map, take};
ghost use Rattle.x86_decode.specs.Decoding.{Decodes};
ghost use Rattle.x86_decode.specs.Views.{IsOfRow, shown_front};
ghost use Rattle.listings.specs.LineTexts.{line_text};
ghost use Rattle.listings.specs.Listings.{Adds};

use crate::digits::hex_digit;
use crate::heads::put_head;
use crate::texts::Texts;
use asm_base::NoMemory;
use x86_decode::{Front, front_of};
use x86_table::instruction_length;

/// A text of so many bytes or more is full.
const FULL_BYTES: usize = 1 << 16;

/// Appends the line of an instruction.
fn put_insn<T: Texts>(
    bytes: &[u8],
    at: usize,
    front: &Front,
    text: &mut Vec<u8>,
) -> Result<(), NoMemory>
    requires of_row { IsOfRow front.now }
    requires few { front.now.len ≤ 15 }
    requires within { at + front.now.len ≤ length bytes.now }
    ensures { let own = take front.now.len (drop at bytes.now) in
        OnOk result (text.new.items ≡ text.old.items
        ++ line_text T.text (record { offset = at; bytes = own; front = Some front.now })) }
{
    put_head(text, at, &bytes[at..at + front.len])?;
    T::put(text, front)?;
    text.extend_from_slice(b"\n")
}

/// Appends the line of a byte at which nothing reads.
#[tactic(auto, unfolding(crate::specs::Digits::byte_digits))]
fn put_byte<T: Texts>(at: usize, byte: u8, text: &mut Vec<u8>) -> Result<(), NoMemory>
    ensures { OnOk result (text.new.items ≡ text.old.items
        ++ line_text T.text (record { offset = at; bytes = byte ∷ []; front = None })) }
{
    put_head(text, at, &[byte])?;
    text.extend_from_slice(b".byte 0x")?;
    text.extend_from_slice(&[hex_digit(byte >> 4), hex_digit(byte % 16), b'\n'])
}

/// The instruction that the bytes begin with. It has at least one byte, at most 15, and no more than there are.
#[tactic(auto, using(crate::proofs::Joins::has_some, crate::proofs::Joins::has_few, crate::proofs::Joins::is_within))]
fn line_front(bytes: &[u8]) -> Option<Front>
    ensures decodes { Decodes bytes.now (option_map shown_front result) }
    ensures of_row { IfSome result (λ front. IsOfRow front) }
    ensures some { IfSome result (λ front. 0 < front.len) }
    ensures few { IfSome result (λ front. front.len ≤ 15) }
    ensures within { IfSome result (λ front. front.len ≤ length bytes.now) }
{
    instruction_length();
    front_of(bytes)
}

/// Appends the line at the offset, and answers the offset after it.
#[tactic(auto, using(crate::proofs::Joins::one_front, crate::proofs::Joins::one_byte))]
fn put_line<T: Texts>(bytes: &[u8], at: usize, text: &mut Vec<u8>) -> Result<usize, NoMemory>
    requires { at < length bytes.now }
    ensures added { IfOk result (λ end. Adds T.text bytes.now at end text.old.items text.new.items) }
    ensures progress { IfOk result (λ end. at < end) }
    ensures within { IfOk result (λ end. end ≤ length bytes.now) }
{
    match line_front(&bytes[at..]) {
        Some(front) => {
            put_insn::<T>(bytes, at, &front, text)?;
            Ok(at + front.len)
        }
        None => {
            put_byte::<T>(at, bytes[at], text)?;
            Ok(at + 1)
        }
    }
}

/// Appends lines from the offset on until the text is full or the bytes are at their end, at least one, and answers the offset after
/// the last.
#[tactic(auto, using(crate::proofs::Joins::joined))]
pub fn put_lines<T: Texts>(bytes: &[u8], at: usize, text: &mut Vec<u8>) -> Result<usize, NoMemory>
    requires { at < length bytes.now }
    ensures added { IfOk result (λ end. Adds T.text bytes.now at end text.old.items text.new.items) }
    ensures progress { IfOk result (λ end. at < end) }
    ensures within { IfOk result (λ end. end ≤ length bytes.now) }
{
    let mut end = put_line::<T>(bytes, at, text)?;
    'lines: while end < bytes.len() && text.len() < FULL_BYTES {
        end = put_line::<T>(bytes, end, text)?;
    }
    Ok(end)
}
