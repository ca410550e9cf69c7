//! Arguments put into the text of a body (GNU as manual, ".macro").

ghost use Rattle.std.specs.Prelude.{◌≡◌, ◌++◌, ◌<◌, ◌≤◌, ℕ, List, map, length, false, IfOk, OnOk};
ghost use Rattle.std.specs.List.{prefix_len};
ghost use Rattle.std.specs.Option.{option_map};
ghost use Rattle.asm_base.specs.ByteClasses.{is_name_byte};
ghost use Rattle.macro_texts.specs.TokenTexts.{value_seen};
ghost use Rattle.macro_texts.specs.Arguments.{ArgumentAs};
ghost use Rattle.macro_texts.specs.ArgumentsSeen.{argument_seen};
ghost use Rattle.macro_texts.specs.Putting as spec;
ghost use Rattle.macro_texts.specs.PuttingSeen.{put_text, piece_seen, IsPutOn};

use crate::arguments::Argument;
use crate::token_texts::{Value, push_value};
use asm_base::{is_name_byte, is_name_start};
use std::alloc::{AllocError, Global};

/// What is put in for a backslash and bytes behind it.
#[derive(Clone, Copy)]
enum Put<'t, 'a> {
    /// The backslash itself.
    Backslash,
    /// Nothing.
    Nothing,
    /// The number of macro calls that began before.
    Number(u64),
    /// The text of a parameter.
    Text(Value<'t, 'a>),
}

/// What is put in, and how many bytes behind the backslash it takes.
#[derive(Clone, Copy)]
struct Piece<'t, 'a> {
    put: Put<'t, 'a>,
    taken: usize,
}

/// How many bytes of a name go on at the front.
fn name_length(bytes: &[u8]) -> usize
    ensures value { result ≡ prefix_len is_name_byte bytes.now }
    ensures within { result ≤ length bytes.now }
{
    bytes.iter().take_while(|byte| is_name_byte(**byte)).count()
}

/// How many bytes stand before the first backslash.
fn plain_length(bytes: &[u8]) -> usize
    ensures value { result ≡ prefix_len spec.is_plain bytes.now }
    ensures within { result ≤ length bytes.now }
{
    bytes.iter().take_while(|byte| **byte != b'\\').count()
}

/// What stands for the parameter of this name, if there is one.
#[tactic(auto, unfolding(crate::specs::Putting::argument_named))]
fn argument_named<'t, 'a>(arguments: &[Argument<'t, 'a>], name: &[u8]) -> Option<Value<'t, 'a>>
    ensures { option_map value_seen result
        ≡ spec.argument_named (map argument_seen arguments.now) name.now }
{
    for argument in arguments {
        if argument.name == name {
            return Some(argument.value);
        }
    }
    None
}

/// What stands for a backslash before these bytes.
#[tactic(auto, unfolding(crate::specs::Putting::put_by))]
fn piece_at<'t, 'a>(arguments: &[Argument<'t, 'a>], number: u64, bytes: &[u8]) -> Piece<'t, 'a>
    ensures value { piece_seen result
        ≡ spec.put_at (map argument_seen arguments.now) number bytes.now }
    ensures within { result.taken ≤ length bytes.now }
{
    let stays = Piece {
        put: Put::Backslash,
        taken: 0,
    };
    let Some((first, rest)) = bytes.split_first() else {
        return stays;
    };
    if *first == b'@' {
        return Piece {
            put: Put::Number(number),
            taken: 1,
        };
    }
    if *first == b'(' {
        return match rest.first() {
            Some(b')') => Piece {
                put: Put::Nothing,
                taken: 2,
            },
            _ => stays,
        };
    }
    if !is_name_start(*first) {
        return stays;
    }
    let taken = 1 + name_length(rest);
    match argument_named(arguments, &bytes[..taken]) {
        Some(value) => Piece {
            put: Put::Text(value),
            taken,
        },
        None => stays,
    }
}

/// Appends what is put in.
fn push_put(alloc: Global, text: &mut Vec<u8>, put: Put) -> Result<(), AllocError>
    ensures { OnOk result (text.new.items ≡ text.old.items ++ put_text put.entry) }
{
    match put {
        Put::Backslash => text.extend_from_slice(b"\\"),
        Put::Nothing => Ok(()),
        Put::Number(number) => {
            let digits = number.to_string(alloc)?;
            text.extend_from_slice(digits.as_bytes())
        }
        Put::Text(value) => push_value(text, value),
    }
}

/// Appends what the bytes before the next backslash make, or that backslash, and answers how many of the body they are.
fn push_piece(
    alloc: Global,
    text: &mut Vec<u8>,
    arguments: &[Argument],
    number: u64,
    body: &[u8],
) -> Result<usize, AllocError>
    requires { 0 < length body.now }
    ensures { IfOk result (λ n. IsPutOn (map argument_seen arguments.now) number
        text.old.items text.new.items body.now n) }
{
    if body[0] == b'\\' {
        let piece = piece_at(arguments, number, &body[1..]);
        push_put(alloc, text, piece.put)?;
        Ok(1 + piece.taken)
    } else {
        let length = plain_length(body);
        text.extend_from_slice(&body[..length])?;
        Ok(length)
    }
}

/// A body with arguments put in, and this number in place of `\@`.
pub fn put_in(
    alloc: Global,
    arguments: &[Argument],
    number: u64,
    body: &[u8],
) -> Result<Vec<u8>, AllocError>
    ensures { IfOk result (λ text. text.items
        ≡ spec.put (map argument_seen arguments.now) number body.now) }
{
    let mut text = Vec::with_capacity(alloc, body.len())?;
    let mut at = 0;
    while at < body.len() {
        at += push_piece(alloc, &mut text, arguments, number, &body[at..])?;
    }
    Ok(text)
}

/// Whether a backslash stands in a body: without one it stays as it is, whatever is put in.
pub fn has_backslash(body: &[u8]) -> bool
    ensures value { result ≡ spec.has_backslash body.now }
    ensures whole { result ≡ false → (arguments : List ArgumentAs) → (number : ℕ)
        → spec.put arguments number body.now ≡ body.now }
{
    body.contains(&b'\\')
}
