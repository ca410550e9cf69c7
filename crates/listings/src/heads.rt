//! The head of a line: its offset and its bytes, in hexadecimal.

ghost use Rattle.std.specs.Prelude.{◌≡◌, ◌+◌, ◌*◌, ◌<◌, ◌≤◌, ◌++◌, OnOk, flat_map, length};
ghost use Rattle.arrayvec.specs.ArrayVec.{array_vec_len};
ghost use Rattle.listings.specs.Digits.{byte_digits, offset_digits};
ghost use Rattle.listings.specs.LineTexts.{line_head, spaced_byte};

use crate::digits::hex_digit;
use arrayvec::ArrayVec;
use asm_base::NoMemory;

/// Room for the head of a line of 15 bytes.
type Head = ArrayVec<u8, 64>;

/// Appends the two digits of a byte.
#[inline(always)]
#[tactic(auto, unfolding(crate::specs::Digits::byte_digits))]
fn push_byte(head: &mut Head, byte: u8)
    requires room { array_vec_len head.old + 2 ≤ 64 }
    ensures items { head.new.items ≡ head.old.items ++ byte_digits byte }
    ensures length { array_vec_len head.new ≡ array_vec_len head.old + 2 }
{
    head.push(hex_digit(byte >> 4));
    head.push(hex_digit(byte % 16));
}

/// Appends the eight digits of an offset.
#[inline(always)]
#[tactic(auto, unfolding(crate::specs::Digits::offset_digits))]
fn push_offset(head: &mut Head, offset: usize)
    requires room { array_vec_len head.old + 8 ≤ 64 }
    ensures items { head.new.items ≡ head.old.items ++ offset_digits offset }
    ensures length { array_vec_len head.new ≡ array_vec_len head.old + 8 }
{
    push_byte(head, ((offset >> 24) % 256) as u8);
    push_byte(head, ((offset >> 16) % 256) as u8);
    push_byte(head, ((offset >> 8) % 256) as u8);
    push_byte(head, (offset % 256) as u8);
}

/// Appends the bytes, each with a blank after it.
#[inline(always)]
fn push_bytes(head: &mut Head, bytes: &[u8])
    requires room { array_vec_len head.old + 3 * length bytes.now ≤ 64 }
    ensures items { head.new.items ≡ head.old.items ++ flat_map spaced_byte bytes.now }
    ensures length { array_vec_len head.new ≡ array_vec_len head.old + 3 * length bytes.now }
{
    for byte in bytes {
        push_byte(head, *byte);
        head.push(b' ');
    }
}

/// Appends the head of a line with these bytes.
#[tactic(auto, unfolding(crate::specs::LineTexts::line_head))]
pub(crate) fn put_head(line: &mut Vec<u8>, offset: usize, bytes: &[u8]) -> Result<(), NoMemory>
    requires { length bytes.now ≤ 15 }
    ensures { OnOk result (line.new.items ≡ line.old.items ++ line_head offset bytes.now) }
{
    let mut head = Head::new();
    push_offset(&mut head, offset);
    head.push(b' ');
    head.push(b' ');
    push_bytes(&mut head, bytes);
    head.push(b' ');
    line.extend_from_slice(head.as_slice())
}
