//! LEB128 numbers, written in as few bytes as hold them (DWARF 5, section 7.6).

ghost use Rattle.std.specs.Prelude.{◌≡◌, ◌+◌, ◌<◌, ◌≤◌, ◌++◌};
ghost use Rattle.arrayvec.specs.ArrayVec.{array_vec_len};
ghost use Rattle.leb128.specs.Digits.{uleb_digits, uleb_bytes, sleb_digits, sleb_digits_below, sleb_bytes};
ghost use Rattle.leb128.specs.Room.{uleb_room, sleb_room};

use arrayvec::ArrayVec;

/// The bytes of a number.
type Digits = ArrayVec<u8, 10>;

/// Appends the bytes of a number.
fn append<const N: usize>(out: &mut ArrayVec<u8, N>, digits: &Digits)
    requires { array_vec_len out.old + array_vec_len digits.now ≤ N }
    ensures value { out.new.items ≡ out.old.items ++ digits.now.items }
    ensures len { array_vec_len out.new ≡ array_vec_len out.old + array_vec_len digits.now }
{
    out.try_extend_from_slice(digits.as_slice()).unwrap();
}

/// Appends a number in at most `more` + 1 bytes.
#[tactic(auto, using(crate::proofs::DigitLemmas::digits_last, crate::proofs::DigitLemmas::digits_short, crate::proofs::DigitLemmas::digits_more, crate::proofs::DigitLemmas::room_last, crate::proofs::DigitLemmas::room_more))]
fn push_digits(out: &mut Digits, more: u8, number: u64)
    requires space { array_vec_len out.old + more < 10 }
    requires fits { number < uleb_room more }
    ensures value { out.new.items ≡ out.old.items ++ uleb_digits more number }
    ensures few { array_vec_len out.new ≤ array_vec_len out.old + more + 1 }
{
    if more == 0 {
        out.push(number as u8);
        return;
    }
    if number < 128 {
        out.push(number as u8);
        return;
    }
    out.push((128 + number % 128) as u8);
    push_digits(out, more - 1, number / 128);
}

/// Appends an unsigned number, in at most 10 bytes.
#[tactic(auto, unfolding(crate::specs::Digits::uleb_bytes))]
pub fn push_unsigned<const N: usize>(out: &mut ArrayVec<u8, N>, number: u64)
    requires { array_vec_len out.old + 10 ≤ N }
    ensures value { out.new.items ≡ out.old.items ++ uleb_bytes number }
    ensures few { array_vec_len out.new ≤ array_vec_len out.old + 10 }
{
    let mut digits = Digits::new();
    push_digits(&mut digits, 9, number);
    append(out, &digits);
}

/// Appends a number that is not below 0, in at most `more` + 1 bytes.
#[tactic(auto, using(crate::proofs::DigitLemmas::signed_last, crate::proofs::DigitLemmas::signed_short, crate::proofs::DigitLemmas::signed_more, crate::proofs::DigitLemmas::signed_room_last, crate::proofs::DigitLemmas::signed_room_more))]
fn push_signed_digits(out: &mut Digits, more: u8, number: u64)
    requires space { array_vec_len out.old + more < 10 }
    requires fits { number < sleb_room more }
    ensures value { out.new.items ≡ out.old.items ++ sleb_digits more number }
    ensures few { array_vec_len out.new ≤ array_vec_len out.old + more + 1 }
{
    if more == 0 {
        out.push(number as u8);
        return;
    }
    if number < 64 {
        out.push(number as u8);
        return;
    }
    out.push((128 + number % 128) as u8);
    push_signed_digits(out, more - 1, number / 128);
}

/// Appends -1 less the number, in at most `more` + 1 bytes.
#[tactic(auto, using(crate::proofs::DigitLemmas::below_last, crate::proofs::DigitLemmas::below_short, crate::proofs::DigitLemmas::below_more, crate::proofs::DigitLemmas::signed_room_last, crate::proofs::DigitLemmas::signed_room_more))]
fn push_digits_below(out: &mut Digits, more: u8, number: u64)
    requires space { array_vec_len out.old + more < 10 }
    requires fits { number < sleb_room more }
    ensures value { out.new.items ≡ out.old.items ++ sleb_digits_below more number }
    ensures few { array_vec_len out.new ≤ array_vec_len out.old + more + 1 }
{
    if more == 0 {
        out.push((127 - number) as u8);
        return;
    }
    if number < 64 {
        out.push((127 - number) as u8);
        return;
    }
    out.push((255 - number % 128) as u8);
    push_digits_below(out, more - 1, number / 128);
}

/// The bytes of a signed number.
#[tactic(auto, using(crate::proofs::DigitLemmas::signed_up, crate::proofs::DigitLemmas::signed_down))]
fn signed_digits(number: i64) -> Digits
    ensures value { result.items ≡ sleb_bytes number }
    ensures few { array_vec_len result ≤ 10 }
{
    let mut digits = Digits::new();
    if number >= 0 {
        push_signed_digits(&mut digits, 9, number as u64);
    } else {
        push_digits_below(&mut digits, 9, number.unsigned_abs() - 1);
    }
    digits
}

/// Appends a signed number, in at most 10 bytes.
pub fn push_signed<const N: usize>(out: &mut ArrayVec<u8, N>, number: i64)
    requires { array_vec_len out.old + 10 ≤ N }
    ensures value { out.new.items ≡ out.old.items ++ sleb_bytes number }
    ensures few { array_vec_len out.new ≤ array_vec_len out.old + 10 }
{
    let digits = signed_digits(number);
    append(out, &digits);
}
