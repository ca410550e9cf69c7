//! Names of registers that are no operands here, though the processor has them.

ghost use Rattle.std.specs.Prelude.{◌≡◌};
ghost use Rattle.std.specs.Char.{to_ascii_lowercase};
ghost use Rattle.intel_sums.specs.OtherRegisters.{is_digit_to, is_other_two, is_system, is_other_three, is_late_system, is_wide, is_other_four, is_other_five, is_other_register};

/// A byte in lower case.
#[inline(always)]
fn low(byte: u8) -> u8
    ensures { result ≡ to_ascii_lowercase byte }
{
    byte.to_ascii_lowercase()
}

/// Whether the byte is a digit, and no greater one than this.
#[inline(always)]
fn is_digit_to(last: u8, byte: u8) -> bool
    ensures { result ≡ is_digit_to last byte }
{
    byte >= b'0' && byte <= last
}

/// `cs`, `ds`, `es`, `ss`, `st`, `k0` to `k7`
fn is_other_two(a: u8, b: u8) -> bool
    ensures { result ≡ is_other_two a b }
{
    (b == b's' && (a == b'c' || (a == b'd' || (a == b'e' || a == b's'))))
        || ((a == b's' && b == b't') || (a == b'k' && is_digit_to(b'7', b)))
}

/// The letters of `cr`, `dr` and `db`.
fn is_system(a: u8, b: u8) -> bool
    ensures { result ≡ is_system a b }
{
    (b == b'r' && (a == b'c' || a == b'd')) || (a == b'd' && b == b'b')
}

/// `cr0` to `cr9`, `dr0` to `dr9`, `db0` to `db9`, `mm0` to `mm7`, `eip`
fn is_other_three(a: u8, b: u8, c: u8) -> bool
    ensures { result ≡ is_other_three a b c }
{
    (is_system(a, b) && is_digit_to(b'9', c))
        || ((a == b'm' && (b == b'm' && is_digit_to(b'7', c)))
            || (a == b'e' && (b == b'i' && c == b'p')))
}

/// `cr10` to `cr15`, `dr10` to `dr15`, `db10` to `db15`
fn is_late_system(a: u8, b: u8, c: u8, d: u8) -> bool
    ensures { result ≡ is_late_system a b c d }
{
    is_system(a, b) && (c == b'1' && is_digit_to(b'5', d))
}

/// `ymm0` to `ymm9`, `zmm0` to `zmm9`, `tmm0` to `tmm7`
fn is_wide(a: u8, b: u8, c: u8, d: u8) -> bool
    ensures { result ≡ is_wide a b c d }
{
    b == b'm'
        && (c == b'm'
            && (((a == b'y' || a == b'z') && is_digit_to(b'9', d))
                || (a == b't' && is_digit_to(b'7', d))))
}

/// These, `bnd0` to `bnd3`, and `flat`.
fn is_other_four(a: u8, b: u8, c: u8, d: u8) -> bool
    ensures { result ≡ is_other_four a b c d }
{
    (is_late_system(a, b, c, d) || is_wide(a, b, c, d))
        || ((a == b'b' && (b == b'n' && (c == b'd' && is_digit_to(b'3', d))))
            || (a == b'f' && (b == b'l' && (c == b'a' && d == b't'))))
}

/// `xmm`, `ymm` or `zmm` and a number from 10 to 31.
fn is_other_five(a: u8, b: u8, c: u8, d: u8, e: u8) -> bool
    ensures { result ≡ is_other_five a b c d e }
{
    (a == b'x' || (a == b'y' || a == b'z'))
        && (b == b'm'
            && (c == b'm'
                && (((d == b'1' || d == b'2') && is_digit_to(b'9', e))
                    || (d == b'3' && is_digit_to(b'1', e)))))
}

/// Whether the name is one of these, in either case.
#[inline(never)]
#[tactic(auto, unfolding(crate::specs::OtherRegisters::is_other_register))]
pub fn is_other_register(name: &[u8]) -> bool
    ensures { result ≡ is_other_register name.now }
{
    match name {
        [a, b] => is_other_two(low(*a), low(*b)),
        [a, b, c] => is_other_three(low(*a), low(*b), low(*c)),
        [a, b, c, d] => is_other_four(low(*a), low(*b), low(*c), low(*d)),
        [a, b, c, d, e] => is_other_five(low(*a), low(*b), low(*c), low(*d), low(*e)),
        _ => false,
    }
}
