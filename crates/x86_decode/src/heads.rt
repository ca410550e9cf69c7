//! What stands before an opcode (Intel SDM, volume 2, section 2.1.1).

ghost use Rattle.std.specs.Prelude.{◌≡◌, drop};
ghost use Rattle.x86_decode.specs.Heads as spec;
ghost use Rattle.x86_decode.specs.Views.{shown_head};

use x86_table::Map;

/// The byte of a segment or of `notrack`, where it is in front.
pub(crate) fn first_in(bytes: &[u8]) -> Option<u8>
    ensures { result ≡ spec.front_if spec.is_first bytes.now }
{
    match bytes {
        [b, ..] if *b == 0x3E || (*b == 0x64 || *b == 0x65) => Some(*b),
        _ => None,
    }
}

/// 66, where it is in front.
pub(crate) fn size_in(bytes: &[u8]) -> Option<u8>
    ensures { result ≡ spec.front_if spec.is_size bytes.now }
{
    match bytes {
        [b, ..] if *b == 0x66 => Some(*b),
        _ => None,
    }
}

/// F2 or F3, where it is in front.
pub(crate) fn repeat_in(bytes: &[u8]) -> Option<u8>
    ensures { result ≡ spec.front_if spec.is_repeat bytes.now }
{
    match bytes {
        [b, ..] if *b == 0xF2 || *b == 0xF3 => Some(*b),
        _ => None,
    }
}

/// F0, where it is in front.
pub(crate) fn lock_in(bytes: &[u8]) -> Option<u8>
    ensures { result ≡ spec.front_if spec.is_lock bytes.now }
{
    match bytes {
        [b, ..] if *b == 0xF0 => Some(*b),
        _ => None,
    }
}

/// REX, where it is in front.
pub(crate) fn rex_in(bytes: &[u8]) -> Option<u8>
    ensures { result ≡ spec.front_if spec.is_rex bytes.now }
{
    match bytes {
        [b, ..] if *b >= 64 && *b < 80 => Some(*b),
        _ => None,
    }
}

/// What is behind the byte, where it stands.
pub(crate) fn behind(bytes: &[u8], byte: Option<u8>) -> &[u8]
    ensures { result.now ≡ spec.behind byte bytes.now }
{
    match byte {
        None => bytes,
        Some(_) => match bytes {
            [_, rest @ ..] => rest,
            [] => bytes,
        },
    }
}

/// The map of the opcode in front, by the bytes before it.
pub(crate) fn map_in(bytes: &[u8]) -> Map
    ensures { result ≡ spec.map_in bytes.now }
{
    match bytes {
        [0x0F, 0x38, ..] => Map::Three38,
        [0x0F, 0x3A, ..] => Map::Three3A,
        [0x0F, ..] => Map::Two,
        _ => Map::One,
    }
}

/// The bytes before an opcode and its escape, each where it stands, and what is behind them.
#[derive(Clone, Copy)]
pub(crate) struct Head<'a> {
    pub first: Option<u8>,
    pub size: Option<u8>,
    pub repeat: Option<u8>,
    pub lock: Option<u8>,
    pub rex: Option<u8>,
    pub rest: &'a [u8],
}

/// The head of bytes.
#[tactic(auto, unfolding(crate::specs::Heads::head_of))]
pub(crate) fn head_of(bytes: &[u8]) -> Head<'_>
    ensures { shown_head result ≡ spec.head_of bytes.now }
{
    let first = first_in(bytes);
    let sized = behind(bytes, first);
    let size = size_in(sized);
    let repeated = behind(sized, size);
    let repeat = repeat_in(repeated);
    let locked = behind(repeated, repeat);
    let lock = lock_in(locked);
    let extended = behind(locked, lock);
    let rex = rex_in(extended);
    Head {
        first,
        size,
        repeat,
        lock,
        rex,
        rest: behind(extended, rex),
    }
}
