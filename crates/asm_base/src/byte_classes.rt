//! Classes of bytes (GNU as manual, chapter 3, "Syntax").

ghost use Rattle.std.specs.Prelude.{◌≡◌};
ghost use Rattle.asm_base.specs.ByteClasses.{is_blank, is_name_start, is_name_byte, is_operator_byte, begins_with, line_goes_on};

/// Whether the byte is a space or a tab.
#[tactic(auto, unfolding(crate::specs::ByteClasses::is_blank))]
pub(crate) fn is_blank(byte: u8) -> bool
    ensures { result ≡ is_blank byte }
{
    byte == b' ' || byte == b'\t'
}

/// Whether the byte begins a name.
#[tactic(auto, unfolding(crate::specs::ByteClasses::is_name_start))]
pub fn is_name_start(byte: u8) -> bool
    ensures { result ≡ is_name_start byte }
{
    byte.is_ascii_alphabetic() || byte == b'_' || byte == b'.' || byte >= 0x80
}

/// Whether the byte continues a name.
#[tactic(auto, unfolding(crate::specs::ByteClasses::is_name_byte))]
pub fn is_name_byte(byte: u8) -> bool
    ensures { result ≡ is_name_byte byte }
{
    is_name_start(byte) || byte.is_ascii_digit() || byte == b'$'
}

/// Whether the byte is an operator or begins one.
#[tactic(auto, unfolding(crate::specs::ByteClasses::is_operator_byte))]
pub(crate) fn is_operator_byte(byte: u8) -> bool
    ensures { result ≡ is_operator_byte byte }
{
    byte.is_ascii_punctuation() && !b"\"'#;".contains(&byte)
}

/// Whether the bytes begin with this byte.
pub(crate) fn begins_with(byte: u8, bytes: &[u8]) -> bool
    ensures { result ≡ begins_with byte bytes.now }
{
    match bytes {
        [] => false,
        [first, ..] => *first == byte,
    }
}

/// Whether the bytes begin with a byte other than a line feed.
pub(crate) fn line_goes_on(bytes: &[u8]) -> bool
    ensures { result ≡ line_goes_on bytes.now }
{
    match bytes {
        [] => false,
        [first, ..] => *first != b'\n',
    }
}
