//! The words that may stand before a mnemonic.

ghost use Rattle.std.specs.Prelude.{◌≡◌};
ghost use Rattle.att_operands.specs.Prefixes.{prefix_of};

use x86_insn::Prefix;

/// The prefix that the text is, in either case.
#[inline(never)]
pub fn prefix_named(text: &[u8]) -> Option<Prefix>
    ensures { result ≡ prefix_of text.now }
{
    if text.eq_ignore_ascii_case(b"lock".as_slice()) {
        Some(Prefix::Lock)
    } else if text.eq_ignore_ascii_case(b"rep".as_slice()) {
        Some(Prefix::Rep)
    } else if text.eq_ignore_ascii_case(b"repe".as_slice()) {
        Some(Prefix::Repe)
    } else if text.eq_ignore_ascii_case(b"repz".as_slice()) {
        Some(Prefix::Repe)
    } else if text.eq_ignore_ascii_case(b"repne".as_slice()) {
        Some(Prefix::Repne)
    } else if text.eq_ignore_ascii_case(b"repnz".as_slice()) {
        Some(Prefix::Repne)
    } else if text.eq_ignore_ascii_case(b"notrack".as_slice()) {
        Some(Prefix::Notrack)
    } else {
        None
    }
}
