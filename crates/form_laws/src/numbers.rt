//! How large the numbers of forms are.

ghost use Rattle.form_laws.specs.Numbers.{FormsBeginFitting, FormsStayFitting, TokensAreInBytes, ValuesFit};

use asm_frames::frame_directives_keep_all_else;
use asm_line_tables::line_directives_keep_all_else;
use expr_texts::read_is_written;

/// The tokens of bytes are spelled in bytes.
pub fn tokens_are_in_bytes()
    ensures { TokensAreInBytes }
{}

/// Whatever statements are placed that are spelled in bytes, the numbers in the forms of assigned
/// symbols have 64 bits.
pub fn numbers_fit()
    ensures begins { FormsBeginFitting }
    ensures stays { FormsStayFitting }
{
    frame_directives_keep_all_else();
    line_directives_keep_all_else();
    read_is_written();
}

/// So have the numbers in the forms of the values of an instruction.
pub fn values_fit()
    ensures { ValuesFit }
{
    att_insns::read_is_spelled();
    intel_insns::read_is_spelled();
}
