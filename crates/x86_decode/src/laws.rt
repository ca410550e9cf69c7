//! What holds of all bytes.

ghost use Rattle.x86_decode.specs.Decoding.{AllIsDecoded};
ghost use Rattle.x86_decode.specs.WorkedDecodings.{WorkedDecodings};

use x86_table::{fields_are_narrow, fields_have_bytes, heads_tell_rows, leads_in_order};

/// What is decoded of bytes is the instruction that they begin with, and none exactly where they begin with
/// none.
pub fn all_is_decoded()
    ensures { AllIsDecoded }
{
    leads_in_order();
    fields_are_narrow();
    fields_have_bytes();
    heads_tell_rows();
}

/// What is decoded of bytes that were worked out by hand.
pub fn worked_decodings()
    ensures { WorkedDecodings }
{}
