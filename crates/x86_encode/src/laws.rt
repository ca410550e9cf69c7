//! What holds of all bytes that mean an instruction.

ghost use Rattle.x86_encode.specs.EncodingLaws.{EncodingsCode, EncodingsFill, EncodingsNote, EncodingsPlace, EncodingsCause, BareRowsCode};
ghost use Rattle.x86_encode.specs.FieldPlaces.{EncodingsApart, EncodingsHoldUnknown};
ghost use Rattle.x86_encode.specs.WorkedCodes.{WorkedCodes};
ghost use Rattle.x86_encode.specs.WorkedEncodings.{WorkedEncodings};
ghost use Rattle.x86_encode.specs.Readings.{CodesRead, ReadingsCode, ExactReadingsCode, ExchangesAsRead};

/// Bytes mean an instruction of which all values are known just where they read as it, an immediate
/// modulo the operand size. The operands of `xchg` are exchanged just where they are when its bytes
/// are read.
pub fn codes_are_readings()
    ensures read { CodesRead }
    ensures mean { ReadingsCode }
    ensures exact { ExactReadingsCode }
    ensures exchanges { ExchangesAsRead }
{}

/// The encoding gives the least bytes that mean the instruction, with their fields, or why there are
/// none. Of an instruction without operands it is the bytes of its one row.
pub fn encodings_are_codes()
    ensures code { EncodingsCode }
    ensures fields { EncodingsFill }
    ensures notes { EncodingsNote }
    ensures positions { EncodingsPlace }
    ensures cause { EncodingsCause }
    ensures bare { BareRowsCode }
{}

/// The fields of an encoding stand apart, within its bytes and behind the first one: four bytes of a
/// displacement, and behind it the one, two, four or eight of an immediate or a distance, which are the
/// last. A field stands for a value that is not known, unless it holds a distance.
#[tactic(auto, using(crate::proofs::FieldPlaces::fields_apart, crate::proofs::UnknownFields::fields_unknown))]
pub fn fields_stand_apart()
    ensures places { EncodingsApart }
    ensures values { EncodingsHoldUnknown }
{}

/// The shortest bytes of instructions that were worked out by hand, and the encodings of some.
pub fn worked_codes()
    ensures codes { WorkedCodes }
    ensures encodings { WorkedEncodings }
{}
