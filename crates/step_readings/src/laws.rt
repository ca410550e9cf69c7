//! What holds of all bytes that read as an instruction.

ghost use Rattle.step_readings.specs.Obeying.{ReadBytesObey};
ghost use Rattle.step_readings.specs.Filled.{EncodingsObey, FilledBytesObey, ViewsArePlain};
ghost use Rattle.step_readings.specs.Held.{AnyBytesAreHeld};
ghost use Rattle.step_readings.specs.Jumps.{JumpsObey, LoadedJumpsAreJumps};
ghost use Rattle.step_readings.specs.Loaded.{LoadedAreFilled, LoadedEncodingsObey, LoadedHaveValues};
ghost use Rattle.step_readings.specs.NoOperations.{FilledDoesNothing, PaddingDoesNothing, PaddingIsLong};

use jump_laws::jump_codes_read;
use x86_encode::{encodings_are_codes, fields_stand_apart};
use x86_steps::{effects_hold, fillings_are_covered, flows_hold};
use x86_table::{read_one_way, worked_readings};

/// Where bytes stand that read as an instruction with some numbers in place of those that are not
/// known, whatever is read there obeys the instruction.
pub fn read_bytes_obey()
    ensures { ReadBytesObey }
{
    read_one_way();
    effects_hold();
    flows_hold();
    fillings_are_covered();
}

/// So it is where bytes stand that read as an instruction with values in its fields, and where its
/// encoding stands with any values that its fields hold. An instruction with its values is one to
/// which this applies.
pub fn encodings_obey()
    ensures filled { FilledBytesObey }
    ensures encoded { EncodingsObey }
    ensures plain { ViewsArePlain }
{
    read_one_way();
    effects_hold();
    flows_hold();
    fillings_are_covered();
    encodings_are_codes();
}

/// Where the bytes of a direct jump stand, short or near, whatever is read there obeys the jump,
/// with the distance that they hold. Those of a near one are so whatever a linker has put into its
/// field.
pub fn jumps_obey()
    ensures obey { JumpsObey }
    ensures loaded { LoadedJumpsAreJumps }
{
    read_one_way();
    effects_hold();
    flows_hold();
    fillings_are_covered();
    jump_codes_read();
}

/// Whatever is read in padding, at the beginning of one of its no-operations, does nothing that is
/// followed.
pub fn padding_does_nothing()
    ensures padding { PaddingDoesNothing }
    ensures filled { FilledDoesNothing }
    ensures long { PaddingIsLong }
{
    read_one_way();
    worked_readings();
}

/// Whatever a linker puts into the bytes of a field is a value that the field holds.
pub fn any_bytes_are_held()
    ensures { AnyBytesAreHeld }
{}

/// The bytes of an encoding once a linker has put values into its fields are those with these
/// values: in each field stands one that it holds. Whatever is read where they stand obeys the
/// instruction.
pub fn loaded_bytes_obey()
    ensures filled { LoadedAreFilled }
    ensures values { LoadedHaveValues }
    ensures obey { LoadedEncodingsObey }
{
    encodings_obey();
    fields_stand_apart();
}
