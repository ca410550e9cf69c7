//! What holds of all items, and of padding.

ghost use Rattle.item_readings.specs.Items.{EncodedItemsAreRead, InstructionsAreCovered, JumpItemsAreRead, LoadedItemsAreRead};
ghost use Rattle.item_readings.specs.Padding.{NoOperationsDoNothing};
ghost use Rattle.item_readings.specs.Worked.{WorkedExecution};
ghost use Rattle.item_readings.specs.WorkedLoop.{LoopIsLaid, WrongLoopIsRefused};

use jump_laws::jump_codes_read;
use scfi_laws::{effects_are_followed, inner_jumps_are_plain};
use step_readings::{
    encodings_obey, jumps_obey, loaded_bytes_obey, padding_does_nothing, read_bytes_obey,
};
use x86_steps::worked_steps;
use x86_table::worked_readings;

/// What obeys the instruction of an item does what the item may do.
pub fn instructions_are_covered()
    ensures { InstructionsAreCovered }
{
    effects_are_followed();
}

/// Whatever is read where the encoding of an item's instruction stands, with any values that its
/// fields hold or a linker has put there, or where the bytes of its direct jump stand, does what
/// the item may do.
pub fn items_are_read()
    ensures encoded { EncodedItemsAreRead }
    ensures loaded { LoadedItemsAreRead }
    ensures jumps { JumpItemsAreRead }
{
    effects_are_followed();
    encodings_obey();
    loaded_bytes_obey();
    jumps_obey();
}

/// What is read in padding does nothing that is followed.
pub fn no_operations_do_nothing()
    ensures { NoOperationsDoNothing }
{
    padding_does_nothing();
}

/// The items of a function of four instructions stand in its bytes, and an execution goes through
/// all of them.
pub fn worked_execution()
    ensures { WorkedExecution }
{
    effects_are_followed();
    read_bytes_obey();
    worked_steps();
}

/// The items of a loop stand in its bytes, and not in others whose jump leads to itself.
pub fn worked_loop()
    ensures laid { LoopIsLaid }
    ensures refused { WrongLoopIsRefused }
{
    effects_are_followed();
    read_bytes_obey();
    items_are_read();
    inner_jumps_are_plain();
    jump_codes_read();
    worked_readings();
}
