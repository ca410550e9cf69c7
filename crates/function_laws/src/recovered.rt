//! What the frame tables of functions mean along executions.

ghost use Rattle.function_laws.specs.Recovered.{FunctionTablesRecover};

use crate::tabled::functions_are_tabled;
use scfi_laws::tables_recover;

/// Along each kept execution over the bytes of its section as a linker leaves it, the frame table of a
/// function recovers the caller; and at exits the registers that calls keep are as at entry.
pub fn function_tables_recover()
    ensures { FunctionTablesRecover }
{
    functions_are_tabled();
    tables_recover();
}
