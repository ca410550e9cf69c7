//! What forms name.

ghost use Rattle.form_laws.specs.Forms.{FormsBeginThere, FormsStayThere, HeldFormsAreThere, ValuesAreThere};

use asm_frames::frame_directives_keep_all_else;
use asm_line_tables::line_directives_keep_all_else;

/// Whatever statements are placed, the forms of assigned symbols name symbols that are there.
pub fn forms_name_symbols()
    ensures begins { FormsBeginThere }
    ensures stays { FormsStayThere }
{
    frame_directives_keep_all_else();
    line_directives_keep_all_else();
}

/// The forms of the values of an instruction that is placed name symbols that are there in the
/// end.
pub fn values_name_symbols()
    ensures { ValuesAreThere }
{
    frame_directives_keep_all_else();
    line_directives_keep_all_else();
}

/// A field that holds such a form names the same symbols, or its own place besides.
pub fn held_forms_name_symbols()
    ensures { HeldFormsAreThere }
{}
