//! The texts of macros: parameters and arguments, the values of repeats, and what is put into a body (GNU as manual,
//! ".macro", ".irp" and ".irpc").
#![tactic(auto)]

mod arguments;
mod causes;
mod parameters;
mod putting;
mod repeats;
mod token_texts;

pub use arguments::{Argument, call_arguments, length_to_comma};
pub use causes::{MacroLineCause, MacroLineFault};
pub use parameters::{MacroLine, Parameter, ParameterKind, macro_line};
pub use putting::{has_backslash, put_in};
pub use repeats::{EachLine, irp_line, irpc_line};
pub use token_texts::{Value, push_text, push_value, value_of};
