//! What all layers of the assembler share: the outside, texts, tokens, faults and messages.
#![tactic(auto)]

mod byte_classes;
mod causes;
mod digits;
mod faults;
mod laws;
mod messages;
mod notes;
mod outside;
mod pieces;
mod places;
mod positions;
mod reading;
mod refusals;
mod reports;
mod statuses;
mod steps;
mod streams;
mod strings;
mod texts;
mod tokens;

pub use byte_classes::{is_name_byte, is_name_start};
pub use causes::{FragCause, SymCause};
pub use digits::digit_of;
pub use faults::{EndFault, Fault, Note, SavedRegister, ScfiFault, StatementFault};
pub use laws::{one_division, one_value};
pub use messages::{NoMemory, heading, message, warning};
pub use notes::{Noted, Notes};
pub use outside::{Channel, Console, Failed, Inputs, Output, failure};
pub use pieces::{FirstPiece, PieceKind, first_piece, plain_length};
pub use places::{Place, SectionPlace};
pub use positions::{Files, Pos};
pub use reading::{MOST_BYTES, TextFault, read_text};
pub use refusals::Refusal;
pub use reports::{refusal, remarks};
pub use statuses::Status;
pub use steps::Steps;
pub use streams::{FileInputs, FileOutput, StreamConsole};
pub use strings::string_value;
pub use texts::{Bytes, SaidText, Text};
pub use tokens::{Token, TokenKind, Tokens};
