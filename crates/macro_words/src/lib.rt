//! The words of macros, repeats, conditionals and files, and what stands behind them (GNU as manual, ".macro", ".rept",
//! ".irp", ".irpc", ".if", ".include").
#![tactic(auto)]

mod causes;
mod conditions;
mod evaluating;
mod files;
mod heads;
mod knowing;
mod raising;
mod words;

pub use causes::MacroCause;
pub use conditions::count_of;
pub use evaluating::{holds, repeat_count, verdict};
pub use files::file_name;
pub use heads::{labels_length, one_name, word_of_head};
pub use knowing::KnowingPlacer;
pub use raising::{line_cause, line_of_cause, raised};
pub use words::{Condition, WORDS, Word, WordRow, word_of, words_apart, words_are_whole};
