//! Why a text is refused, and the line with which a run then ends: a code with the span that it names and words for a person, the
//! last line of a run with its status, and what is told to a person beside it.
#![tactic(auto)]

mod code;
mod last_line;
mod notes;
mod refusal;
mod words;

pub use code::Code;
pub use last_line::{LastLine, print_line};
pub use notes::{NoNotes, Note, Notes};
pub use refusal::Refusal;
