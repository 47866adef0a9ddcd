//! The report of a run: its JSON text, and the lines that are printed of a set.
#![tactic(auto)]

mod cycle_texts;
mod lines;
pub mod types;
mod write;

pub use cycle_texts::CycleTexts;
pub use lines::{line_of, set_lines};
pub use write::report_text;
