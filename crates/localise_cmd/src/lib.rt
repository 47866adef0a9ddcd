//! The top call: what the words behind the program's name ask for is read, and carried out by its command.
#![tactic(auto)]

mod asking;
mod formats;
mod kinds;
mod lines;
mod program;
mod run;

pub use program::run_program;
pub use run::run_words;
