//! What the arguments of a command line ask for: a command's request, or the first thing that is wrong with them. Each command's
//! arguments are read by a file of its own. The pages of help are here too.
#![tactic(auto)]

mod check;
mod find;
mod help;
mod listing;
mod make;
mod pages;
mod session;
mod sim;
mod texts;
mod words;

pub use pages::page_text;
pub use word_values::{Usage, WordsErr};
pub use words::request;
