//! The sets of selectors that the assignments of a form have true, each once, by size and then by members.
#![tactic(auto)]

mod enumerator;
mod search;
mod selections;

pub use enumerator::{Enumerator, Members, Next};
