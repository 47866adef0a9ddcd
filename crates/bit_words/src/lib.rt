//! Operators on words of literals (IEEE 1364-2005, 5.1), each by the nodes of its definition in `specs/`.
#![tactic(auto)]

mod add;
mod bitwise;
mod choose;
mod equal;
mod index;
pub mod laws;
mod less;
mod multiply;
mod shift;
mod word_maker;

pub use bitwise::Bitwise;
pub use shift::{Direction, Shift};
pub use word_maker::WordMaker;
