//! The value of each node of a net of words in one cycle, computed on words. It takes no memory.
#![tactic(auto)]

mod arms;
mod bits;
mod cycle;
mod evaluate;
mod given;
mod node;
mod select;

pub use evaluate::eval_into;
pub use given::are_given;
