//! The lines of what sets change: for each trace, cycle and place in which a set's values take another word than the place computes, both
//! words, with the operands of what is computed.
#![tactic(auto)]

mod change;
mod cycle;
mod laws;
mod names;
mod operands;
mod set;
mod trace;

pub use laws::{line_is_change, one_list, some_lines};
pub use set::{Listed, set_text};
