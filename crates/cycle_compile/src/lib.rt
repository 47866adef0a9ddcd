//! Expressions and statements become instructions (compiled-code simulation): what is pushed has their value and does what they do.
#![tactic(auto)]

mod assignment;
mod branch;
mod case;
mod expression;
mod jump;
mod operator;
mod pair;
mod statement;
mod test;
mod widening;

pub use assignment::whole_of;
pub use expression::{compute, decide, place};
pub use statement::carry_out;
