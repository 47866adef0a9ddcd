//! The value of an expression and what a statement leaves, computed on words, one for each signal (IEEE 1364-2005, clauses 5
//! and 9). Each call has the definition that it computes as its contract.
#![tactic(auto)]

mod expression;
mod operator;
mod rows;
mod select;
mod signals;
mod statement;
mod store;
mod words;
mod write;

pub use expression::value;
pub use operator::{binary, repeated, resized, unary};
pub use rows::row;
pub use select::{bit_of, distance_of, position_from, with_next};
pub use signals::{is_listed, signal_at, width_at};
pub use statement::{assigned, run_statement};
pub use store::assign;
pub use words::word_at;
pub use write::replaced;
