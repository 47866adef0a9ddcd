//! The made input of a number: a design that is a chain of registers with one wrong stage, and a trace of it as it should be.
#![tactic(auto)]

mod design;
mod line;
mod numbers;
mod trace;
mod values;

pub use design::design_text;
pub use line::made_line;
pub use trace::trace_text;
