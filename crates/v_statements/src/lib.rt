//! The reading of statements, and of always and initial blocks (IEEE 1364-2005, clause 9 and A.6).
#![tactic(auto)]

mod initials;
mod procedure_nodes;
mod procedures;
mod sensitivity;
mod statement_at;
mod statement_nodes;
mod statement_parts;
mod statements;

pub use procedures::procedure;
pub use statement_at::{initial_statement, statement};
pub use statement_parts::{in_parens, label_if, loop_head};
