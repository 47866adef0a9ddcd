//! The vocabulary of clause solving: literals, clauses, forms and logs of resolution steps.
//!
//! What an assignment satisfies, what a chain of resolutions gives, and which logs are accepted is defined in
//! `specs/`, in terms of lists of literals alone.
#![tactic(auto)]

mod clause;
mod form;
mod literal;
mod log;
mod variables;

pub use clause::Clause;
pub use form::{Clauses, Form};
pub use literal::Lit;
pub use log::{Log, Step, StepKind};
pub use variables::{are_within, blocks_are_within, has_distinct_variables, is_within};
