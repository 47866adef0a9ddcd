//! The clauses of an unrolled form: the counter, the cycles of each trace and what is expected of them.
#![tactic(auto)]

mod beginning;
mod clauses;
mod error;
mod kept;
mod most;
mod plan;
mod selectors;
mod sink;
mod walk;

pub use clauses::form;
pub use error::FormErr;
pub use plan::FormPlan;
