//! Solves a formula in DIMACS CNF, checks the log of the solver, and tells what came of it.
#![tactic(auto)]

mod error;
mod form;
mod model;
mod report;
mod request;
mod run;
mod words;

pub use error::{Failure, FormErr, failure_status, failure_text};
pub use form::read_form;
pub use model::satisfies;
pub use report::{Report, report_text, status_of};
pub use request::{Request, request_of};
pub use run::{Checked, Solved, check, report_on, solve};
