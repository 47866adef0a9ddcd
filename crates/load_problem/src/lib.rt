//! What a list of sets of suspects is asked of: a design, its suspects, its traces, and the digest of all inputs; or why there is
//! none, with the line and the status that say so.
#![tactic(auto)]

mod inputs;
mod limits;
mod tools;

pub use inputs::{Inputs, read};
pub use limits::{form_plan, problem_line};
pub use tools::Tools;
