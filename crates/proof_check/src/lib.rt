//! A checker for logs of resolution steps.
//!
//! `Checker::check_log` says whether a log is accepted after a form and a list of blocks, by the definitions of
//! `clause_base`, and names the least step that isn't. `check_log_parallel` says the same by several workers.
#![tactic(auto)]

mod chain;
mod checker;
mod claim;
mod laws;
mod marks;
mod naming;
mod parallel;
mod piece;
mod resolve;
mod sets;
mod text;
pub mod types;

pub use checker::Checker;
pub use claim::{BadStep, Claim};
pub use laws::{named_follow, one_answer, same_answer};
pub use naming::named;
pub use parallel::check_log_parallel;
pub use text::{log_text, read_log, read_log_parallel};
