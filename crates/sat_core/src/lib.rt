//! A clause solver under assumptions, by conflict-driven clause learning, which writes the resolution chain of each clause
//! that it learns or derives into a log.
#![tactic(auto)]

mod analysis;
mod budget;
mod engine;
mod explain;
mod heap;
mod laws;
mod order;
mod ranking;
mod restarts;
mod solver;
mod tracing;
mod verdict;

pub use budget::Budget;
pub use laws::few_learned_are_fresh;
pub use solver::Solver;
pub use verdict::Verdict;
