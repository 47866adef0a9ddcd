//! The list of minimal suspect sets of a network, found by plain trial: every set of suspects in turn, and for each
//! cycle every choice of values in turn. Each place is a suspect of its own. The program is as slow as it is simple,
//! and is what a faster search is to be held against.
#![tactic(auto)]

mod combinations;
mod explain;
pub mod laws;
mod rows;
mod samples;
mod search;
mod settle;
mod subsets;
mod trial;
mod works;

pub use combinations::candidates;
pub use search::PlainSearch;
