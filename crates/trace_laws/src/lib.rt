//! The list of a design's minimal sets for some traces, and the lists of each trace alone: which sets work for all, and how the one list
//! is made of the others. There is no code: each law is the contract of a function that does nothing, over values that no code holds.
#![tactic(auto)]

mod laws;

pub use laws::{list_by_trace, passing_trace, works_by_trace};
